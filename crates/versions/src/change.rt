//! What a commit or an install did to a column.
use mope_base::{ColNo, TableNo};
use summary::Summary;

/// What became of the codes of a column.
#[derive(Drop)]
pub struct ColumnChange {
    pub table: TableNo,
    pub column: ColNo,
    pub summary: Summary,
}
