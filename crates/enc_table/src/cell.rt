//! What a row has in a column.
use mope_base::Body;

/// What a row has in a column: its sealed value, and the code of its item in the column's tree.
#[derive(Clone, Copy, PartialEq, Eq, Debug)]
pub struct Cell {
    pub body: Body,
    pub code: u64,
}
