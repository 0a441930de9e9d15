//! Why a row was not inserted.
/// Why a row was not inserted.
#[derive(Clone, Copy, PartialEq, Eq, Debug)]
pub enum TableStop {
    /// The table has as many rows as it may, or there is no number for a further one. It is as it was.
    Full,
    /// The table is spent.
    OutOfMemory,
}
