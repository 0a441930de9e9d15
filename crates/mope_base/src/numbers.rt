//! Numbers of tables, columns and sessions, and the two modes.
/// The number of a table, from 0 in the order of the declarations.
#[derive(Clone, Copy, Debug, PartialEq, Eq)]
pub struct TableNo(pub u8);

/// The number of a column in its table, from 0 in the order of the declaration.
#[derive(Clone, Copy, Debug, PartialEq, Eq)]
pub struct ColNo(pub u8);

/// The number of a session, from 1 to 64 in the order of the workload.
#[derive(Clone, Copy, Debug, PartialEq, Eq)]
pub struct SessionNo(pub u8);

/// What becomes of a value that no live row has any more.
#[derive(Clone, Copy, Debug, PartialEq, Eq)]
pub enum Mode {
    /// It keeps its place among the values, with the count 0.
    Ordinary,
    /// It is removed, so that the order shows only values that stand at the same time.
    SameTime,
}
