//! Laws of a table by rank that stands for a table by value. Each function is empty: its contract is the law.
ghost use Rattle.table_model.specs.StandingLaws.{BodiesReadAsItems, EmptiesStand, EmptyStands, InstallStands, OperationsKeepStanding, OperationsStand};

/// A table without rows by rank stands for one by value.
pub fn empty_stands<B, C>()
    ensures { EmptyStands B C }
{}

/// INSERT of sealed cells at the places of their values, DELETE of one row or many and an install by rank leave a table that
/// stands for the table by value after the same operation.
pub fn operations_keep_standing<B, C>()
    ensures { OperationsKeepStanding B C }
{}

/// Where sealed cells read as their values, each row's body reads as the item of the row's rank does.
pub fn bodies_read_as_items<B, C>()
    ensures { BodiesReadAsItems B C }
{}

/// Several tables without rows by rank stand for such tables by value.
pub fn empties_stand<B, C>()
    ensures { EmptiesStand B C }
{}

/// Operations by value that fit some tables, each at the places that it has there and sealed, fit the shelves of tables that
/// differ from these by balancing alone, and leave shelves that stand for these tables after the operations.
pub fn operations_stand<B, C>()
    ensures { OperationsStand B C }
{}

/// An install on shelves that stand for tables leaves shelves that stand for the tables after it.
pub fn install_stands<B, C>()
    ensures { InstallStands B C }
{}
