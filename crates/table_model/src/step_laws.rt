//! Laws of the lists of operations that each column goes through. Each function is empty: its contract is the law.
ghost use Rattle.table_model.specs.StepLaws.{OpsByColumns, StepsAreBlind, StepsCompose, TablesByColumns};

/// One list of operations for each column after another is the second on the columns after the first.
pub fn steps_compose<B>()
    ensures { StepsCompose B }
{}

/// The columns of a table after INSERT, DELETE of one row or many and an install are those before it after the lists of
/// operations that these are made of.
pub fn tables_by_columns<B>()
    ensures { TablesByColumns B }
{}

/// The columns of one of several tables after operations on them are those before it after the lists of the operations that
/// are on this table.
pub fn ops_by_columns<B>()
    ensures { OpsByColumns B }
{}

/// The lists of operations don't depend on bodies.
pub fn steps_are_blind<B, C>()
    ensures { StepsAreBlind B C }
{}
