//! Laws of the operations on several tables. Each function is empty: its contract is the law.
ghost use Rattle.table_model.specs.OperationLaws.{InstallsAreBlind, InstallsAreByRank, OperationsAreBlind, OpsAreByRank, OpsOnSame};

/// Operations by value that fit leave sound tables sound, and are on their tables by rank the operations by rank, each value
/// at its place as the operations before it leave the tables; and these fit too.
pub fn ops_are_by_rank<B>()
    ensures { OpsAreByRank B }
{}

/// Operations do to tables of other bodies what they do to these: by rank of any, by value where the others tell the values.
pub fn operations_are_blind<B, C>()
    ensures { OperationsAreBlind B C }
{}

/// On tables that differ by the balance of their trees alone operations fit, place and do the same.
pub fn ops_on_same<B>()
    ensures { OpsOnSame B }
{}

/// An install on one of several sound tables leaves them sound and the same but for balance, and is on their tables by rank
/// the install by rank.
pub fn installs_are_by_rank<B>()
    ensures { InstallsAreByRank B }
{}

/// An install does to tables of other bodies what it does to these.
pub fn installs_are_blind<B, C>()
    ensures { InstallsAreBlind B C }
{}
