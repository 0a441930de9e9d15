//! Laws of a client and a connection. Each function is empty: its contract is the law.
ghost use Rattle.transaction_laws.specs.Constants.{ConstantsMeet};
ghost use Rattle.transaction_laws.specs.Ends.{BeginMeets, CloseMeets, CommitMeets, ConflictMeets, InstallMeets, StaleMeets};
ghost use Rattle.transaction_laws.specs.Inserts.{FullMeets, InsertMeets};
ghost use Rattle.transaction_laws.specs.Meetings.{LogsAreOne};
ghost use Rattle.transaction_laws.specs.Queries.{QueryMeets};
ghost use Rattle.transaction_laws.specs.Readable.{AllowedIsReadable, MessagesAreReadable};
ghost use Rattle.transaction_laws.specs.Standing.{StandingRuns};
ghost use Rattle.transaction_laws.specs.Transactions.{RebuildMeets, TransactionMeets};
ghost use Rattle.transaction_laws.specs.Walks.{WalkMeets};

/// What client and connection say to each other leaves no choice: where both keep to their definitions, the messages are those of
/// the laws below.
pub fn logs_are_one()
    ensures { LogsAreOne }
{}

/// A walk finds the place of its value.
pub fn walk_meets()
    ensures { WalkMeets }
{}

/// Walks find the places of the constants of a statement among the values of their columns.
pub fn constants_meet()
    ensures { ConstantsMeet }
{}

/// A row goes into the world's table and, sealed, into the transaction's, which stands for it again.
pub fn insert_meets()
    ensures { InsertMeets }
{}

/// A full table ends the transaction on both sides.
pub fn full_meets()
    ensures { FullMeets }
{}

/// A statement that asks gets the rows that it is about by value, with their cells sealed, and is answered as on plain tables; the rows
/// of a DELETE go out of the world's table and out of the transaction's, which stands for it again.
pub fn query_meets()
    ensures { QueryMeets }
{}

/// A transaction begins, and its own tables are the version's.
pub fn begin_meets()
    ensures { BeginMeets }
{}

/// A ROLLBACK, or a COMMIT without an operation, ends without a turn.
pub fn close_meets()
    ensures { CloseMeets }
{}

/// A COMMIT that makes a version.
pub fn commit_meets()
    ensures { CommitMeets }
{}

/// A COMMIT that finds a table written which a statement of the transaction names.
pub fn conflict_meets()
    ensures { ConflictMeets }
{}

/// A REBUILD that makes a version.
pub fn install_meets()
    ensures { InstallMeets }
{}

/// A REBUILD that finds its table changed.
pub fn stale_meets()
    ensures { StaleMeets }
{}

/// A transaction may begin on a version that stands for a world.
pub fn standing_runs()
    ensures { StandingRuns }
{}

/// A transaction from its begin to its end: client and connection meet, the answers are those on plain tables, and the connection keeps
/// the world's operations and tables with each cell sealed.
pub fn transaction_meets()
    ensures { TransactionMeets }
{}

/// A REBUILD from its begin to its end.
pub fn rebuild_meets()
    ensures { RebuildMeets }
{}

/// Some bytes give every reply that a client allows.
pub fn allowed_is_readable()
    ensures { AllowedIsReadable }
{}

/// Some bytes give every message of the statements of a valid transaction.
pub fn messages_are_readable()
    ensures { MessagesAreReadable }
{}
