//! What the definitions of a client give on worked examples, computed by the checker.

ghost use Rattle.proxy.specs.Examples.{InsertThenCount, FullTable, RolledBack, Rebuilds};

/// The exchanges and transactions of small scripts: a value that is put in and counted, a table that takes no further
/// row, a transaction that is rolled back, and a tree that is rebuilt twice, the second time too late.
pub fn worked_examples()
    ensures insert_then_count { InsertThenCount }
    ensures full_table { FullTable }
    ensures rolled_back { RolledBack }
    ensures rebuilds { Rebuilds }
{}
