//! Worked examples of the definitions. Each function is empty: its contract is the example, which the checker computes.
ghost use Rattle.mope_base.specs.declared.body.Body.{Body};
ghost use Rattle.server_conn.specs.Examples.{CountsOne, DeletesOne, FullTable, NoTransaction, Refuses};

/// Without a transaction a step of a walk and its end are refused, and nothing changes.
pub fn no_transaction()
    ensures { NoTransaction }
{}

/// One INSERT into an empty table and its commit; then a COUNT between two constants that enclose the value.
pub fn counts_one()
    ensures { (b : Body) → CountsOne b }
{}

/// A full table ends the transaction.
pub fn full_table()
    ensures { (b : Body) → FullTable b }
{}

/// A DELETE by an equal value takes the row, and is one operation.
pub fn deletes_one()
    ensures { (b : Body) → DeletesOne b }
{}

/// Each refusal leaves the transaction as it is.
pub fn refuses()
    ensures { (b : Body) → Refuses b }
{}
