//! What client and connection exchange on worked examples, computed by the checker. Each function is empty: its contract is the example.
ghost use Rattle.std.specs.Prelude.{ℕ, Bool, List};
ghost use Rattle.transaction_laws.specs.Examples.{ExampleView, DeletesTwo, InvertedBetween, MeetsFull, WalksOverDeleted};

/// A transaction that meets a full table.
pub fn full_table()
    ensures { (key : List ℕ) → MeetsFull key }
{}

/// BETWEEN a greater and a smaller constant.
pub fn inverted_between()
    ensures { (key : List ℕ) (same_time : Bool) → InvertedBetween key same_time }
{}

/// Walks in a column with deleted items, in both modes.
pub fn walks_over_deleted()
    ensures { (key : List ℕ) → WalksOverDeleted key }
{}

/// A DELETE of two rows.
pub fn deletes_two()
    ensures { (key : List ℕ) (same_time : Bool) → DeletesTwo key same_time }
{}

/// The example of a view: a value is put in, and a second transaction counts it between two others. What the client sends in it,
/// the client's own example says.
pub fn example_view()
    ensures { (key : List ℕ) → ExampleView key }
{}
