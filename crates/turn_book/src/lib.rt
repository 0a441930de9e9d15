//! One shared value that many sessions take in turn, and whose history only grows.
//!
//! The value lies in one slot beside three words: how many items its history has, how many tickets were drawn, and which
//! ticket is served. Each step is one access to a word or to the slot, and all are sequentially consistent:
//!
//! 1. Draw a ticket: one is added to word 1, and what it was is the ticket.
//! 2. Read word 2 until it is the ticket. The read that finds it takes the slot, which is then this pass's alone.
//! 3. Read word 0: from now on the pass has seen the history.
//! 4. Take the value out of the slot.
//! 5. Read word 0 again, and where the value's own count is another, write it there: here the turn takes effect.
//! 6. Put the value into the slot.
//! 7. Add one to word 2: the slot is free, and the next ticket is served.
//! 8. Split a pass, which reads word 0: the new one has the least number of the stock.
//! 9. Join a pass into another, which reads word 0: the other is spent.
//! 10. Read word 0 after a join: what both had seen are beginnings of one history, so the longer has the other as a
//!     beginning.
//!
//! Steps 1 to 4 are `take`, 5 to 7 `give`. The rule that each keeps: word 0 is the length of the history at all times,
//! also between 5 and 7, when the history is that of the value which the pass holds. At most one pass has the slot, the
//! one whose ticket is served; while none has, the value is there and has the history. The tickets that are out are those
//! from word 2 up to word 1, counted around 2^64, each of one pass; as there are fewer than 2^32 passes, no two are the
//! same. What a pass has seen is a beginning of the history. The history's items of a number are those that its pass made,
//! or, where that pass was joined, those that the other tells of it; a number that was never given out has none.
#![tactic(auto)]

mod book;
mod history;
mod pass;
mod plays;
mod steps;
mod view;

pub use history::History;
pub use pass::{Book, Pass};
pub use view::{Stage, View};

#[cfg(test)]
mod tests;
