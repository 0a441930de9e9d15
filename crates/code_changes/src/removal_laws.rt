//! Laws of codes where a drop takes an item out. Each function is empty: its contract is the law.
ghost use Rattle.code_changes.specs.RemovalLaws.{DropIsOrdinary, DropTakesItem, RemovalMoves};

/// A removal changes the codes of the part that moves up and of the item that takes the removed one's place.
pub fn removal_moves<T>()
    ensures { RemovalMoves T }
{}

/// One row fewer, in same-time mode, of an item that had no other: its code and its count go, where enough items are live.
pub fn drop_takes_item<B>()
    ensures { DropTakesItem B }
{}

/// Where the item has rows left, or the live items become the whole tree, one row fewer is the same in both modes.
pub fn drop_is_ordinary<B>()
    ensures { DropIsOrdinary B }
{}
