//! Laws of the definitions. Each function is empty: its contract is the law.
ghost use Rattle.tree_model.specs.Laws.{AddIsBlind, AddKeepsOrder, BalancedIsShallow, GapKeepsOrder, HalvesAtRoot, HeightIsLongestWay, KeepsItems, PlaceCompares, PlaceIsWithin};

/// The balanced tree of a list has the items of the list in order.
pub fn balanced_keeps_items<T>()
    ensures { KeepsItems T }
{}

/// The root of the balanced tree of n items is item floor(n / 2), and its sides are the balanced trees of the rest.
pub fn balanced_halves_at_root<T>()
    ensures { HalvesAtRoot T }
{}

/// No way in a tree is longer than its height, and the way to some gap is as long.
pub fn height_is_longest_way<T>()
    ensures { HeightIsLongestWay T }
{}

/// In the balanced tree of fewer than 2^k items each way to an item has fewer than k steps, and each way to a gap at most k.
pub fn balanced_is_shallow<T>()
    ensures { BalancedIsShallow T }
{}

/// An item of an increasing list is below, equal to or above a value exactly as its place stands before, at or after the value's.
pub fn place_compares()
    ensures { PlaceCompares }
{}

/// The place of a value in an increasing list is one of the list's items or gaps.
pub fn place_is_within()
    ensures { PlaceIsWithin }
{}

/// A value that is put in at its gap leaves the list increasing.
pub fn gap_keeps_order()
    ensures { GapKeepsOrder }
{}

/// One row more at the place of its value leaves the values of a column's items increasing.
pub fn add_keeps_order<B>()
    ensures { AddKeepsOrder B }
{}

/// One row more at a place does to items with other bodies what it does to these.
pub fn add_is_blind<B, C>()
    ensures { AddIsBlind B C }
{}
