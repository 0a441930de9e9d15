//! Laws of the operations on a column. Each function is empty: its contract is the law.
ghost use Rattle.tree_model.specs.ColumnLaws.{AddIsOnItems, ApplyIsBlind, ApplyKeeps, ApplySuits, DepthLimits, DepthsAreLimited, DepthsFollowSize, DropIsOnItems, InsertPutsItem, InsertStays, KeptIsBlind, LayIsUnseen, LayKeepsItems, LimitIsGreatest, LimitRises, OperationsKeep, OperationsKeepOrder, OperationsSuit, OriginsCompose, OriginsKeepBodies, OriginsAreBlind, OriginsOfNothing, OriginsRise, PartKeepsItems, RemoveTakesItem, SuitsIsBlind, WaysAreShort, WholeKeepsLive};

/// The limit of the depth in a tree of n items is the greatest d with 3^d <= n * 2^d.
pub fn limit_is_greatest()
    ensures { LimitIsGreatest }
{}

/// A part of a tree that becomes balanced keeps its items in order.
pub fn part_keeps_items<T>()
    ensures { PartKeepsItems T }
{}

/// A tree that becomes balanced whole keeps its live items in order.
pub fn whole_keeps_live<B>()
    ensures { WholeKeepsLive B }
{}

/// An insertion at the gap of a rank puts the item at that rank, whether a part becomes balanced or not.
pub fn insert_puts_item<T>()
    ensures { InsertPutsItem T }
{}

/// The removal of the item of a rank takes it out and leaves the others in order.
pub fn remove_takes_item<T>()
    ensures { RemoveTakesItem T }
{}

/// One row more in a column is one row more in the list of its items.
pub fn add_is_on_items<B>()
    ensures { AddIsOnItems B }
{}

/// One row fewer in a column is one row fewer in the list of its items, of which the live ones stay where they are too few.
pub fn drop_is_on_items<B>()
    ensures { DropIsOnItems B }
{}

/// A column that is balanced whole keeps its items and their order.
pub fn lay_keeps_items<B>()
    ensures { LayKeepsItems B }
{}

/// An operation of either mode keeps what `IsKept` says of a column, whatever the modes before it.
pub fn apply_keeps<B>()
    ensures { ApplyKeeps B }
{}

/// After any operations on an empty column, in any mix of modes, no item is deeper than the limit, 2 * most <= 3 * live,
/// and there are at most `most` items.
pub fn operations_keep<B>()
    ensures { OperationsKeep B }
{}

/// An operation of a mode keeps what the mode adds: in ordinary mode `most` is the number of items, in same-time mode each
/// count is at least 1.
pub fn apply_suits<B>()
    ensures { ApplySuits B }
{}

/// After any operations of one mode on an empty column it has what the mode adds.
pub fn operations_suit<B>()
    ensures { OperationsSuit B }
{}

/// What an operation of a mode does to the items of a column of that mode is the same after it was balanced whole.
pub fn lay_is_unseen<B>()
    ensures { LayIsUnseen B }
{}

/// An operation does to items with other bodies what it does to these.
pub fn apply_is_blind<B, C>()
    ensures { ApplyIsBlind B C }
{}

/// A worked example: the limits of the depth for some numbers of items.
pub fn depth_limits()
    ensures { DepthLimits }
{}

/// An insertion without a rebuild leaves each item at its way, and the new item stands at the way of its gap.
pub fn insert_stays<T>()
    ensures { InsertStays T }
{}

/// Where each item comes from after two lists of operations is where the item that it comes from came from.
pub fn origins_compose<B>()
    ensures { OriginsCompose B }
{}

/// Without operations each item comes from its own rank.
pub fn origins_of_nothing<B>()
    ensures { OriginsOfNothing B }
{}

/// An item that comes from a rank has the body of the item of that rank.
pub fn origins_keep_bodies<B>()
    ensures { OriginsKeepBodies B }
{}

/// The items that stay after operations keep their order.
pub fn origins_rise<B>()
    ensures { OriginsRise B }
{}

/// Where each item comes from doesn't depend on the bodies.
pub fn origins_are_blind<B, C>()
    ensures { OriginsAreBlind B C }
{}

/// More items don't lower the limit of the depth.
pub fn limit_rises()
    ensures { LimitRises }
{}

/// The items of a column that keeps its limit stand within the limit of `most`, and gaps one step deeper at most.
pub fn depths_are_limited<B>()
    ensures { DepthsAreLimited B }
{}

/// So items stand within 62 steps and gaps within 63 where `most` is below 2^32, within 28 and 29 where it is at most
/// 98,304, and within 35 and 36 where it is at most 1,572,864.
pub fn depths_follow_size<B>()
    ensures { DepthsFollowSize B }
{}

/// A column that keeps its limit, with `most` at most 2^32, has ways of at most 63 steps.
pub fn ways_are_short<B>()
    ensures { WaysAreShort B }
{}

/// One row more at the place of its value, one row fewer, and a balanced tree leave the values of the items increasing.
pub fn operations_keep_order<B>()
    ensures { OperationsKeepOrder B }
{}

/// What a column keeps doesn't depend on the bodies.
pub fn kept_is_blind<B, C>()
    ensures { KeptIsBlind B C }
{}

/// What a mode adds to a column doesn't depend on the bodies.
pub fn suits_is_blind<B, C>()
    ensures { SuitsIsBlind B C }
{}
