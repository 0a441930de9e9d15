//! Worked examples of the definitions. Each function is empty: its contract is the example, which the checker computes.
ghost use Rattle.table_model.specs.Examples.{DeleteSecond, DropLastDuplicate, FollowsItems, InstallBalances, RebuildOnDepth};

/// A value inserted three times is one item with three rows, which goes with its last row, in both modes.
pub fn drop_last_duplicate()
    ensures { DropLastDuplicate }
{}

/// Five increasing values: the fifth would be too deep, and the tree is balanced from its root on; each row keeps its rank.
pub fn rebuild_on_depth()
    ensures { RebuildOnDepth }
{}

/// One value three times and the second row deleted: the other rows keep the item, and a number without a row changes nothing.
pub fn delete_second()
    ensures { DeleteSecond }
{}

/// Rows follow their items where one comes in before them, where one goes, and where a sweep takes out all without rows.
pub fn rows_follow_items()
    ensures { FollowsItems }
{}

/// An install balances the tree of its column, and of no other.
pub fn install_balances()
    ensures { InstallBalances }
{}
