//! Laws of rows under the operations on a column: which item a row has after them. Each function is empty: its contract is
//! the law.
ghost use Rattle.tree_model.specs.RowLaws.{CarriedAppends, CarriedComposes, CarriedKeepsOrder, CarriedOfNothing, CarriedTellsRank, NewRowsStand, RankAfterOperation, RankAfterOperations, RanksAreBlind, RanksOfSwept, RanksOfThree, RowsKeepItem, ValuesFollow};

/// An item that stays after operations stands at the rank that `carried` tells, and nowhere else.
pub fn carried_tells_rank<B>()
    ensures { CarriedTellsRank B }
{}

/// Two items that stay keep their order.
pub fn carried_keeps_order<B>()
    ensures { CarriedKeepsOrder B }
{}

/// Where origins are composed an item stays as it does under both, and its rank goes through both.
pub fn carried_composes()
    ensures { CarriedComposes }
{}

/// After two lists of operations an item stays as it does under both, and its rank goes through both.
pub fn carried_appends<B>()
    ensures { CarriedAppends B }
{}

/// Without operations each item stays at its rank.
pub fn carried_of_nothing<B>()
    ensures { CarriedOfNothing B }
{}

/// Which items stay after an operation, and at which rank, by the cases of the operation: one row more and a balanced tree
/// take none out, and only a new item moves those from its rank on; one row fewer takes out the item that is gone, and in
/// a sweep all without rows.
pub fn rank_after_operation<B>()
    ensures { RankAfterOperation B }
{}

/// The same for a list of operations, one after the other.
pub fn rank_after_operations<B>()
    ensures { RankAfterOperations B }
{}

/// One row fewer, in each mode and swept or not, leaves each item that some row still has.
pub fn rows_keep_item<B>()
    ensures { RowsKeepItem B }
{}

/// Which items stay and at which ranks doesn't depend on the bodies.
pub fn ranks_are_blind<B, C>()
    ensures { RanksAreBlind B C }
{}

/// The value of an item that stays is found, among the increasing values after the operations, at the rank that `carried`
/// tells.
pub fn values_follow<B>()
    ensures { ValuesFollow B }
{}

/// A row that came in at the place of its value has the item with this value, found at the rank that `rank_at` tells.
pub fn new_rows_stand<B>()
    ensures { NewRowsStand B }
{}

/// A worked example: the ranks of three items after a new one, and after one that goes in same-time mode.
pub fn ranks_of_three()
    ensures { RanksOfThree }
{}

/// A worked example: in ordinary mode two of three items lose their rows, and the third becomes the first.
pub fn ranks_of_swept()
    ensures { RanksOfSwept }
{}
