//! Laws of the definitions. Each function is empty: its contract is the law.

ghost use Rattle.workload.specs.Laws.{AnswerFollowsMap, ChoiceFollowsMap, OrderFollowsMap, RemovalFollowsMap, SelectionFollowsMap};

/// A list that is mapped and put in an order that the map keeps is the list in order, mapped.
pub fn order_follows_map<A, B>()
    ensures { OrderFollowsMap A B }
{}

/// Of rows that are mapped, with what is compared kept, a verb is about those that it is about before.
pub fn choice_follows_map<A, B>()
    ensures { ChoiceFollowsMap A B }
{}

/// Of rows that are mapped, with what is compared kept, a statement is about those that it is about before.
pub fn selection_follows_map<A, B>()
    ensures { SelectionFollowsMap A B }
{}

/// About rows that are mapped, with what is given kept, the answer stays.
pub fn answer_follows_map<A, B>()
    ensures { AnswerFollowsMap A B }
{}

/// Rows are taken out by their numbers, before or after a map that keeps these.
pub fn removal_follows_map<A, B>()
    ensures { RemovalFollowsMap A B }
{}
