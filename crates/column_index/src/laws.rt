//! Laws of the index as a function of the rows. Each function is empty: its contract is the law.
ghost use Rattle.column_index.specs.Laws.{OrderKept, PutsCommute, SortedHolds, SortsOneFewer, SortsOneMore, SortsRecoded};

/// The order in which two entries are put makes no difference.
pub fn puts_commute()
    ensures { PutsCommute }
{}

/// One row more at the end is one entry put.
pub fn sorts_one_more()
    ensures { SortsOneMore }
{}

/// One row fewer is its entry taken out, where no other row has that entry.
pub fn sorts_one_fewer()
    ensures { SortsOneFewer }
{}

/// Where the codes of the rows become others in the same order, the index becomes that of the rows with those codes.
pub fn sorts_recoded()
    ensures { SortsRecoded }
{}

/// An index has the entries of its rows and no others.
pub fn sorted_holds()
    ensures { SortedHolds }
{}

/// What takes an increasing list to an increasing one keeps the order of any codes among the list.
pub fn order_kept()
    ensures { OrderKept }
{}
