//! Laws of the words. Each function is empty: its contract is the law.
ghost use Rattle.command_words.specs.Orders.{WordsHaveOneOrder};

/// Words have one order at most.
pub fn words_have_one_order()
    ensures { WordsHaveOneOrder }
{}
