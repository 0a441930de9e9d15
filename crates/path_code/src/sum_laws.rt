//! Laws of what operations do to codes. Each function is empty: its contract is the law.
ghost use Rattle.path_code.specs.SumLaws.{DropLastDuplicate, InsertMovesNothing, OneShift, RebuildOnDepth, SumComposes, SumIsBlind, SumsIncrease};

/// An insertion without a rebuild moves no code, gives up none, and adds the code of its gap.
pub fn insert_moves_nothing<B>()
    ensures { InsertMovesNothing B }
{}

/// The sum of two lists of operations is the composition of their sums.
pub fn sum_composes<B>()
    ensures { SumComposes B }
{}

/// A worked example: the codes that move where the fifth of five ascending values is too deep.
pub fn rebuild_on_depth()
    ensures { RebuildOnDepth }
{}

/// A worked example: the codes that move where the root of three ascending values goes in same-time mode.
pub fn one_shift()
    ensures { OneShift }
{}

/// A worked example: three rows of one value, all deleted, in both modes.
pub fn drop_last_duplicate()
    ensures { DropLastDuplicate }
{}

/// Where the ways have at most 63 steps, each list of codes of a sum increases.
pub fn sums_increase<B>()
    ensures { SumsIncrease B }
{}

/// A sum doesn't depend on the bodies.
pub fn sum_is_blind<B, C>()
    ensures { SumIsBlind B C }
{}
