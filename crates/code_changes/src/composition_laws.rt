//! Laws of changes in normal form and of their compositions. Each function is empty: its contract is the law.
ghost use Rattle.code_changes.specs.CompositionLaws.{BothAreNormal, BothAssociate, BothCompose, CodesFollow, FifthIsLaid, NormalIsTold, SumsAreNormal, SumsCompose, UnchangedIsNeutral};

/// The sum of operations is in normal form: each list increases, no dropped code is the old code of a pair, and each pair
/// has two codes.
pub fn sums_are_normal<B>()
    ensures { SumsAreNormal B }
{}

/// The code of an item that stays becomes its code after the operations, and the codes of the others are dropped.
pub fn codes_follow<B>()
    ensures { CodesFollow B }
{}

/// Two changes that fit a list in turn, as one change, fit it, make of it the list after both, and do to each of its codes
/// what both do.
pub fn both_compose()
    ensures { BothCompose }
{}

/// The composition of changes in normal form is in normal form.
pub fn both_are_normal()
    ensures { BothAreNormal }
{}

/// Two changes in normal form that do the same to a list which both fit are one.
pub fn normal_is_told()
    ensures { NormalIsTold }
{}

/// The composition of the sums of two lists of operations is the sum of both.
pub fn sums_compose<B>()
    ensures { SumsCompose B }
{}

/// Of three changes in turn it makes no difference which two are composed first.
pub fn both_associate()
    ensures { BothAssociate }
{}

/// The change that leaves all codes makes no difference, before another or after it.
pub fn unchanged_is_neutral()
    ensures { UnchangedIsNeutral }
{}

/// A worked example: the fifth of five ascending values is too deep, and then the column is balanced again.
pub fn fifth_is_laid()
    ensures { FifthIsLaid }
{}
