//! Laws of codes. Each function is empty: its contract is the law.
ghost use Rattle.path_code.specs.Laws.{CodesCompare, CodesOfFive, CodesRise, CodesSelect, CodesTellPaths, GapsLieBetween, TreeCodesCompare, TreeCodesSelect, WaysTellPlaces};

/// In every tree whose ways have at most 63 steps the codes of the places, gaps and items, rise from left to right.
pub fn codes_rise<T>()
    ensures { CodesRise T }
{}

/// The code of an item lies strictly between the codes of the gaps before and after it.
pub fn gaps_lie_between<T>()
    ensures { GapsLieBetween T }
{}

/// In the balanced tree of items whose values increase, the code of an item is below, equal to or above the code of a
/// bound's place exactly as its value is below, equal to or above the bound.
pub fn codes_compare<T>()
    ensures { CodesCompare T }
{}

/// In the balanced tree of items whose values increase, the values within two bounds are those whose codes lie within
/// the codes of the bounds' places.
pub fn codes_select<T>()
    ensures { CodesSelect T }
{}

/// In every tree whose ways have at most 63 steps, of items whose values increase, the code of an item is below, equal to or
/// above the code of a bound's place exactly as its value is below, equal to or above the bound.
pub fn tree_codes_compare<T>()
    ensures { TreeCodesCompare T }
{}

/// In such a tree each of `<`, `<=`, `=`, `>=`, `>` and BETWEEN selects by codes what it selects by values.
pub fn tree_codes_select<T>()
    ensures { TreeCodesSelect T }
{}

/// Two places of a tree to which one way leads are one.
pub fn ways_tell_places<T>()
    ensures { WaysTellPlaces T }
{}

/// No two paths have one code, so `path_of` gives back the path whose code it reads.
pub fn codes_tell_paths()
    ensures { CodesTellPaths }
{}

/// A worked example: the codes of the five items of a balanced tree.
pub fn codes_of_five()
    ensures { CodesOfFive }
{}
