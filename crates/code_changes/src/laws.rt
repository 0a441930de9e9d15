//! Laws of codes under the operations on a column. Each function is empty: its contract is the law.
ghost use Rattle.code_changes.specs.Laws.{AfterGathers, CodesOfItems, DropLowersCount, FoundRaisesCount, GapAddsItem, ImagesAreApplied, KeepsLastOfThree, LayMovesCodes, NothingDiffers, OperationsFit, RebuildsFifth, Remapped, SparseKeepsLive};

/// A tree has as many codes as items, and they increase where ways have at most 63 steps.
pub fn codes_of_items<T>()
    ensures { CodesOfItems T }
{}

/// Where the ways before and after operations have at most 63 steps, the sum of the operations fits the codes before
/// them, and makes those after them from it.
pub fn operations_fit<B>()
    ensures { OperationsFit B }
{}

/// The pairs that differ between an increasing list and another make the second from the first.
pub fn remapped()
    ensures { Remapped }
{}

/// Two lists of one length of which no pair differs are one.
pub fn nothing_differs()
    ensures { NothingDiffers }
{}

/// The list after a change that fits increases, and has the added codes and the images and no others.
pub fn after_gathers()
    ensures { AfterGathers }
{}

/// The images are what becomes of the codes that aren't dropped.
pub fn images_are_applied()
    ensures { ImagesAreApplied }
{}

/// A new item at a gap: one code and one count more at the gap's rank, and the pairs of codes that differ.
pub fn gap_adds_item<B>()
    ensures { GapAddsItem B }
{}

/// One row more of an item leaves all codes, and raises its count.
pub fn found_raises_count<B>()
    ensures { FoundRaisesCount B }
{}

/// One row fewer, in ordinary mode and without a rebuild, leaves all codes, and lowers a count.
pub fn drop_lowers_count<B>()
    ensures { DropLowersCount B }
{}

/// One row fewer, in ordinary mode, where the live items become the whole tree: the codes of items without rows are
/// dropped, and the other items get new codes.
pub fn sparse_keeps_live<B>()
    ensures { SparseKeepsLive B }
{}

/// A column that is balanced whole keeps its counts, and its items get new codes.
pub fn lay_moves_codes<B>()
    ensures { LayMovesCodes B }
{}

/// A worked example: codes and changes where the fifth of five ascending values is too deep.
pub fn fifth_of_five()
    ensures { RebuildsFifth }
{}

/// A worked example: codes and changes where two of three items have lost their rows, in ordinary mode.
pub fn last_of_three()
    ensures { KeepsLastOfThree }
{}
