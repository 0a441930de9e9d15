//! Laws of tables by rank alone, whatever their bodies are. Each function is empty: its contract is the law.
ghost use Rattle.table_model.specs.RankLaws.{EmptyShelfIsSound, OperationsKeepShelf, OperationsLeaveRows, ColumnsFollow, SoundHasRanks, ShelfOfSound, StandingShelfIsSound, ShelvesStaySound, ShelfFitsRows, ShelfSoundIsBlind};

/// A table by rank without rows is sound.
pub fn empty_shelf_is_sound<B>()
    ensures { EmptyShelfIsSound B }
{}

/// INSERT at places of the columns under fewer rows than the limit, DELETE of one row or many and an install leave a sound
/// table by rank sound, in both modes: each row's rank stays an item's, and each item's count the number of rows with its rank.
pub fn operations_keep_shelf<B>()
    ensures { OperationsKeepShelf B }
{}

/// An operation leaves each row that isn't deleted its items: each stays, in both modes and through a sweep.
pub fn operations_leave_rows<B>()
    ensures { OperationsLeaveRows B }
{}

/// Column by column: a column after operations is the column under its own list of them, and a row's rank in it is the one
/// that `carried` tells.
pub fn columns_follow<B>()
    ensures { ColumnsFollow B }
{}

/// In a sound table by rank each row has the rank of an item in each column; so do the others where a row is taken out.
pub fn sound_has_ranks<B>()
    ensures { SoundHasRanks B }
{}

/// In a sound table by rank each row's rank is one of an item, and the limit of rows bounds items, counts and ways.
pub fn shelf_fits_rows<B>()
    ensures { ShelfFitsRows B }
{}

/// The table by rank of a sound table is sound.
pub fn shelf_of_sound<B>()
    ensures { ShelfOfSound B }
{}

/// A sound table by rank is sound with other bodies.
pub fn shelf_sound_is_blind<B, C>()
    ensures { ShelfSoundIsBlind B C }
{}

/// A table by rank that stands for a table by value is sound.
pub fn standing_shelf_is_sound<B, C>()
    ensures { StandingShelfIsSound B C }
{}

/// Several tables by rank without rows are sound; operations that fit, and installs, leave several sound ones sound.
pub fn shelves_stay_sound<B>()
    ensures { ShelvesStaySound B }
{}
