//! Laws of sound tables, and of tables that differ by balancing alone. Each function is empty: its contract is the law.
ghost use Rattle.table_model.specs.StoreLaws.{DeleteTakesRows, EmptyIsSound, SameIsEquivalence, OperationsKeepSound, RowsOwnItems, SameBehaves, SoundFitsRows};

/// A table without rows is sound.
pub fn empty_is_sound<B>()
    ensures { EmptyIsSound B }
{}

/// INSERT under fewer rows than the limit, DELETE of one row or many and an install leave a sound table sound.
pub fn operations_keep_sound<B>()
    ensures { OperationsKeepSound B }
{}

/// After a DELETE a sound table has the rows of the other numbers in their order, and the next number is as it was.
pub fn delete_takes_rows<B>()
    ensures { DeleteTakesRows B }
{}

/// A column of a sound table has at most half as many items again as the limit has rows: 98,304 for 65,536 rows, and
/// 1,572,864 for 1,048,576. Its ways have at most 29 steps, or 36, and for up to 2^31 rows at most 63.
pub fn sound_fits_rows<B>()
    ensures { SoundFitsRows B }
{}

/// Each row of a sound table has an item in each column, which reads as the row's cell and stands at the rank of its value.
pub fn rows_own_items<B>()
    ensures { RowsOwnItems B }
{}

/// On two sound tables that differ by the balance of their trees alone values have the same places and ranks, and each
/// operation leaves two such tables.
pub fn same_behaves<B>()
    ensures { SameBehaves B }
{}

/// An install leaves the same table but for balance, and to be the same but for balance is an equivalence.
pub fn same_is_equivalence<B>()
    ensures { SameIsEquivalence B }
{}
