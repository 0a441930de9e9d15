//! Laws of tables by rank and by value: they are one, and nothing by rank looks at bodies. Each function is empty: its
//! contract is the law.
ghost use Rattle.table_model.specs.ShelfLaws.{EmptyShelf, MapsNothing, ShelvesAreBlind, SoundIsBlind, StoresMap, TablesCompose, ValuesAreRanks};

/// The table by rank of a sound table after INSERT, DELETE of one row or many and an install by value is the operation by
/// rank on its table by rank, in both modes.
pub fn values_are_ranks<B>()
    ensures { ValuesAreRanks B }
{}

/// A table without rows by value is one by rank.
pub fn empty_shelf<B>()
    ensures { EmptyShelf B }
{}

/// An operation by rank does to a table of other bodies what it does to these.
pub fn shelves_are_blind<B, C>()
    ensures { ShelvesAreBlind B C }
{}

/// An operation by value does to a table of other cells what it does to these where the others tell the values.
pub fn stores_map<B, C>()
    ensures { StoresMap B C }
{}

/// Two maps of bodies one after the other are their composition, on tables by rank and by value.
pub fn tables_compose<A, B, C>()
    ensures { TablesCompose A B C }
{}

/// A map that changes no body changes no table.
pub fn maps_nothing<B>()
    ensures { MapsNothing B }
{}

/// A table of mapped cells is sound where the table is for the values that the mapped cells tell.
pub fn sound_is_blind<B, C>()
    ensures { SoundIsBlind B C }
{}
