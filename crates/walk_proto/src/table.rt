//! The fourteen kinds of messages.
ghost use Rattle.std.specs.Prelude.{◌≡◌, IsTrue, IfOk, IfSome};
ghost use Rattle.case_tables.specs.Tables.{cut, is_row, row_of};
ghost use Rattle.walk_proto.specs.Faults.{HasFields};
ghost use Rattle.walk_proto.specs.Kinds.{all_kinds};

use case_tables::{Cut, Kind, cut_within};

macro_rules! row {
    ($number:literal, $head:literal, $count:literal, $unit:literal) => {
        Some(Kind {
            number: $number,
            head: $head,
            count: $count,
            unit: $unit,
        })
    };
}

/// The row with this number.
#[tactic(auto, unfolding(crate::specs::Kinds::all_kinds, crate::specs::Kinds::request_kinds, crate::specs::Kinds::reply_kinds))]
fn row_of(number: u8) -> Option<Kind>
    ensures found { result ≡ row_of number all_kinds }
    ensures row { IfSome result (λ kind. IsTrue (is_row kind)) }
{
    match number {
        1 => row!(1, 1, 0, 0),
        2 => row!(2, 3, 0, 0),
        3 => row!(3, 2, 0, 0),
        4 => row!(4, 1, 0, 0),
        5 => row!(5, 3, 1, 16),
        6 => row!(6, 25, 1, 2),
        7 => row!(7, 2, 0, 0),
        8 => row!(8, 3, 0, 0),
        9 => row!(9, 17, 0, 0),
        10 => row!(10, 1, 0, 0),
        11 => row!(11, 6, 4, 16),
        12 => row!(12, 9, 0, 0),
        13 => row!(13, 11, 0, 0),
        14 => row!(14, 6, 0, 0),
        _ => None,
    }
}

/// Where the bytes stop being a message of either direction. Only the row of their first byte is made,
/// not the table.
pub(crate) fn first_cut(bytes: &[u8]) -> Result<Kind, Cut>
    ensures first_fault { result ≡ cut all_kinds bytes.now }
    ensures fields { IfOk result (λ _. HasFields bytes.now) }
{
    let [first, ..] = bytes else {
        return Err(Cut::Short(0));
    };
    match row_of(*first) {
        None => Err(Cut::Kind(0)),
        Some(kind) => cut_within(&kind, bytes),
    }
}
