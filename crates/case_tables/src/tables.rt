//! A table whose rows can be told apart.
ghost use Rattle.case_tables.specs.Tables.{IsMessage, are_kinds, cut, cut_within, is_alone, is_row, is_taken, row_of, whole_length};
ghost use Rattle.std.specs.Prelude.{◌≡◌, ◌≤◌, IsTrue, IfOk, IfSome, SomeIff, OnOk, length};

use crate::rows::{Cut, Kind};
use std::marker::Model;

/// A table of kinds, each of which messages can have, and no two of which have one number.
#[derive(Debug, Drop)]
pub struct Kinds<const N: usize> {
    rows: [Kind; N],
}

impl<const N: usize> Model for Kinds<N> {
    ghost use Rattle.std.specs.Prelude.{List, IsTrue};
    ghost use Rattle.case_tables.specs.declared.rows.Kind.{Kind};
    ghost use Rattle.case_tables.specs.Tables.{are_kinds};

    ghost Value = { List Kind };

    ghost view = { λ table. table.rows };

    ghost invariant = { λ table. IsTrue (are_kinds table.rows) };
}

fn is_taken(number: u8, rows: &[Kind]) -> bool
    ensures { result ≡ is_taken number rows.now }
{
    rows.iter().any(|kind| kind.number == number)
}

fn row_of(number: u8, rows: &[Kind]) -> Option<Kind>
    ensures { result ≡ row_of number rows.now }
{
    rows.iter().copied().find(|kind| kind.number == number)
}

fn is_alone(kind: &Kind, others: &[Kind]) -> bool
    ensures { result ≡ is_alone kind.now others.now }
{
    kind.is_row() && !is_taken(kind.number, others)
}

#[tactic(auto, unfolding(crate::specs::Tables::are_kinds))]
fn are_kinds(rows: &[Kind]) -> bool
    ensures { result ≡ are_kinds rows.now }
{
    match rows {
        [] => true,
        [kind, rest @ ..] => is_alone(kind, rest) && are_kinds(rest),
    }
}

/// The table of these rows. None exactly where two rows have one number, a head is below 1 + count,
/// a count is not 0, 1 or 4, or exactly one of count and unit is 0.
pub fn check_kinds<const N: usize>(rows: [Kind; N]) -> Option<Kinds<N>>
    ensures { SomeIff result (IsTrue (are_kinds rows.entry)) rows.entry }
{
    if are_kinds(&rows) {
        Some(Kinds { rows })
    } else {
        None
    }
}

impl<const N: usize> Kinds<N> {
    /// The row with this number. None exactly where no row has it.
    #[tactic(auto, using(crate::proofs::FoundRows::found_row, crate::proofs::FoundRows::found_number))]
    pub fn kind_of(&self, byte: u8) -> Option<Kind>
        ensures found { result ≡ row_of byte self.now }
        ensures numbered { IfSome result (λ kind. kind.number ≡ byte) }
        ensures row { IfSome result (λ kind. IsTrue (is_row kind)) }
    {
        row_of(byte, &self.rows)
    }

    /// The kind of the message that the bytes are. Otherwise the first of these faults: no bytes, or a
    /// first byte that no row has, or fewer bytes than the head or the whole message, or more.
    #[tactic(auto, unfolding(crate::specs::Tables::cut, crate::specs::Tables::cut_by))]
    pub fn check(&self, bytes: &[u8]) -> Result<Kind, Cut>
        ensures first_fault { result ≡ cut self.now bytes.now }
        ensures message { IfOk result (λ kind. IsMessage self.now kind bytes.now) }
    {
        let [first, ..] = bytes else {
            return Err(Cut::Short(0));
        };
        match self.kind_of(*first) {
            None => Err(Cut::Kind(0)),
            Some(kind) => cut_within(&kind, bytes),
        }
    }
}

/// The kind, where the bytes are as many as a message of it has. Otherwise the first of these faults:
/// fewer bytes than the head or the whole message, or more. Their first byte is not looked at.
#[tactic(auto, unfolding(crate::specs::Tables::cut_within))]
pub fn cut_within(kind: &Kind, bytes: &[u8]) -> Result<Kind, Cut>
    requires row { IsTrue (is_row kind.now) }
    ensures first_fault { result ≡ cut_within kind.now bytes.now }
    ensures same { IfOk result (λ it. it ≡ kind.now) }
    ensures headed { OnOk result (kind.now.head ≤ length bytes.now) }
    ensures whole { OnOk result (length bytes.now ≡ whole_length kind.now bytes.now) }
{
    if bytes.len() < usize::from(kind.head) {
        return Err(Cut::Short(bytes.len()));
    }
    let whole = kind.whole_length(bytes);
    if bytes.len() < whole {
        return Err(Cut::Short(bytes.len()));
    }
    if bytes.len() > whole {
        return Err(Cut::Length(whole));
    }
    Ok(*kind)
}
