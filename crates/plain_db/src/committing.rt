//! The stamps that a commit looks at and changes.

ghost use Rattle.std.specs.Prelude.{◌≡◌, ◌≤◌, ◌&&◌, ltb, length, set};
ghost use Rattle.workload.specs.Run.{names};
ghost use Rattle.plain_db.specs.Running.{newer_in, written_by};

use crate::state::replace_at;
use mope_base::{Items, TableNo};
use std::alloc::Global;

/// Whether a table's number is among these.
fn is_named(tables: &[TableNo], i: usize) -> bool
    ensures { result ≡ names tables.now i }
{
    'tables: for k in 0..tables.len() {
        if tables[k].0 as usize == i {
            return true;
        }
    }
    false
}

/// Whether a touched table was written after the base.
fn is_newer(touched: &[TableNo], i: usize, base: u64, written: u64) -> bool
    ensures { result ≡ (names touched.now i && ltb base written) }
{
    is_named(touched, i) && base < written
}

/// The lowest of the touched tables that was written after the base, with the number of its last write.
pub(crate) fn newer_than(written: &[u64], base: u64, touched: &[TableNo]) -> Option<(TableNo, u64)>
    requires { length written.now ≤ 256 }
    ensures { result ≡ newer_in 0 written.now base touched.now }
{
    'stamps: for i in 0..written.len() {
        if is_newer(touched, i, base, written[i]) {
            return Some((TableNo(i as u8), written[i]));
        }
    }
    None
}

/// Gives the tables of the ops this number as that of their last write.
pub(crate) fn stamp(alloc: Global, written: &mut Items<u64>, ops: &[TableNo], number: u64)
    ensures { written.new ≡ written_by ops.now number written.old }
{
    'ops: for i in 0..ops.len() {
        let t = ops[i].0 as usize;
        stamp_one(alloc, written, t, number);
    }
}

fn stamp_one(alloc: Global, written: &mut Items<u64>, t: usize, number: u64)
    ensures { written.new ≡ set written.old t number }
{
    if t < written.as_slice().len() {
        replace_at(alloc, written, t, number);
    }
}
