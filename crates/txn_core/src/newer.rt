//! Which tables were changed after a version.
ghost use Rattle.std.specs.Prelude.{◌≡◌, ◌&&◌, ltb};
ghost use Rattle.txn_core.specs.Outcomes.{conflict_on};
ghost use Rattle.versions.specs.Databases.{IsDatabase, stamps_at};
ghost use Rattle.versions.specs.Newer.{names};

use mope_base::TableNo;
use versions::{Stamps, Version};

fn is_named(touched: &[TableNo], table: TableNo) -> bool
    ensures named { result ≡ names touched.now table.0 }
{
    'touched: for named in touched {
        if named.0 == table.0 {
            return true;
        }
    }
    false
}

/// Whether it was touched, and written after the base.
fn clashes(touched: &[TableNo], table: TableNo, base: u64, written: u64) -> bool
    ensures clashes { result ≡ (names touched.now table.0 && ltb base written) }
{
    is_named(touched, table) && base < written
}

/// When a table was last changed; never, where there is no such table.
pub(crate) fn stamps_of(version: &Version, table: TableNo) -> Stamps
    ensures stamps { result ≡ stamps_at version.now.stamps table.0 }
    ensures database { IsDatabase version.now }
{
    match version.table(table) {
        Some(found) => found.stamps(),
        None => Stamps {
            written: 0,
            laid: 0,
        },
    }
}

/// The lowest of the touched tables that was written after the base, and the version that wrote it last.
pub(crate) fn first_conflict(
    current: &Version,
    base: u64,
    touched: &[TableNo],
) -> Option<(TableNo, u64)>
    ensures conflict { result ≡ conflict_on current.now base touched.now }
    ensures database { IsDatabase current.now }
{
    let tables = current.tables();
    'tables: for number in 0..tables {
        let table = TableNo(number as u8);
        let written = stamps_of(current, table).written;
        if clashes(touched, table, base, written) {
            return Some((table, written));
        }
    }
    None
}
