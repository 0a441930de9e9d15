//! The bounds of tests.
ghost use Rattle.sql_plan.specs.Bounds.{bound_of, test_by};
ghost use Rattle.std.specs.Prelude.{◌≡◌, ◌≢◌, ◌≤◌};

use crate::bounds::Bound;
use mope_base::ColNo;

/// The bound of a test of a column: `op` is 0 for `=`, 1 for `<`, 2 for `<=`, 3 for `>`, 4 for `>=` and 5 for BETWEEN, and the
/// constants' places have the codes `first` and `second`. A code is at least 1, and `second` is `first` unless `op` is 5.
pub fn bound(column: ColNo, op: u8, first: u64, second: u64) -> Bound
    requires known { op ≤ 5 }
    requires is_code { 1 ≤ first }
    requires are_codes { 1 ≤ second }
    requires one { op ≢ 5 → second ≡ first }
    ensures { result ≡ bound_of column (test_by op first second) }
{
    let (lo, hi) = match op {
        0 => (first, first),
        1 => (0, first - 1),
        2 => (0, first),
        3 if first == u64::MAX => (1, 0),
        3 => (first + 1, u64::MAX),
        4 => (first, u64::MAX),
        _ => (first, second),
    };
    Bound { column, lo, hi }
}
