//! What the definitions of runs and histories give on worked examples, computed by the checker.

ghost use Rattle.workload.specs.Examples.{FirstCommitWins, StaleRebuild, Rollback, TiesByRowNumber, LimitZero, CommitAcrossInstall, EmptyTable, ExtremeValues};

/// The ends and answers of small workloads: two inserts from one version, a rebuild that a commit came before, a
/// transaction that is rolled back, equal values in a downwards order, LIMIT 0, a commit across an install, an empty
/// table, and values at both ends of 64 bits.
pub fn worked_examples()
    ensures first_commit_wins { FirstCommitWins }
    ensures stale_rebuild { StaleRebuild }
    ensures rollback { Rollback }
    ensures ties_by_row_number { TiesByRowNumber }
    ensures limit_zero { LimitZero }
    ensures commit_across_install { CommitAcrossInstall }
    ensures empty_table { EmptyTable }
    ensures extreme_values { ExtremeValues }
{}
