//! The runs of small workloads, computed by the checker for every key. Each function is empty: its contract is the example.
ghost use Rattle.std.specs.Prelude.{ℕ, Bool, List};
ghost use Rattle.run_laws.specs.Examples.{CommitAcrossInstall, DropLastDuplicate, FirstCommitWins, RebuildOnDepth, RebuildUnderAWalk, Rollback, StaleRebuild, TwinForgets};

/// Five increasing values by five commits: with the fifth the tree is balanced.
pub fn rebuild_on_depth()
    ensures { (key : List ℕ) (same_time : Bool) → RebuildOnDepth key same_time }
{}

/// A value inserted three times, and its rows deleted by one commit.
pub fn drop_last_duplicate()
    ensures { (key : List ℕ) (same_time : Bool) → DropLastDuplicate key same_time }
{}

/// Of two inserts from one version the first commit wins: all that the server sees.
pub fn first_commit_wins()
    ensures { (key : List ℕ) → FirstCommitWins key }
{}

/// While a transaction walks, another session puts a row in and rebuilds the tree.
pub fn rebuild_under_a_walk()
    ensures { (key : List ℕ) → RebuildUnderAWalk key }
{}

/// A commit after an install that came after its begin.
pub fn commit_across_install()
    ensures { (key : List ℕ) → CommitAcrossInstall key }
{}

/// An install after a commit that came after its begin.
pub fn stale_rebuild()
    ensures { (key : List ℕ) → StaleRebuild key }
{}

/// A transaction that is rolled back: all that the server sees.
pub fn rollback()
    ensures { (key : List ℕ) → Rollback key }
{}

/// In same-time mode a deleted value is forgotten, in ordinary mode its item is still there.
pub fn twin_forgets()
    ensures { (key : List ℕ) → TwinForgets key }
{}
