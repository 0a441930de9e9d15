//! Worked examples of the definitions. Each function is empty: its contract is the example, which the checker computes.
ghost use Rattle.versions.specs.Examples.{CommitAcrossInstall, DropLastDuplicate, RebuildOnDepth, TwoTables};

/// Five increasing values by five commits: with the fifth the tree is balanced, in both modes.
pub fn rebuild_on_depth()
    ensures { RebuildOnDepth }
{}

/// A value inserted three times and its rows deleted by one commit: the one code is dropped, in both modes.
pub fn drop_last_duplicate()
    ensures { DropLastDuplicate }
{}

/// An operation of a transaction that began before an install goes to its place in the balanced tree.
pub fn commit_across_install()
    ensures { CommitAcrossInstall }
{}

/// Operations on two tables by one commit: what is listed, what is stamped, and which table was written since.
pub fn two_tables()
    ensures { TwoTables }
{}
