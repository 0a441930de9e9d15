//! Turns under a schedule: worked examples and laws. Each function is empty: its contract is the example or the law.
ghost use Rattle.run_laws.specs.ScheduleExamples.{CommitAcrossInstall, EndedIsSkipped, FirstCommitWins, RebuildUnderWalk, StaleRebuild};
ghost use Rattle.run_laws.specs.ScheduleLaws.{EndedIsFinished, EndedStays, EntriesGoOn, PlainRunUnder, RunUnderStands, StepsFinish, StepsRunOut, TurnsUnderAreComplete, TurnsUnderGiveRun};

/// An entry of a session that has ended, or of none, counts for nothing.
pub fn ended_is_skipped()
    ensures { EndedIsSkipped }
{}

/// Of two inserts from one version the first commit wins.
pub fn first_commit_wins()
    ensures { FirstCommitWins }
{}

/// A tree is rebuilt while a walk of another session has come to one of its items.
pub fn rebuild_under_walk()
    ensures { RebuildUnderWalk }
{}

/// A transaction commits after an install that came between.
pub fn commit_across_install()
    ensures { CommitAcrossInstall }
{}

/// A rebuild whose table was written after its begin.
pub fn stale_rebuild()
    ensures { StaleRebuild }
{}

/// An entry more of a schedule is a step more.
pub fn entries_go_on()
    ensures { EntriesGoOn }
{}

/// The turns of a workload under a schedule are a complete list.
pub fn turns_under_are_complete()
    ensures { TurnsUnderAreComplete }
{}

/// The run of the turns under a schedule is the one that the schedule led to.
pub fn turns_under_give_run()
    ensures { TurnsUnderGiveRun }
{}

/// Its plain run is that of the turns.
pub fn plain_run_under()
    ensures { PlainRunUnder }
{}

/// The version that its turns lead to stands for its world.
pub fn run_under_stands()
    ensures { RunUnderStands }
{}

/// The entries of a session that has ended, or of none, change nothing.
pub fn ended_stays()
    ensures { EndedStays }
{}

/// A session that has ended has nothing to finish.
pub fn ended_is_finished()
    ensures { EndedIsFinished }
{}

/// A session finishes as it did before a step of its own.
pub fn steps_finish()
    ensures { StepsFinish }
{}

/// A session that hasn't ended comes nearer to its end by each step of its own.
pub fn steps_run_out()
    ensures { StepsRunOut }
{}
