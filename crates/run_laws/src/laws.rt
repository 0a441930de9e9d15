//! Laws of the run of the world. Each function is empty: its contract is the law.
ghost use Rattle.run_laws.specs.DecisionLaws.{ServerDecides};
ghost use Rattle.run_laws.specs.RunLaws.{HonestTurnsStand, NextIsHonest, PlainRunInside, RunIsHonest, RunsStand, TurnsAreHonest, TurnsStand};
ghost use Rattle.run_laws.specs.TurnLaws.{CommitStands, FirstStands, InstallStands};

/// The first version stands for the first world.
pub fn first_stands()
    ensures { FirstStands }
{}

/// A commit takes a version that stands to one that stands and changes as the world does, also where the transaction's tables were
/// balanced since it began.
pub fn commit_stands()
    ensures { CommitStands }
{}

/// So does an install.
pub fn install_stands()
    ensures { InstallStands }
{}

/// The plain run is inside that of the world.
pub fn plain_run_inside()
    ensures { PlainRunInside }
{}

/// After any turns of any valid workload, the version that the turns lead to stands for the world, and they tell its sums.
pub fn turns_stand()
    ensures { TurnsStand }
{}

/// So it is at the end of the run.
pub fn run_stands()
    ensures { RunsStand }
{}

/// The server decides by stamps and ranks what the world decides.
pub fn server_decides()
    ensures { ServerDecides }
{}

/// Honest turns lead to a version that stands for the world after them.
pub fn honest_turns_stand()
    ensures { HonestTurnsStand }
{}

/// Honest turns and what a session does next are honest.
pub fn next_is_honest()
    ensures { NextIsHonest }
{}

/// The turns of a run are honest, and lead to it again.
pub fn turns_are_honest()
    ensures { TurnsAreHonest }
{}

/// So are those at its end.
pub fn run_is_honest()
    ensures { RunIsHonest }
{}
