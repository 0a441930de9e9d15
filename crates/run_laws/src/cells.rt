//! What bodies the server sees in a run. Each function is empty: its contract is the law.
ghost use Rattle.run_laws.specs.CellLaws.{RunSealsCells, TurnsSealCells};

/// After any turns of any valid workload, each session sent the seals of numbers of its INSERTs, under its nonces in order; every body
/// that the server saw is one of these; two cells have different nonces, all from the first one on, and below the next free one.
pub fn turns_seal_cells()
    ensures { TurnsSealCells }
{}

/// So it is at the end of the run.
pub fn run_seals_cells()
    ensures { RunSealsCells }
{}
