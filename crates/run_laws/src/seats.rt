//! Sessions with their clients and connections: laws. Each function is empty: its contract is the law.
ghost use Rattle.run_laws.specs.SeatLaws.{OthersStay, StartIsUpheld};

/// Before the first entry of a schedule each session is ready to begin.
pub fn start_is_upheld()
    ensures { StartIsUpheld }
{}

/// Where a session rests stays when another one takes a turn.
pub fn others_stay()
    ensures { OthersStay }
{}
