//! Laws of the definitions of runs. Each function is empty: its contract is the law.

ghost use Rattle.plain_db.specs.Laws.{CompleteIsExact, ExactIsComplete, HistoryIsSerial, TurnsGiveRun, TurnsTakenAreComplete};

/// The history of every run is one that a single thread could have made.
pub fn history_is_serial()
    ensures { HistoryIsSerial }
{}

/// The turns that a run takes, taken again, give the same run.
pub fn turns_give_run()
    ensures { TurnsGiveRun }
{}

/// The turns that a run takes are a complete list.
pub fn turns_taken_are_complete()
    ensures { TurnsTakenAreComplete }
{}

/// A complete list of turns skips none and leaves none to finish.
pub fn complete_is_exact()
    ensures { CompleteIsExact }
{}

/// A list of turns that skips none and leaves none to finish is complete.
pub fn exact_is_complete()
    ensures { ExactIsComplete }
{}
