//! Steps of a run under way: laws. Each function is empty: its contract is the law.
ghost use Rattle.run_laws.specs.SteppingLaws.{EndIsSeated, NoneIsSkipped, OthersHaveSaid, StartHasSaid, StepsAreShown, StepsUphold};

/// Each session makes its next step, an exchange or a turn, as its client and its connection show it, and what is upheld stays so; or
/// it is at its end, with all its transactions.
pub fn steps_uphold()
    ensures { StepsUphold }
{}

/// So it is by the request that its client wants and by what comes of it.
pub fn steps_are_shown()
    ensures { StepsAreShown }
{}

/// Where its client wants nothing more, a session is at its end.
pub fn end_is_seated()
    ensures { EndIsSeated }
{}

/// Before the first entry no session has said anything.
pub fn start_has_said()
    ensures { StartHasSaid }
{}

/// A session has said nothing more by the steps of others.
pub fn others_have_said()
    ensures { OthersHaveSaid }
{}

/// An entry of a number that is none of the sessions' changes nothing.
pub fn none_is_skipped()
    ensures { NoneIsSkipped }
{}
