//! Laws of the turns that a schedule gives. Each function is empty: its contract is the law.
ghost use Rattle.mope_top.specs.RoundLaws.{RoundTurnsAreOneList, ScheduleGivesOneList};

/// The turns of rounds are one list.
pub fn round_turns_are_one_list()
    ensures { RoundTurnsAreOneList }
{}

/// The turns that a schedule gives are one list.
pub fn schedule_gives_one_list()
    ensures { ScheduleGivesOneList }
{}
