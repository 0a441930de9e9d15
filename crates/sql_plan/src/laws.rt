//! Laws of plans: an answer by codes is the answer by values. Each function is empty: its contract is the law.
ghost use Rattle.sql_plan.specs.Laws.{BoundHolds, BoundsSelect, CodesSelectRows, PlansAnswerByValue, StandingReads};

/// The bound of a test holds the codes that meet the test, and no others.
pub fn bound_holds()
    ensures { BoundHolds }
{}

/// The rows within the bounds of some conditions on codes are those that meet the conditions.
pub fn bounds_select()
    ensures { BoundsSelect }
{}

/// A statement is about the same rows by codes, each constant being the code of its place, as by values, for each verb and
/// for whatever tells what bodies read as, if it fits the order of the items.
pub fn codes_select_rows()
    ensures { CodesSelectRows }
{}

/// With bounds made from the codes of the constants' places, the rows, the number and the row of an extreme are those of the
/// selection by values.
pub fn plans_answer_by_value()
    ensures { PlansAnswerByValue }
{}

/// A table that stands for one by value reads as it does.
pub fn standing_reads<C>()
    ensures { StandingReads C }
{}
