//! What clerks may rely on who share a docket: in every legal history, as the programs make them, and after each step of any
//! clerks, in whatever order they take their steps.

ghost use Rattle.shared_docket.specs.Always.{ClerksShareOneDocket, DeadlinesAreShown, FinishedStandOnce, HearingsHaveNotice, LegalIsOneDocket, NoneIsDoubleBooked};

use docket_laws::{
    deadlines_are_shown_by_the_days_as_docketed, every_hearing_has_its_notice,
    no_judge_or_room_is_booked_twice,
};

/// The clerks share one docket: whatever was finished in between, each command is answered as by one clerk who is given
/// the finished commands in their order, and each part holds what that clerk's docket then says.
pub fn clerks_share_one_docket()
    ensures { ClerksShareOneDocket }
{}

/// A legal history is one docket, so the journal of an office is too: each command is answered as by one clerk who is given
/// the commands in their order, and each part holds what that clerk's docket then says.
pub fn a_legal_history_is_one_docket()
    ensures { LegalIsOneDocket }
{}

/// No judge and no room is double-booked: no two hearings that have a judge or the room in common take the same slot of a
/// day, also where two clerks book at once.
pub fn no_judge_or_room_is_double_booked()
    ensures { NoneIsDoubleBooked }
{
    no_judge_or_room_is_booked_twice();
}

/// Every motion that is set for a hearing was served in time, and so was the notice of the hearing, by the days as they are
/// docketed then (Fed. R. Civ. P. 6(c)(1)), also where one clerk enters a holiday while another sets a hearing.
pub fn every_hearing_is_noticed()
    ensures { HearingsHaveNotice }
{
    every_hearing_has_its_notice();
}

/// Each deadline that a clerk is shown is the one that the rules define from the days as they are docketed then, with the
/// holidays and outages that any clerk has entered.
pub fn every_deadline_is_that_of_the_rules()
    ensures { DeadlinesAreShown }
{
    deadlines_are_shown_by_the_days_as_docketed();
}

/// Each finished command is one entry: a clerk who is answered a place and an answer finds this command at that place
/// of the history, with that answer. No two are answered one place. What nobody was answered as finished is not in the
/// history.
pub fn each_finished_command_stands_once()
    ensures { FinishedStandOnce }
{}
