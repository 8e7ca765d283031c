//! What holds of every docket, whatever commands it was given and whatever of them it refused.

ghost use Rattle.docket_laws.specs.Lawful.{EveryHearingHasItsNotice, EveryHearingLiesOnACourtDayWithinOfficeHours, NoJudgeOrRoomIsBookedTwice, RowsStayLawful, RowsStaySound};

/// No judge sits in two hearings at one time, and no room holds two: after any commands, no two hearings of the docket
/// that have a judge or the room in common take the same slot of a day.
pub fn no_judge_or_room_is_booked_twice()
    ensures { NoJudgeOrRoomIsBookedTwice }
{}

/// Each hearing of a docket is that of a docketed motion. Unless the motion is heard ex parte, there is a last day to serve
/// it as long before the hearing as the motion needs, and both the motion and the notice of its hearing were served by
/// then (Fed. R. Civ. P. 6(c)(1)). That is so by the days as they are docketed now, with the holidays that were entered
/// after the hearing was set.
pub fn every_hearing_has_its_notice()
    ensures { EveryHearingHasItsNotice }
{}

/// Each hearing of a docket lies on a covered day that is no Saturday, Sunday or legal holiday, also of those entered
/// later, and within the hours of the clerk's office. An outage may come to lie on its day after it was set.
pub fn every_hearing_lies_on_a_court_day_within_office_hours()
    ensures { EveryHearingLiesOnACourtDayWithinOfficeHours }
{}

/// The rows of a docket fit together, and no step undoes that: each case is there once, deadlines and motions are those of
/// open cases and numbered from 1, each hearing is that of a motion, before judges and in a room of the court.
pub fn rows_stay_sound()
    ensures { RowsStaySound }
{}

/// The rows of a docket are lawful, and no step undoes that: no two hearings clash, each lies on a day on which the court
/// hears motions, within office hours, and has its notice.
pub fn rows_stay_lawful()
    ensures { RowsStayLawful }
{}
