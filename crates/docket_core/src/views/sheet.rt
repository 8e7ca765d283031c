//! The sheet of a case.

ghost use Rattle.std.specs.Prelude.{◌≡◌, ◌<◌, ◌≤◌, length, map, option_map, IfOk, IfSome};
ghost use Rattle.docket_rows.specs.Words.{numbered_deadlines, numbered_motions, most_deadlines, most_motions, state_of, sheet_of, sheet_deadline, sheet_hearing, sheet_motion};

use court_clock::Clock;
use court_days::Days;
use docket_decisions::{DocketRules, Sight, is_beyond, shown_now};
use docket_rows::{
    CaseRecord, Fact, Hearing, MotionRecord, Sheet, SheetDeadline, SheetDeadlines, SheetHearing,
    SheetMotion, SheetMotions, State, assigned_in, closing_in, ending_in, ruling_in,
};
use rule_periods::{DocketRow, affidavit_day};
use rule6::{Filing, Shown, is_timely};
use std::alloc::{AllocError, Global};

/// Whether a deadline was met, by when its time ends.
fn state_of(clock: &Clock, shown: &Shown, filed: Option<Filing>) -> State
    requires { IfSome filed (λ f. f.minute < 1440) }
    ensures { result ≡ state_of clock.now shown.now filed }
{
    let Some(filing) = filed else {
        return State::Pending;
    };
    if is_beyond(*shown) {
        return State::Undecided;
    }
    if is_timely(clock, shown, filing) {
        State::Timely
    } else {
        State::Late
    }
}

/// The deadline of that number, as its sheet shows it, where these facts are recorded of its case.
fn sheet_deadline<S: Sight>(
    alloc: Global,
    rules: &DocketRules,
    sight: &S,
    facts: &[Fact],
    number: u32,
    row: &DocketRow,
) -> Result<SheetDeadline, AllocError>
    ensures { IfOk result (λ d. d ≡ sheet_deadline rules.now (S.parts sight.now) facts.now (record { number = number; row = row.now })) }
{
    let row = row.row();
    let shown = shown_now(rules, sight, row);
    let state = state_of(rules.clock(), &shown, row.filed());
    let acted = row.filed().is_some();
    Ok(SheetDeadline {
        number,
        row: row.copy(alloc)?,
        shown,
        state,
        ended: ending_in(facts, number, acted),
    })
}

/// The deadlines of a case, numbered from 1.
fn sheet_deadlines<S: Sight>(
    alloc: Global,
    rules: &DocketRules,
    sight: &S,
    facts: &[Fact],
    rows: &[DocketRow],
) -> Result<Vec<SheetDeadline>, AllocError>
    requires { length rows.now ≤ most_deadlines }
    ensures { IfOk result (λ list. list.items ≡ map (sheet_deadline rules.now (S.parts sight.now) facts.now) (numbered_deadlines 1 rows.now)) }
{
    let mut list = Vec::new(alloc);
    for row in rows {
        let number = list.len() as u32 + 1;
        let deadline = sheet_deadline(alloc, rules, sight, facts, number, row)?;
        list.push(deadline)?;
    }
    Ok(list)
}

/// The hearing of a motion, with the last day for an opposing affidavit.
fn sheet_hearing(days: &Days, hearing: Option<Hearing>) -> Option<SheetHearing>
    ensures { result ≡ option_map (sheet_hearing days.now) hearing }
{
    match hearing {
        Some(hearing) => Some(SheetHearing {
            hearing,
            affidavits: affidavit_day(days, hearing.day),
        }),
        None => None,
    }
}

/// The motions of a case of which these facts are recorded, numbered from 1.
fn sheet_motions(
    alloc: Global,
    days: &Days,
    facts: &[Fact],
    motions: &[MotionRecord],
) -> Result<Vec<SheetMotion>, AllocError>
    requires { length motions.now ≤ most_motions }
    ensures { IfOk result (λ list. list.items ≡ map (sheet_motion days.now facts.now) (numbered_motions 1 motions.now)) }
{
    let mut list = Vec::new(alloc);
    for motion in motions {
        let number = list.len() as u32 + 1;
        let hearing = sheet_hearing(days, motion.hearing);
        let ruling = ruling_in(facts, number);
        list.push(SheetMotion {
            number,
            served: motion.served,
            need: motion.need,
            hearing,
            ruling,
        })?;
    }
    Ok(list)
}

/// The sheet of a case with that number. `Err` says that memory ran out.
pub(crate) fn sheet_of<S: Sight>(
    alloc: Global,
    rules: &DocketRules,
    sight: &S,
    number: u32,
    case: &CaseRecord,
) -> Result<Sheet, AllocError>
    ensures { IfOk result (λ sheet. sheet ≡ sheet_of rules.now (S.parts sight.now) number case.now) }
{
    let deadlines = sheet_deadlines(alloc, rules, sight, case.facts(), case.deadlines())?;
    let motions = sheet_motions(alloc, sight.days(), case.facts(), case.motions())?;
    Ok(Sheet {
        case: number,
        filed: case.filed(),
        closed: closing_in(case.facts()),
        assigned: assigned_in(case.facts()),
        deadlines: SheetDeadlines::from_vec(deadlines),
        motions: SheetMotions::from_vec(motions),
    })
}
