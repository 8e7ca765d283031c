//! Refusals that name a case.
ghost use Rattle.std.specs.Prelude.{◌++◌, OnOk, codes};
ghost use Rattle.office_texts.specs.Words.{AddsText};
ghost use Rattle.office_texts.specs.Named.Named.{motion_called, named_detail, named_motion, named_refusal};

use crate::push_number;
use case_numbers::{Cases, push_case_text};
use docket_rows::Refusal;
use std::alloc::AllocError;
use std::fmt::Write;

/// Adds what a motion is called by its case and its number: nothing where none is given. `Err` says that memory ran out.
pub fn push_motion_called(
    text: &mut String,
    cases: &Cases,
    at: Option<(u32, u32)>,
) -> Result<(), AllocError>
    ensures { OnOk result (AddsText text.old text.new (motion_called cases.now.named at)) }
{
    match at {
        Some((case, number)) => {
            text.push_str("case ")?;
            push_case_text(text, cases, case)?;
            write!(text, " motion {number}")
        }
        None => Ok(()),
    }
}

// Adds a refusal, after its word.
#[tactic(auto, unfolding(crate::specs::Named::Named::named_refusal))]
pub(crate) fn push_refused(
    text: &mut String,
    cases: &Cases,
    refusal: &Refusal,
) -> Result<(), AllocError>
    ensures { OnOk result (AddsText text.old text.new (codes "refused " ++ named_refusal cases.now.named refusal.now)) }
{
    text.push_str("refused ")?;
    push_number(text, u64::from(refusal.number()))?;
    text.push_str(" ")?;
    text.push_str(refusal.name())?;
    push_detail(text, cases, refusal)
}

// Adds the day or the motion that a refusal names.
fn push_detail(text: &mut String, cases: &Cases, refusal: &Refusal) -> Result<(), AllocError>
    ensures { OnOk result (AddsText text.old text.new (named_detail cases.now.named refusal.now)) }
{
    match refusal {
        Refusal::ShortNotice(latest) => write!(text, " {latest}"),
        Refusal::JudgeBusy(case, motion) => push_motion(text, cases, *case, *motion),
        Refusal::RoomBusy(case, motion) => push_motion(text, cases, *case, *motion),
        Refusal::HearingThatDay(case, motion) => push_motion(text, cases, *case, *motion),
        Refusal::NoticeLost(case, motion) => push_motion(text, cases, *case, *motion),
        Refusal::HearingAhead(case, motion) => push_motion(text, cases, *case, *motion),
        _ => Ok(()),
    }
}

// Adds a case and one of its motions.
fn push_motion(text: &mut String, cases: &Cases, case: u32, motion: u32) -> Result<(), AllocError>
    ensures { OnOk result (AddsText text.old text.new (named_motion cases.now.named case motion)) }
{
    text.push_str(" ")?;
    push_case_text(text, cases, case)?;
    text.push_str(" ")?;
    push_number(text, u64::from(motion))
}
