//! Refusals.

ghost use Rattle.std.specs.Prelude.{OnOk};
ghost use Rattle.office_texts.specs.Added.{AddsText};
ghost use Rattle.office_texts.specs.Refusals.{motion_named, refusal_detail, refusal_text};

use crate::numbers::push_number;
use docket_rows::Refusal;
use std::alloc::AllocError;
use std::fmt::Write;

/// Adds the number and the name of a refusal, and the day or the motion that it names.
#[tactic(auto, unfolding(crate::specs::Refusals::refusal_text))]
pub(crate) fn push_refusal(text: &mut String, refusal: &Refusal) -> Result<(), AllocError>
    ensures { OnOk result (AddsText text.old text.new (refusal_text refusal.now)) }
{
    push_number(text, u64::from(refusal.number()))?;
    text.push_str(" ")?;
    text.push_str(refusal.name())?;
    push_detail(text, refusal)
}

/// Adds the day or the motion that the refusal names.
fn push_detail(text: &mut String, refusal: &Refusal) -> Result<(), AllocError>
    ensures { OnOk result (AddsText text.old text.new (refusal_detail refusal.now)) }
{
    match refusal {
        Refusal::ShortNotice(latest) => write!(text, " {latest}"),
        Refusal::JudgeBusy(case, motion) => push_motion(text, *case, *motion),
        Refusal::RoomBusy(case, motion) => push_motion(text, *case, *motion),
        Refusal::HearingThatDay(case, motion) => push_motion(text, *case, *motion),
        Refusal::NoticeLost(case, motion) => push_motion(text, *case, *motion),
        Refusal::HearingAhead(case, motion) => push_motion(text, *case, *motion),
        _ => Ok(()),
    }
}

/// Adds a case and one of its motions.
fn push_motion(text: &mut String, case: u32, motion: u32) -> Result<(), AllocError>
    ensures { OnOk result (AddsText text.old text.new (motion_named case motion)) }
{
    text.push_str(" ")?;
    push_number(text, u64::from(case))?;
    text.push_str(" ")?;
    push_number(text, u64::from(motion))
}
