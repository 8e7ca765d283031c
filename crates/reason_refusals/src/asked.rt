//! What a refused command asked for, and what its refusal is about.

ghost use Rattle.std.specs.Prelude.{◌≡◌};
ghost use Rattle.reason_refusals.specs.Asked.{deadline_asked, motion_of_refusal, motion_of_setting, request_asked, setting_asked};

use docket_rows::{Command, Counted, Refusal, Setting, Subject};
use rule_periods::Request;

/// The case and the number of the deadline that a command is about.
pub fn deadline_asked(command: &Command) -> Option<(u32, u32)>
    ensures { result ≡ deadline_asked command.now }
{
    match command.subject() {
        Some(
            Subject {
                case,
                counted: Counted::Deadline,
                number,
            },
        ) => Some((case, number)),
        _ => None,
    }
}

/// The hearing that a command asks for.
pub(crate) fn setting_asked(command: &Command) -> Option<Setting>
    ensures { result ≡ setting_asked command.now }
{
    match *command {
        Command::Book(setting) | Command::MoveHearing(setting) => Some(setting),
        _ => None,
    }
}

/// The extension that a command asks for.
pub fn request_asked(command: &Command) -> Option<Request>
    ensures { result ≡ request_asked command.now }
{
    match *command {
        Command::Extend { request, .. } => Some(request),
        _ => None,
    }
}

/// The case and the number of the motion that a refusal names, or else whose hearing the command asks for.
pub fn motion_of_refusal(command: &Command, refusal: &Refusal) -> Option<(u32, u32)>
    ensures { result ≡ motion_of_refusal command.now refusal.now }
{
    match *refusal {
        Refusal::JudgeBusy(case, motion)
        | Refusal::RoomBusy(case, motion)
        | Refusal::HearingThatDay(case, motion)
        | Refusal::NoticeLost(case, motion)
        | Refusal::HearingAhead(case, motion) => Some((case, motion)),
        _ => motion_of_setting(setting_asked(command)),
    }
}

/// The case and the number of the motion whose hearing a command asks for.
fn motion_of_setting(setting: Option<Setting>) -> Option<(u32, u32)>
    ensures { result ≡ motion_of_setting setting }
{
    match setting {
        Some(setting) => Some((setting.case, setting.motion)),
        None => None,
    }
}
