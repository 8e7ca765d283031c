//! The kinds of service of Rule 5(b)(2).

ghost use Rattle.std.specs.Prelude.{◌≡◌};
ghost use Rattle.rule6.specs.Service.{adds_three_days};

use court_clock::Day;

/// How a paper was served, by the paragraphs of Fed. R. Civ. P. 5(b)(2).
#[derive(Clone, Copy, Debug, PartialEq, Eq)]
pub enum ServiceKind {
    /// Handed to the person, 5(b)(2)(A).
    HandA,
    /// Left at the person's office or dwelling, 5(b)(2)(B).
    LeftB,
    /// Mailed to the person's last known address, 5(b)(2)(C).
    MailC,
    /// Left with the court clerk, where no address is known, 5(b)(2)(D).
    ClerkD,
    /// Sent by the court's electronic filing system, or by other electronic means consented to, 5(b)(2)(E).
    ElectronicE,
    /// Delivered by other means consented to in writing, 5(b)(2)(F).
    OtherF,
}

/// 2016-12-01, from which day on electronic service adds no days.
const ELECTRONIC_SERVICE_AMENDED: i32 = 17_136;

/// Whether three days are added to a period that runs from service of this kind (Fed. R. Civ. P. 6(d)): after
/// mail, service on the clerk and other means consented to, and after electronic service on a day before the
/// amendment of 2016-12-01.
#[tactic(auto, using(crate::proofs::ServiceLemmas::amended_is))]
pub fn adds_three(kind: ServiceKind, served: Day) -> bool
    ensures { result ≡ adds_three_days kind served }
{
    match kind {
        ServiceKind::MailC | ServiceKind::ClerkD | ServiceKind::OtherF => true,
        ServiceKind::ElectronicE => served.number() < ELECTRONIC_SERVICE_AMENDED,
        ServiceKind::HandA | ServiceKind::LeftB => false,
    }
}
