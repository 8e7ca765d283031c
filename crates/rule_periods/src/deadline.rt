//! A deadline as the docket keeps it.

ghost use Rattle.std.specs.Prelude.{◌≡◌, ◌<◌, true, option_map, IfSome, IfOk, is_ok, if◌then◌else◌};
ghost use Rattle.std.specs.List.{list_all};
ghost use Rattle.rule_periods.specs.Deadline.{DeadlineRowView, anew, kept_filing, second_anew, with_filing, with_grant};
ghost use Rattle.rule_periods.specs.Grant.{is_grant_length};
ghost use Rattle.rule_periods.specs.Period.{suits, has_length};

use crate::event::{Event, LAST_MINUTE};
use crate::grant::Grant;
use crate::period::Period;
use court_clock::Day;
use rule6::{Filing, ServiceKind};
use std::alloc::{AllocError, Global};
use std::marker::Model;

/// A deadline: its period, the event from which it runs, the extensions that were granted in order, and the act by
/// which it was met, or missed.
#[derive(Debug, Drop)]
pub struct DeadlineRow {
    period: Period,
    event: Event,
    second: Option<Day>,
    service: Option<ServiceKind>,
    grants: Vec<Grant>,
    filed: Option<Filing>,
}

impl Model for DeadlineRow {
    ghost Value = { DeadlineRowView };

    ghost view = { λ r. record { period = r.period; event = r.event; second = r.second; service = r.service; grants = r.grants.items; filed = r.filed } };

    ghost invariant = { λ r. (suits r.period r.second r.service ≡ true) × (has_length r.period ≡ true) × (list_all is_grant_length r.grants.items ≡ true) × IfSome r.filed (λ f. f.minute < 1440) };
}

impl DeadlineRow {
    /// A deadline of that period. A minute of 1,440 or more in the act is kept as 1,439, the last of the day. An
    /// extension that isn't of the period's kind leaves it without an end.
    pub fn new(
        period: Period,
        event: Event,
        second: Option<Day>,
        service: Option<ServiceKind>,
        grants: Vec<Grant>,
        filed: Option<Filing>,
    ) -> DeadlineRow
        requires suits { suits period second service ≡ true }
        requires length { has_length period ≡ true }
        requires grants { list_all is_grant_length grants.items ≡ true }
        ensures { result ≡ record { period = period; event = event; second = second; service = service; grants = grants.items; filed = option_map kept_filing filed } }
    {
        DeadlineRow {
            period,
            event,
            second,
            service,
            grants,
            filed: match filed {
                Some(filing) => Some(kept_filing(filing)),
                None => None,
            },
        }
    }

    /// The period.
    pub fn period(&self) -> Period
        ensures value { result ≡ self.now.period }
        ensures suits { suits self.now.period self.now.second self.now.service ≡ true }
        ensures length { has_length self.now.period ≡ true }
    {
        self.period
    }

    /// The event from which the period runs.
    pub fn event(&self) -> Event
        ensures { result ≡ self.now.event }
    {
        self.event
    }

    /// The second day, where the period takes one.
    pub fn second(&self) -> Option<Day>
        ensures { result ≡ self.now.second }
    {
        self.second
    }

    /// The kind of service, where one was given.
    pub fn service(&self) -> Option<ServiceKind>
        ensures { result ≡ self.now.service }
    {
        self.service
    }

    /// The extensions, in the order in which they were granted.
    pub fn grants(&self) -> &[Grant]
        ensures value { result.now ≡ self.now.grants }
        ensures lengths { list_all is_grant_length self.now.grants ≡ true }
    {
        &self.grants
    }

    /// The act that was recorded for the deadline.
    pub fn filed(&self) -> Option<Filing>
        ensures value { result ≡ self.now.filed }
        ensures in_the_day { IfSome result (λ f. f.minute < 1440) }
    {
        self.filed
    }

    /// Adds an extension, in place. An error leaves the deadline as it was.
    #[tactic(auto, using(crate::proofs::DeadlineLemmas::all_push))]
    pub(crate) fn add_grant(&mut self, grant: Grant) -> Result<(), AllocError>
        requires { is_grant_length grant ≡ true }
        ensures { self.new ≡ (if is_ok result then with_grant self.old grant else self.old) }
    {
        self.grants.push(grant)?;
        Ok(())
    }

    /// Records the act, in place. A minute of 1,440 or more is kept as 1,439.
    pub(crate) fn set_filed(&mut self, filing: Filing)
        ensures { self.new ≡ with_filing self.old filing }
    {
        self.filed = Some(kept_filing(filing));
    }

    /// The deadline as it runs anew from a day: that is the day of its event, at the same time of day, and its second day where the period
    /// takes one, and no extension counts any more. It takes no memory.
    #[tactic(auto, using(crate::proofs::DeadlineLemmas::anew_suits))]
    pub fn anew(&self, alloc: Global, day: Day) -> DeadlineRow
        ensures { result ≡ anew self.now day }
    {
        DeadlineRow {
            period: self.period,
            event: self.event.on(day),
            second: second_anew(self.second, day),
            service: self.service,
            grants: Vec::new(alloc),
            filed: self.filed,
        }
    }

    /// Lets the deadline run anew from a day, in place. It takes no memory.
    #[tactic(auto, using(crate::proofs::DeadlineLemmas::anew_suits))]
    pub(crate) fn run_anew(&mut self, day: Day)
        ensures { self.new ≡ anew self.old day }
    {
        self.event = self.event.on(day);
        self.second = second_anew(self.second, day);
        self.grants.clear();
    }

    /// A copy.
    pub fn copy(&self, alloc: Global) -> Result<DeadlineRow, AllocError>
        ensures { IfOk result (λ row. row ≡ self.now) }
    {
        Ok(DeadlineRow {
            period: self.period,
            event: self.event,
            second: self.second,
            service: self.service,
            grants: Vec::from_slice(alloc, &self.grants)?,
            filed: self.filed,
        })
    }

    /// The list of the extensions, without the deadline.
    pub fn into_grants(self) -> Vec<Grant>
        ensures { result.items ≡ self.grants }
    {
        self.grants
    }
}

// The second day of a deadline that runs anew, where its period takes one.
fn second_anew(second: Option<Day>, day: Day) -> Option<Day>
    ensures { result ≡ second_anew second day }
{
    match second {
        Some(_) => Some(day),
        None => None,
    }
}

/// The act as it is kept: a minute of 1,440 or more is kept as 1,439, the last of the day.
pub fn kept_filing(filing: Filing) -> Filing
    ensures value { result ≡ kept_filing filing }
    ensures in_the_day { result.minute < 1440 }
{
    Filing {
        minute: filing.minute.min(LAST_MINUTE),
        ..filing
    }
}
