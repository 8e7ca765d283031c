//! Why a period can't start, or its time can't be extended.

use thiserror::Error;

/// A refusal, with the number by which the docket reports it.
#[derive(Clone, Copy, Debug, PartialEq, Eq, Error)]
pub enum PeriodRefusal {
    /// 5: a day isn't covered by the court's calendar.
    #[error("a day isn't covered by the court's calendar")]
    BadDay,
    /// 6: a length is out of its range.
    #[error("the length is out of its range")]
    BadLength,
    /// 7: the kind of service or the second day doesn't suit the period.
    #[error("the kind of service or the second day doesn't suit the period")]
    WrongService,
    /// 8: no covered day qualifies.
    #[error("no covered day qualifies")]
    Beyond,
    /// 10: the time must not be extended (Fed. R. Civ. P. 6(b)(2)), nor be reset to a later end.
    #[error("the time must not be extended")]
    NotExtendable,
    /// 11: there is no good cause (Fed. R. Civ. P. 6(b)(1)).
    #[error("there is no good cause")]
    NoGoodCause,
    /// 12: it was asked after the time had expired, without a motion (Fed. R. Civ. P. 6(b)(1)(B)).
    #[error("it was asked late, without a motion")]
    LateWithoutMotion,
    /// 13: the failure to act in time wasn't excusable neglect (Fed. R. Civ. P. 6(b)(1)(B)).
    #[error("it was asked late, without excusable neglect")]
    LateWithoutNeglect,
    /// 14: the deadline wouldn't be later.
    #[error("the deadline wouldn't be later")]
    NotLonger,
    /// 28: an extension by days or to a date of a period that ends at an instant, or by hours of one that ends with a day; or either
    /// where an order set an end of the other kind.
    #[error("the extension is of another kind than the period")]
    WrongGrant,
}
