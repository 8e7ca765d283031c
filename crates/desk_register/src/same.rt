//! Whether two ends are one, or two last days for affidavits.
ghost use Rattle.std.specs.Prelude.{◌≡◌};
ghost use Rattle.desk_register.specs.Same.{is_same_act, is_same_day, is_same_end};

use court_clock::Day;
use rule6::{Act, Shown};

// Whether two acts are one.
fn is_same_act(x: &Act, y: &Act) -> bool
    ensures { result ≡ is_same_act x.now y.now }
{
    match (x, y) {
        (Act::Filing, Act::Filing) => true,
        (Act::Service, Act::Service) => true,
        _ => false,
    }
}

// Whether two ends are one.
pub(crate) fn is_same_end(x: &Shown, y: &Shown) -> bool
    ensures { result ≡ is_same_end x.now y.now }
{
    match (x, y) {
        (
            Shown::Last { day, act },
            Shown::Last {
                day: other,
                act: due,
            },
        ) => { *day == *other && is_same_act(act, due) }
        (Shown::Until(at), Shown::Until(other)) => *at == *other,
        (Shown::Beyond, Shown::Beyond) => true,
        _ => false,
    }
}

// Whether two last days are one, or both are none.
pub(crate) fn is_same_day(x: &Option<Day>, y: &Option<Day>) -> bool
    ensures { result ≡ is_same_day x.now y.now }
{
    match (x, y) {
        (Some(day), Some(other)) => *day == *other,
        (None, None) => true,
        _ => false,
    }
}
