//! Civil times and instants. A run shows civil times alone, so a clock that were hours ahead of the court's would show
//! the same.

use super::court_in;
use court_clock::{Clock, Day, Instant, minute_from_text};
use std::alloc::Global;
use std::process::Abort;
use std::test::Fail;

const EASTERN: &str = "EST5EDT,M3.2.0/2,M11.1.0/2";

// A zone, a civil time, its instant as the C library has it, and what the clock shows then. The first of two times is
// taken where the clocks are set back, and the time later by the gap where they are set forward.
const TIMES: &str = "\
+14:59 | 2025-03-07 15:00 | 1741305660 | 2025-03-07 15:00
-05:00 | 2025-03-09 02:30 | 1741505400 | 2025-03-09 02:30
EST5EDT,M3.2.0/2,M11.1.0/2 | 2025-03-09 01:59 | 1741503540 | 2025-03-09 01:59
EST5EDT,M3.2.0/2,M11.1.0/2 | 2025-03-09 02:30 | 1741505400 | 2025-03-09 03:30
EST5EDT,M3.2.0/2,M11.1.0/2 | 2025-03-09 03:00 | 1741503600 | 2025-03-09 03:00
EST5EDT,M3.2.0/2,M11.1.0/2 | 2025-11-02 00:59 | 1762059540 | 2025-11-02 00:59
EST5EDT,M3.2.0/2,M11.1.0/2 | 2025-11-02 01:30 | 1762061400 | 2025-11-02 01:30
EST5EDT,M3.2.0/2,M11.1.0/2 | 2025-11-02 02:00 | 1762066800 | 2025-11-02 02:00
AEST-10AEDT,M10.1.0,M4.1.0/3 | 2025-10-05 02:30 | 1759595400 | 2025-10-05 03:30
AEST-10AEDT,M10.1.0,M4.1.0/3 | 2025-04-06 02:30 | 1743867000 | 2025-04-06 02:30
AEST-10AEDT,M10.1.0,M4.1.0/3 | 2025-01-01 12:00 | 1735693200 | 2025-01-01 12:00
AEST-10AEDT,M10.1.0,M4.1.0/3 | 2025-07-01 12:00 | 1751335200 | 2025-07-01 12:00
EET-2EEST,M3.4.4/50,M10.4.4/50 | 2025-03-29 02:30 | 1743208200 | 2025-03-29 03:30
EET-2EEST,M3.4.4/50,M10.4.4/50 | 2025-10-25 01:30 | 1761345000 | 2025-10-25 01:30
CST6CDT,J98/2,J302/2 | 2025-04-08 02:30 | 1744101000 | 2025-04-08 03:30
CST6CDT,J98/2,J302/2 | 2024-04-08 02:30 | 1712565000 | 2024-04-08 03:30
CST6CDT,J98/2,J302/2 | 2025-10-29 01:30 | 1761719400 | 2025-10-29 01:30
IST-1GMT0,M10.5.0,M3.5.0/1 | 2025-03-30 01:30 | 1743298200 | 2025-03-30 02:30
IST-1GMT0,M10.5.0,M3.5.0/1 | 2025-10-26 01:30 | 1761438600 | 2025-10-26 01:30
IST-1GMT0,M10.5.0,M3.5.0/1 | 2025-07-01 12:00 | 1751367600 | 2025-07-01 12:00
<+1030>-10:30<+11>-11,M10.1.0,M4.1.0 | 2025-10-05 02:15 | 1759592700 | 2025-10-05 02:45
<+1030>-10:30<+11>-11,M10.1.0,M4.1.0 | 2025-04-06 01:45 | 1743864300 | 2025-04-06 01:45
";

/// No clause says these lines, so that no proof reads through them.
fn times() -> &'static str {
    TIMES
}

/// The day and the second of the day that a text as `2025-03-09 02:30` names.
fn civil(text: &str) -> Option<(Day, u32)> {
    let (date, time) = text.split_once(' ')?;
    let minute = minute_from_text(time)?;
    Some((Day::from_text(date)?, 60 * u32::from(minute)))
}

/// The four parts of a line.
fn parts(line: &str) -> Option<(&str, &str, &str, &str)> {
    let (zone, rest) = line.split_once(" | ")?;
    let (asked, rest) = rest.split_once(" | ")?;
    let (instant, shown) = rest.split_once(" | ")?;
    Some((zone, asked, instant, shown))
}

/// Fails unless the clock has the civil time at that second, and shows the other time then.
fn has(rt: &impl Abort, alloc: Global, clock: &Clock, line: &str) -> Result<(), Fail> {
    let (_, asked, second, shown) = parts(line).expect(rt, "four parts");
    let (day, at) = civil(asked).expect(rt, "a time");
    assert!(rt; at < 86_400);
    let instant = clock.instant_of(day, at);
    let found = format!(in alloc; "{}", instant.seconds())?;
    assert!(rt; found.as_str() == second, "{line}");
    assert!(rt; clock.civil_of(instant) == civil(shown), "{line}");
    Ok(())
}

#[test]
fn civil_times_and_instants(rt: HostRuntime) -> Result<(), Fail> {
    for line in times().lines() {
        let (zone, _, _, _) = parts(line).expect(&rt, "four parts");
        let court = court_in(rt.alloc(), zone)?;
        has(&rt, rt.alloc(), court.clock(), line)?;
    }
    Ok(())
}

/// Fails unless the offset at a second is that, and is known to hold until the other second.
fn holds(rt: &impl Abort, clock: &Clock, at: i64, offset: i32, until: i64) {
    let instant = Instant::new(at).expect(rt, "an instant");
    assert!(rt; clock.offset_at(instant) == offset, "{at}");
    assert!(rt; clock.steady_until(instant) == until, "{at}");
}

/// The last second before the change of March 2025, and the first after it, whose offset holds until November.
#[test]
fn offsets_hold_until_the_clocks_change(rt: HostRuntime) -> Result<(), Fail> {
    let court = court_in(rt.alloc(), EASTERN)?;
    holds(&rt, court.clock(), 1_741_503_599, -18_000, 1_741_503_600);
    holds(&rt, court.clock(), 1_741_503_600, -14_400, 1_762_063_200);
    Ok(())
}

/// A fixed offset holds after the last instant, and the clock shows no day there.
fn is_at_an_end(rt: &impl Abort, clock: &Clock, at: i64) {
    holds(rt, clock, at, 53_940, 10_000_000_000);
    let instant = Instant::new(at).expect(rt, "an instant");
    assert!(rt; clock.civil_of(instant).is_none(), "{at}");
}

#[test]
fn fixed_offsets_at_the_first_and_last_instant(rt: HostRuntime) -> Result<(), Fail> {
    let court = court_in(rt.alloc(), "+14:59")?;
    is_at_an_end(&rt, court.clock(), -9_600_000_000);
    is_at_an_end(&rt, court.clock(), 9_600_000_000);
    Ok(())
}
