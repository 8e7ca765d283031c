//! Two clerks at work, whom a gate holds so that their rows come in one order. On one thread no clerk could go on while
//! another is held.

use super::office::{Page, make_page};
use super::sample_court::file;
use clerk_workers::{Gate, run_shared};
use program_runs::{CheckedInput, check_input};
use program_streams::{Watched, write_text};
use std::alloc::Global;
use std::sync::Wait;
use std::sync::atomic::{AtomicBool, Ordering};
use std::test::Fail;
use std::thread;
use std::thread::Threads;

// How often a clerk who is held looks whether to go on.
const MOST_TURNS: u32 = 10_000_000;

// A moment in the life of a row.
#[derive(Clone, Copy, PartialEq, Eq)]
enum Moment {
    Commit(u32),
    Answer(u32),
}

// A clerk is held at one moment until another has come.
#[derive(Drop)]
struct Hold {
    at: Moment,
    until: Moment,
    has_come: AtomicBool,
}

impl Hold {
    fn new(at: Moment, until: Moment) -> Hold {
        let has_come = AtomicBool::new(false);
        Hold {
            at,
            until,
            has_come,
        }
    }

    // Whether the other moment came in time.
    fn waits(&self) -> bool {
        for _ in 0..MOST_TURNS {
            if self.has_come.load(Ordering::SeqCst) {
                return true;
            }
            thread::yield_now();
        }
        false
    }
}

// Two holds.
#[derive(Drop)]
struct Script {
    first: Hold,
    second: Hold,
    was_late: AtomicBool,
}

impl Script {
    fn new(first: Hold, second: Hold) -> Script {
        let was_late = AtomicBool::new(false);
        Script {
            first,
            second,
            was_late,
        }
    }

    fn comes(&self, moment: Moment) {
        for hold in [&self.first, &self.second] {
            if hold.until == moment {
                hold.has_come.store(true, Ordering::SeqCst);
            }
        }
        self.holds_at(moment);
    }

    fn holds_at(&self, moment: Moment) {
        for hold in [&self.first, &self.second] {
            if hold.at == moment && !hold.waits() {
                self.was_late.store(true, Ordering::SeqCst);
            }
        }
    }
}

impl Gate for Script {
    fn before_commit(&self, _clerk: u8, row: u32) {
        self.comes(Moment::Commit(row));
    }

    fn after_answer(&self, _clerk: u8, row: u32) {
        self.comes(Moment::Answer(row));
    }
}

// The text of the run of these rows of two clerks in the sample court, and whether each hold ended in time.
fn run<H: Threads + Wait + Sync>(
    rt: &H,
    alloc: Global,
    rows: &str,
    script: &Script,
) -> Result<(Watched<Page>, bool), Fail> {
    let input = format!(in alloc; "{}%%\n{rows}", file())?;
    let CheckedInput { court, rows } = check_input(rt, alloc, input.as_bytes(), 2, 2)?;
    let text = run_shared(rt, alloc, court, 2, 100_000, rows, script)?;
    let mut writer = Watched::new(make_page(alloc, usize::MAX, usize::MAX));
    write_text(alloc, &mut writer, text)?;
    Ok((writer, !script.was_late.load(Ordering::SeqCst)))
}

#[test]
fn answers_the_clerk_who_commits_first(rt: HostRuntime) -> Result<(), Fail> {
    let script = Script::new(
        Hold::new(Moment::Commit(2), Moment::Commit(1)),
        Hold::new(Moment::Commit(1), Moment::Answer(2)),
    );
    let rows = "1,open,1,2025-03-03\n2,open,1,2025-03-03\n";
    let (written, in_time) = run(&rt, rt.alloc(), rows, &script)?;
    assert!(rt; in_time);
    let text =
        "1 1 refused 2 CaseIsOpen\n2 2 opened\ncase 1 filed 2025-03-03\njudge Ames\njudge Brandt\n";
    assert_eq!(rt; written.inner().text.as_slice(), text.as_bytes());
    Ok(())
}

#[test]
fn shows_a_clerk_what_another_has_finished(rt: HostRuntime) -> Result<(), Fail> {
    let script = Script::new(
        Hold::new(Moment::Commit(1), Moment::Answer(2)),
        Hold::new(Moment::Answer(2), Moment::Answer(1)),
    );
    let rows = "1,open,1,2025-03-03\n2,sheet,1\n2,sheet,1\n";
    let (written, in_time) = run(&rt, rt.alloc(), rows, &script)?;
    assert!(rt; in_time);
    let text = "1 1 opened\n2 2 refused 1 NoSuchCase\n3 2 sheet\ncase 1 filed 2025-03-03\n\
        case 1 filed 2025-03-03\njudge Ames\njudge Brandt\n";
    assert_eq!(rt; written.inner().text.as_slice(), text.as_bytes());
    Ok(())
}
