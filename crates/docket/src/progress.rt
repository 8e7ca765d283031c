//! What tells at a terminal that the program goes on.

use std::io::{IsTerminal, Write};
use std::sync::Wait;
use std::sync::atomic::{AtomicBool, Ordering};
use std::thread;
use std::thread::{Parker, Threads};
use std::time::Duration;

// How long work may take before that is told, in seconds.
const QUIET: u32 = 2;

// Tells once a second how long the work has taken, until it has ended, and then clears the line.
fn tell<H: Wait, E: Write + Drop>(
    rt: &H,
    mut errors: E,
    doing: &str,
    what: &str,
    parker: &Parker,
    ended: &AtomicBool,
) {
    let mut is_told = false;
    for second in 1..u32::MAX {
        parker.park_timeout(rt, Duration::from_secs(1));
        if ended.load(Ordering::SeqCst) {
            break;
        }
        if second >= QUIET {
            let _ = write!(errors, "\r{doing} {what}: {second} s");
            is_told = true;
        }
    }
    if is_told {
        let _ = errors.write_all(b"\r\x1b[K");
    }
}

/// Does the work. Where it takes longer than two seconds, and errors go to a terminal, a line there says how long it has taken so
/// far, and is cleared before this returns.
pub fn told_while<
    H: Threads + Wait + Sync,
    E: Write + IsTerminal + Send + Drop,
    T,
    F: FnOnce() -> T,
>(threads: &H, errors: E, doing: &str, what: &str, work: F) -> T
    requires { F.pre work }
    ensures { F.post work result }
{
    if !errors.is_terminal() {
        return work();
    }
    let (parker, ended) = (Parker::new(), AtomicBool::new(false));
    thread::scope(thread::scope_env(), threads, |scope| {
        let told = scope.spawn(|| tell(threads, errors, doing, what, &parker, &ended));
        drop(told);
        let result = work();
        ended.store(true, Ordering::SeqCst);
        parker.unpark();
        result
    })
}
