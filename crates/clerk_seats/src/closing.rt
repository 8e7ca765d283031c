//! How the tallies that an office gets back are held to its book.

ghost use Rattle.std.specs.Prelude.{◌≡◌, ℕ, ◌+◌, ◌≤◌, true, All, Contains, IfNone, IfSome, MatchBool, length};
ghost use mathlib.Core.List.{IsPrefix};
ghost use Rattle.clerk_seats.specs.Closed.{HasTallies, IsFirstMissing, calls_of, numbers_of};
ghost use Rattle.clerk_seats.specs.Places.{Within, places_of};

use crate::book::Book;
use crate::names_office::NamesOffice;
use crate::tally::Tally;
use published_docket::Trail;
use std::sync::ledger::Share;
use std::sync::{Arc, Mutex, Wait};

// Whether there is a tally of the seat of this number.
fn has_tally<L: NamesOffice>(tallies: &[Tally<L>], number: u8) -> bool
    ensures { MatchBool result (Contains (numbers_of tallies.now) number) (Contains (numbers_of tallies.now) number → ⊥) }
{
    for tally in tallies {
        if tally.number() == number {
            return true;
        }
    }
    false
}

/// The least number of a seat, from 1, of which there is no tally.
pub(crate) fn first_missing<L: NamesOffice>(seats: u8, tallies: &[Tally<L>]) -> Option<u8>
    ensures missing { IfSome result (IsFirstMissing seats tallies.now) }
    ensures whole { IfNone result (HasTallies seats tallies.now) }
{
    for before in 0..seats {
        if !has_tally(tallies, before + 1) {
            return Some(before + 1);
        }
    }
    None
}

// Whether all that the seats had seen are beginnings of this history. Their calls are then entries of that.
fn all_seen<L: NamesOffice>(tallies: &[Tally<L>], now: &Trail) -> bool
    requires { now.now.book ≡ L.history }
    ensures seen { result ≡ true → All (λ t. IsPrefix t.seen now.now.log) tallies.now }
    ensures mine { result ≡ true → All (λ t. Within t.mine (places_of t.number now.now.log)) tallies.now }
{
    for tally in tallies {
        if !tally.is_seen(now) {
            return false;
        }
    }
    true
}

/// Returns once all that the seats had seen are beginnings of this history, which is at once: they saw no other. Their
/// calls are then entries of that.
pub(crate) fn wait_for_all<L: NamesOffice, R: Wait>(rt: &R, tallies: &[Tally<L>], now: &Trail)
    requires { now.now.book ≡ L.history }
    ensures seen { All (λ t. IsPrefix t.seen now.now.log) tallies.now }
    ensures mine { All (λ t. Within t.mine (places_of t.number now.now.log)) tallies.now }
{
    for _ in rt.forever() {
        if all_seen(tallies, now) {
            return;
        }
    }
    unreachable!()
}

/// Adds the seats' parts of the ledger to the rest of it, and spends the tallies.
pub(crate) fn merge_all<L: NamesOffice>(rest: &mut Share<L>, tallies: &mut Vec<Tally<L>>)
    requires { rest.old.parts ≤ L.parts }
    ensures parts { rest.new.parts ≡ rest.old.parts + length tallies.old.items }
    ensures amount { rest.new.amount ≡ rest.old.amount + calls_of tallies.old.items }
    ensures few { rest.new.parts ≤ L.parts }
{
    while let Some(tally) = tallies.pop() {
        rest.merge(tally.into_share());
    }
}

/// The book, once nobody else shares it. It waits for nobody where all seats were left.
pub(crate) fn only_owned<L: NamesOffice, R: Wait>(rt: &R, book: Arc<Mutex<Book<L>>>) -> Book<L> {
    let mut shared = book;
    for _ in rt.forever() {
        match Arc::try_unwrap(shared) {
            Ok(lock) => return lock.into_inner(),
            Err(again) => shared = again,
        }
    }
    unreachable!()
}
