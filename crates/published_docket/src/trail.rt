//! How far the one history of an office was seen.

ghost use Rattle.std.specs.Prelude.{◌≡◌, ◌+◌, ◌<◌, ◌^◌, ◌∷◌, ◌++◌, [], length, MatchBool};
ghost use mathlib.Core.List.{IsPrefix};
ghost use Rattle.published_docket.specs.Counted.{head_of};
ghost use Rattle.published_docket.specs.Trails.{IsBeginning};

use crate::law::{Add, Head, Law, Nothing};
use docket_rows::{Answer, Command};
use logbook::{Offer, Seen, Start, Word};
use std::marker::Model;
use versioned_steps::Entry;

/// The beginning that was seen of an office's one history. It keeps only how many entries there are, so a copy takes no
/// memory. Two of one office are compared by their lengths.
#[derive(Drop)]
pub struct Trail {
    count: u64,
    seen: Seen<Entry<Command, Answer>, u64, Law>,
}

impl Model for Trail {
    ghost use Rattle.std.specs.Prelude.{◌≡◌, length};
    ghost use Rattle.published_docket.specs.Trails.{TrailView};

    ghost Value = { TrailView };

    ghost view = { λ t. record { book = t.seen.book; log = t.seen.log } };

    ghost invariant = { λ t. t.count ≡ length t.seen.log };
}

impl Trail {
    /// A new history without entries, and the word that counts them.
    pub(crate) fn open() -> (Head, Trail)
        ensures head { result.0 ≡ head_of result.1.book }
        ensures log { result.1.log ≡ [] }
    {
        let (seen, mut first, _second) = Seen::open(Start::alone(), 0, 0);
        let head = Word::tracked(0, &mut first);
        (head, Trail { count: 0, seen })
    }

    /// How many entries it has.
    pub fn len(&self) -> u64
        ensures { result ≡ length self.now.log }
    {
        self.count
    }

    /// A copy.
    pub fn again(&self) -> Trail
        ensures { result ≡ self.now }
    {
        Trail {
            count: self.count,
            seen: self.seen.again(),
        }
    }

    /// Whether the other, of the same history, begins with this one. If not, this one begins with it and goes on.
    pub fn begins(&self, other: &Trail) -> bool
        requires { other.now.book ≡ self.now.book }
        ensures { MatchBool result (IsPrefix self.now.log other.now.log) (IsPrefix other.now.log self.now.log × (length other.now.log < length self.now.log)) }
    {
        let mut both = self.seen.again();
        both.learn(&other.seen);
        self.count <= other.count
    }

    /// Adds an entry to all that was seen, and says whether it did. It did not where the history is longer.
    pub(crate) fn add(&mut self, head: &Head, entry: &Entry<Command, Answer>) -> bool
        requires head { head.now ≡ head_of self.old.book }
        requires room { length self.old.log + 1 < 2 ^ 64 }
        ensures { MatchBool result (self.new ≡ record self.old { log = self.old.log ++ entry.now ∷ [] }) (IsBeginning self.old self.new × (length self.old.log < length self.new.log)) }
    {
        let mut offer: Offer<Entry<Command, Answer>, u64, Law, Nothing> = self
            .seen
            .plain::<Nothing, Entry<Command, Answer>, Add>(entry);
        let mut pen = self.seen.no_pen();
        let count = self.count;
        let found = head.compare_exchange::<Add, Nothing>(
            count,
            count + 1,
            &mut self.seen,
            &mut offer,
            &mut pen,
        );
        self.count = if found == count { count + 1 } else { found };
        found == count
    }
}
