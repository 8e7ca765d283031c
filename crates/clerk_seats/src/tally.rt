//! What is left of a seat once its clerk is done.

ghost use Rattle.std.specs.Prelude.{◌≡◌, true, length};
ghost use mathlib.Core.List.{IsPrefix};
ghost use Rattle.clerk_seats.specs.Places.{Within, places_of};

use crate::names_office::NamesOffice;
use published_docket::Trail;
use std::marker::Model;
use std::sync::ledger::Share;

/// What is left of a seat once its clerk is done: its number, how far it had seen the history, and its calls.
#[derive(Drop)]
pub struct Tally<L: NamesOffice> {
    pub(crate) number: u8,
    pub(crate) trail: Trail,
    pub(crate) share: Share<L>,
    pub(crate) mine: Vec<u64>,
}

impl<L: NamesOffice> Model for Tally<L> {
    ghost use Rattle.clerk_seats.specs.Closed.{TallyView};
    ghost use Rattle.clerk_seats.specs.Seen.{IsTally};

    ghost Value = { TallyView };

    ghost view = { λ t. record { number = t.number; seen = t.trail.log; mine = t.mine.items } };

    ghost invariant = { λ t. IsTally L.history L.setup t.trail t.share.parts t.share.amount t.number t.mine.items };
}

impl<L: NamesOffice> Tally<L> {
    /// The number of the seat, from 1.
    pub fn number(&self) -> u8
        ensures { result ≡ self.now.number }
    {
        self.number
    }

    /// Whether all that the seat had seen is a beginning of this history. Its calls are then entries of that.
    #[tactic(auto, using(crate::proofs::PlaceLemmas::within_longer))]
    pub(crate) fn is_seen(&self, now: &Trail) -> bool
        requires { now.now.book ≡ L.history }
        ensures seen { result ≡ true → IsPrefix self.now.seen now.now.log }
        ensures mine { result ≡ true → Within self.now.mine (places_of self.now.number now.now.log) }
    {
        self.trail.begins(now)
    }

    /// The part of the ledger that the seat had, in which its calls are counted.
    pub(crate) fn into_share(self) -> Share<L>
        ensures parts { result.parts ≡ 1 }
        ensures amount { result.amount ≡ length self.mine }
    {
        let Tally {
            number: _,
            trail: _,
            share,
            mine: _,
        } = self;
        share
    }
}
