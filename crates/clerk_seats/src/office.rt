//! The office that clerks share.

ghost use Rattle.std.specs.Prelude.{◌≡◌, ◌+◌, ◌≤◌, [], IfErr, IfOk, IfSome, MatchResult, OnOk};
ghost use Rattle.docket_rows.specs.Words.{setup_of};
ghost use Rattle.published_docket.specs.Words.{IsShown, trail_view};
ghost use Rattle.clerk_seats.specs.Closed.{AreApart, AreOfSeats, HasTallies, IsClosed, StaysOpen};
ghost use Rattle.clerk_seats.specs.Opened.{IsLate, IsOpened, IsRefused, open_seats};

use crate::book::Book;
use crate::closing::{first_missing, only_owned};
use crate::fault::{CloseError, OfficeError};
use crate::journal::Journal;
use crate::names_office::NamesOffice;
use crate::seat::Seat;
use crate::tally::Tally;
use court_days::Court;
use published_docket::{Board, Publisher, Trail};
use shared_docket::DocketParts;
use std::alloc::{AllocError, Global};
use std::marker::Model;
use std::sync::ledger::{Blank, Share};
use std::sync::{Arc, Mutex, Wait};

/// The office of some clerks: the one book that their seats share.
#[derive(Drop)]
pub struct Office<L: NamesOffice> {
    book: Arc<Mutex<Book<L>>>,
    seats: u8,
    rest: Share<L>,
}

impl<L: NamesOffice> Model for Office<L> {
    ghost use Rattle.std.specs.Prelude.{ℕ};
    ghost use Rattle.clerk_seats.specs.Closed.{AreApart, AreOfSeats, HasTallies, IsClosed, StaysOpen};
    ghost use Rattle.clerk_seats.specs.Opened.{IsOffice};

    ghost Value = { ℕ };

    ghost view = { λ o. o.seats };

    ghost invariant = { λ o. IsOffice o.seats o.rest.parts o.rest.amount };
}

/// An office that wasn't closed, with all that it was to be closed with.
#[derive(Drop)]
pub struct CloseRefused<L: NamesOffice> {
    /// Why it wasn't.
    pub cause: CloseError,
    /// The office, as it was.
    pub office: Office<L>,
    /// The tallies, as they were.
    pub tallies: Vec<Tally<L>>,
}

// Puts the book under a lock that seats share.
fn locked<L: NamesOffice>(alloc: Global, book: Book<L>) -> Result<Arc<Mutex<Book<L>>>, AllocError> {
    Ok(Arc::new(alloc, Mutex::new(book))?)
}

// The seats, numbered from 1. Each takes one part of the rest of the ledger.
fn seats_of<L: NamesOffice, R: Wait>(
    rt: &R,
    alloc: Global,
    book: &Arc<Mutex<Book<L>>>,
    rest: &mut Share<L>,
    trail: &Trail,
    court: &Court,
    count: u8,
    limit: u32,
) -> Result<Vec<Seat<L>>, OfficeError>
    requires court { L.setup ≡ setup_of court.now }
    requires trail { trail.now ≡ trail_view L.history [] }
    requires parts { count ≤ rest.old.parts }
    requires amount { rest.old.amount ≡ 0 }
    ensures seats { IfOk result (λ seats. seats.items ≡ open_seats limit count) }
    ensures parts { OnOk result (rest.new.parts + count ≡ rest.old.parts) }
    ensures amount { OnOk result (rest.new.amount ≡ 0) }
    ensures late { IfErr result IsLate }
{
    let mut seats = Vec::new(alloc);
    for before in 0..count {
        let reader = book.lock(rt).reader(rt);
        let Ok(reader) = reader else {
            return Err(OfficeError::NoReader);
        };
        let shared = Arc::try_clone(book)?;
        let parts = DocketParts::new(court)?;
        let share = rest.split_off(1, 0);
        seats.reserve(1)?;
        seats.push_reserved(Seat::open(
            alloc,
            shared,
            limit,
            before + 1,
            parts,
            reader,
            trail.again(),
            share,
        ));
    }
    Ok(seats)
}

impl<L: NamesOffice> Office<L> {
    /// Opens an office, and gives its seats, numbered from 1 in this order. Its journal takes no more entries than the
    /// limit. The blank has 64 parts, and the publisher was made of this court. Both are spent also where an Err comes.
    #[tactic(auto, using(crate::proofs::OpenedLemmas::late_refused))]
    pub fn new<R: Wait>(
        rt: &R,
        alloc: Global,
        blank: Blank,
        publisher: Publisher,
        court: &Court,
        seats: u8,
        journal_limit: u32,
    ) -> Result<(Office<L>, Vec<Seat<L>>), OfficeError>
        requires name { blank.name ≡ L.name }
        requires parts { blank.parts ≡ L.parts }
        requires all { L.parts ≡ 64 }
        requires publisher { publisher ≡ record { parts = L.setup; trail = trail_view L.history [] } }
        requires court { L.setup ≡ setup_of court.now }
        ensures { MatchResult result (λ opened. IsOpened seats journal_limit opened.0 opened.1.items) (λ e. IsRefused seats journal_limit e) }
    {
        if seats == 0 || 64 < seats {
            publisher.end(rt);
            return Err(OfficeError::BadSeats);
        }
        if 1_000_000 < journal_limit {
            publisher.end(rt);
            return Err(OfficeError::BadLimit);
        }
        let (counted, mut rest) = blank.open::<L>();
        let trail = publisher.trail().again();
        let book = locked(alloc, Book::open(rt, alloc, publisher, counted, court)?)?;
        let opened = seats_of(
            rt,
            alloc,
            &book,
            &mut rest,
            &trail,
            court,
            seats,
            journal_limit,
        );
        match opened {
            Ok(opened) => Ok((Office { book, seats, rest }, opened)),
            Err(error) => Err(error),
        }
    }

    /// Closes the office, once all its seats were left, and gives the journal of all that their clerks finished: each
    /// tally's calls are its entries of that number, and it has no others. `Err` gives back the office and the tallies.
    /// It is `MissingTally` of the least number without a tally; closing takes no memory. The tallies are of seats of
    /// this office, since `L` names it. If no seat's is missing there is one of each.
    pub fn close<R: Wait>(self, rt: &R, tallies: Vec<Tally<L>>) -> Result<Journal, CloseRefused<L>>
        requires all { L.parts ≡ 64 }
        ensures closed { IfOk result (λ journal. IsClosed L.setup tallies.items journal) }
        ensures whole { OnOk result (HasTallies self tallies.items) }
        ensures seats { OnOk result (AreOfSeats self tallies.items) }
        ensures apart { OnOk result (AreApart tallies.items) }
        ensures cause { IfErr result (λ r. StaysOpen self tallies.items r.cause) }
        ensures office { IfErr result (λ r. r.office ≡ self) }
        ensures tallies { IfErr result (λ r. r.tallies.items ≡ tallies.items) }
    {
        match self.close_shown(rt, tallies) {
            Ok((journal, _)) => Ok(journal),
            Err(refused) => Err(refused),
        }
    }

    /// Closes the office as `close` does, and gives beside the journal the docket after it, as it was published last. None
    /// where memory ran out for what was owed to readers; the journal has its docket also then.
    pub fn close_shown<R: Wait>(
        self,
        rt: &R,
        tallies: Vec<Tally<L>>,
    ) -> Result<(Journal, Option<Box<Board>>), CloseRefused<L>>
        requires all { L.parts ≡ 64 }
        ensures closed { IfOk result (λ c. IsClosed L.setup tallies.items c.0) }
        ensures board { IfOk result (λ c. IfSome c.1 (λ board. IsShown board.value × (board.value.parts ≡ L.setup) × (board.value.trail.log ≡ c.0))) }
        ensures whole { OnOk result (HasTallies self tallies.items) }
        ensures seats { OnOk result (AreOfSeats self tallies.items) }
        ensures apart { OnOk result (AreApart tallies.items) }
        ensures cause { IfErr result (λ r. StaysOpen self tallies.items r.cause) }
        ensures office { IfErr result (λ r. r.office ≡ self) }
        ensures tallies { IfErr result (λ r. r.tallies.items ≡ tallies.items) }
    {
        let Office {
            book,
            seats,
            mut rest,
        } = self;
        let mut tallies = tallies;
        if let Some(number) = first_missing(seats, &tallies) {
            return Err(CloseRefused {
                cause: CloseError::MissingTally(number),
                office: Office { book, seats, rest },
                tallies,
            });
        }
        Ok(only_owned(rt, book).close(rt, &mut rest, &mut tallies))
    }
}
