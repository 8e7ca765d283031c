//! The journal of an office that was closed.

ghost use Rattle.std.specs.Prelude.{◌≡◌, IfOk};
ghost use Rattle.docket_rows.specs.Words.{setup_of};
ghost use Rattle.docket_core.specs.Words.{StandsFor};
ghost use Rattle.shared_docket.specs.Words.{rows_of};

use court_days::Court;
use docket_core::Docket;
use docket_rows::{Answer, Command};
use std::alloc::{AllocError, Global};
use std::marker::Model;
use versioned_steps::Entry;

/// All that the clerks of an office finished, each entry at its place. The first place is 1.
#[derive(Drop)]
pub struct Journal {
    entries: Vec<Entry<Command, Answer>>,
}

impl Model for Journal {
    ghost use Rattle.std.specs.Prelude.{List};
    ghost use Rattle.docket_rows.specs.declared.answer.Answer.{Answer};
    ghost use Rattle.docket_rows.specs.declared.command.Command.{Command};
    ghost use Rattle.versioned_steps.specs.declared.entry.Entry.{Entry};

    ghost Value = { List (Entry Command Answer) };

    ghost view = { λ j. j.entries.items };
}

impl Journal {
    /// The journal of these entries.
    pub(crate) fn new(entries: Vec<Entry<Command, Answer>>) -> Journal
        ensures { result ≡ entries.items }
    {
        Journal { entries }
    }

    /// The entries, in the order in which they were finished.
    pub fn entries(&self) -> &[Entry<Command, Answer>]
        ensures { result.now ≡ self.now }
    {
        &self.entries
    }

    /// The docket of the court after the commands of the journal. `Err` says that memory ran out.
    pub fn docket(&self, alloc: Global, court: &Court) -> Result<Docket, AllocError>
        ensures setup { IfOk result (λ d. d.setup ≡ setup_of court.now) }
        ensures rows { IfOk result (λ d. StandsFor d (rows_of (setup_of court.now) self.now)) }
    {
        let mut docket = Docket::new(alloc, court)?;
        for entry in &self.entries {
            docket.apply(alloc, &entry.command)?;
        }
        Ok(docket)
    }
}
