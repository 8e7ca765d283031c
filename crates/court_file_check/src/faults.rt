//! All faults of a court's file.

ghost use Rattle.std.specs.Prelude.{◌≡◌, ◌≢◌, ◌++◌, ◌∷◌, [], List, map, IfOk, OnOk};
ghost use Rattle.toml.specs.View.{table_view};
ghost use Rattle.court_file_text.specs.declared.fault.CourtFault.TheVariants.{OutOfMemory};
ghost use Rattle.court_file_check.specs.Seen.{FaultView, seen};
ghost use Rattle.court_file_check.specs.Faults.{faults_in};

use court_file_text::{CourtFault, Key};
use std::alloc::{AllocError, Global};
use std::marker::Model;
use toml::Table;

mod dates;
mod keys;
pub(crate) mod names;

use dates::check_dates;
use keys::{check_efiling, check_hours, check_span, check_zone};
use names::check_names;

/// What is wrong.
#[derive(Debug, Drop)]
pub enum What {
    /// What reading the key or the item answers.
    Read(CourtFault),
    /// The text is no name that a judge or a room may have.
    BadName(String),
    /// The name is in its list before.
    TwiceNamed(String),
}

/// A fault of a court's file: the key, the item of its list, counted from 0, if it is at one, and what is wrong there.
#[derive(Debug, Drop)]
pub struct Fault {
    /// The key.
    pub key: Key,
    /// The item of its list.
    pub item: Option<usize>,
    /// What is wrong.
    pub what: What,
}

/// Faults in the order in which they were found.
#[derive(Debug, Drop)]
pub(crate) struct Faults {
    list: Vec<Fault>,
}

impl Model for Faults {
    ghost Value = { List FaultView };

    ghost view = { λ f. map seen f.list.items };
}

impl Faults {
    /// None.
    fn none(alloc: Global) -> Faults
        ensures { result ≡ [] }
    {
        Faults {
            list: Vec::new(alloc),
        }
    }

    /// One more.
    fn add(&mut self, fault: Fault) -> Result<(), AllocError>
        ensures { OnOk result (self.new ≡ self.old ++ seen fault ∷ []) }
    {
        self.list.push(fault)?;
        Ok(())
    }

    /// One more, which reading a key or an item answered. An `Err` says that memory ran out, as the answer says too if it
    /// is that.
    fn add_read(
        &mut self,
        key: Key,
        item: Option<usize>,
        fault: CourtFault,
    ) -> Result<(), AllocError>
        ensures added { OnOk result (self.new ≡ self.old ++ record { key = key; item = item; fault = fault } ∷ []) }
        ensures read { OnOk result (fault ≢ OutOfMemory) }
    {
        match fault {
            CourtFault::OutOfMemory => Err(AllocError),
            _ => self.add(Fault {
                key,
                item,
                what: What::Read(fault),
            }),
        }
    }
}

/// All faults of a court's file that is TOML, in the order of its keys; each list item by item, if it isn't too long. An
/// `Err` says that memory ran out.
pub fn faults_of(alloc: Global, file: &Table) -> Result<Vec<Fault>, AllocError>
    ensures { IfOk result (λ faults. map seen faults.items ≡ faults_in (table_view file.now)) }
{
    let mut faults = Faults::none(alloc);
    check_zone(file, &mut faults)?;
    check_hours(file, &mut faults)?;
    check_span(alloc, file, &mut faults)?;
    check_dates(alloc, file, Key::Federal, &mut faults)?;
    check_dates(alloc, file, Key::State, &mut faults)?;
    check_names(alloc, file, Key::Judges, &mut faults)?;
    check_names(alloc, file, Key::Rooms, &mut faults)?;
    check_efiling(file, &mut faults)?;
    Ok(faults.list)
}
