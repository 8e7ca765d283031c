//! The check of a court's file.

ghost use Rattle.std.specs.Prelude.{◌≡◌, ◌≢◌, [], Ok, map, IfOk};
ghost use Rattle.std.specs.Bool.{OnTrue, OnFalse};
ghost use Rattle.toml.specs.View.{table_view};
ghost use Rattle.court_days.specs.Words.{desk_court_of, file_of};
ghost use Rattle.court_file_check.specs.Faults.{faults_in};
ghost use Rattle.court_file_check.specs.Seen.{seen};
ghost use Rattle.court_file_check.specs.Check.{IsCheckOf, IsDocumentCheck};

use crate::faults::{Fault, faults_of};
use crate::warnings::{Asked, Warnings, warnings_of};
use court_days::Court;
use court_file_text::CourtFault;
use std::alloc::{AllocError, Global};
use toml::Table;
use toml::de::Error;

/// What a check finds.
#[derive(Debug, Drop)]
pub enum Checked {
    /// The file is no TOML: where, and why.
    NotToml(Error),
    /// The document has these faults, at least one.
    Faulty(Table, Vec<Fault>),
    /// The document has no fault, and this is what may be wrong with it.
    Taken(Table, Warnings),
}

/// Checks a court's file. An `Err` says that memory ran out.
pub fn check_file(alloc: Global, bytes: &[u8], asked: &Asked) -> Result<Checked, AllocError>
    ensures { IfOk result (IsCheckOf asked.now bytes.now) }
{
    match toml::table_from_slice(alloc, bytes) {
        Ok(file) => {
            let checked = check_document(alloc, bytes, file, asked)?;
            Ok(checked)
        }
        Err(error) => {
            if error.is_memory() {
                return Err(AllocError);
            }
            Ok(Checked::NotToml(error))
        }
    }
}

/// Checks a document.
fn check_document(
    alloc: Global,
    text: &[u8],
    file: Table,
    asked: &Asked,
) -> Result<Checked, AllocError>
    ensures { IfOk result (IsDocumentCheck asked.now text.now (table_view file)) }
{
    let faults = faults_of(alloc, &file)?;
    if has_any(&faults) {
        return Ok(Checked::Faulty(file, faults));
    }
    let court = court_of(alloc, &file)?;
    let warnings = warnings_of(alloc, text, &file, &court, asked)?;
    Ok(Checked::Taken(file, warnings))
}

/// Whether there are faults.
#[tactic(auto, using(crate::proofs::CheckLemmas::none_seen, crate::proofs::CheckLemmas::some_seen))]
fn has_any(faults: &[Fault]) -> bool
    ensures some { OnTrue result (map seen faults.now ≢ []) }
    ensures none { OnFalse result (map seen faults.now ≡ []) }
{
    !faults.is_empty()
}

/// The court of a document without faults. An `Err` says that memory ran out.
#[tactic(auto, using(crate::proofs::CheckLemmas::no_fault))]
fn court_of(alloc: Global, file: &Table) -> Result<Court, AllocError>
    requires { faults_in (table_view file.now) ≡ [] }
    ensures { IfOk result (λ court. desk_court_of (table_view file.now) ≡ Ok (file_of court)) }
{
    match Court::from_desk_table(alloc, file) {
        Ok(court) => Ok(court),
        Err(CourtFault::OutOfMemory) => Err(AllocError),
        Err(_) => unreachable!(),
    }
}
