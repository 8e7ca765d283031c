//! The file of a folder's journal, as the system has it, before anything is read of it.
ghost use Rattle.std.specs.Prelude.{◌≡◌, string_bytes, IfOk};
ghost use Rattle.docket.specs.JournalFile.{journal_name, linked_line, other_line};

use crate::fault::Fault;
use desk_program::{DeskFault, FileFault, OpenFault, file_fault};
use std::alloc::{AllocError, Global};
use std::fs::{self, FileType, Metadata};
use std::io::ErrorKind;
use std::os::unix::fs::{FileTypeExt, MetadataExt};

/// The name of a folder's journal.
pub fn journal_name(alloc: Global, folder: &str) -> Result<String, AllocError>
    ensures { IfOk result (λ name. string_bytes name ≡ journal_name folder.now) }
{
    format!(in alloc; "{folder}/journal")
}

// What there is in place of a file, if it is no file.
fn other_than_file(kind: FileType) -> Option<&'static str> {
    if kind.is_file() {
        None
    } else if kind.is_dir() {
        Some("a folder")
    } else if kind.is_fifo() {
        Some("a named pipe")
    } else if kind.is_socket() {
        Some("a socket")
    } else {
        Some("a device")
    }
}

// What is said where there is something else in place of a file.
fn other_line(alloc: Global, name: &str, what: &str) -> Result<String, AllocError>
    ensures { IfOk result (λ line. string_bytes line ≡ other_line name.now what.now) }
{
    format!(in alloc; "{name} is {what}, not a file\n")
}

// What is said of a file that has other names too.
fn linked_line(alloc: Global, name: &str) -> Result<String, AllocError>
    ensures { IfOk result (λ line. string_bytes line ≡ linked_line name.now) }
{
    format!(in alloc;
        "{name} has another name too, by which other programs may change it: give the folder a copy of its own\n"
    )
}

// Looks whether this is a plain file.
fn check_file(alloc: Global, name: &str, found: &Metadata) -> Result<(), Fault> {
    match other_than_file(found.file_type()) {
        None => Ok(()),
        Some(what) => Err(Fault::Unusable(other_line(alloc, name, what)?)),
    }
}

// Looks whether this is a plain file that has one name.
fn check_own(alloc: Global, name: &str, found: &Metadata) -> Result<(), Fault> {
    check_file(alloc, name, found)?;
    if found.nlink() > 1 {
        return Err(Fault::Unusable(linked_line(alloc, name)?));
    }
    Ok(())
}

// What a name leads to, through links, or nothing.
fn found_at(rt: &HostRuntime, name: &str) -> Result<Option<Metadata>, FileFault> {
    match fs::metadata(rt, name) {
        Ok(found) => Ok(Some(found)),
        Err(error) if error.kind() == ErrorKind::NotFound => Ok(None),
        Err(error) => Err(file_fault(rt.alloc(), name, error)),
    }
}

/// Finds a journal that is to be read. Another program may have it open.
pub fn find_journal(rt: &HostRuntime, name: &str) -> Result<(), Fault> {
    match found_at(rt, name)? {
        Some(found) => check_file(rt.alloc(), name, &found),
        None => Err(Fault::Desk(DeskFault::Open(OpenFault::NoJournal))),
    }
}

/// Finds a journal that is to be opened, which an opening would otherwise make. What is written to it has to be written to no other
/// name.
pub fn find_own_journal(rt: &HostRuntime, name: &str) -> Result<(), Fault> {
    match found_at(rt, name)? {
        Some(found) => check_own(rt.alloc(), name, &found),
        None => Err(Fault::Desk(DeskFault::Open(OpenFault::NoJournal))),
    }
}

/// Looks whether a journal can be made: there may be a file of that name, in which it is then begun.
pub fn check_place(rt: &HostRuntime, name: &str) -> Result<(), Fault> {
    match found_at(rt, name)? {
        Some(found) => check_own(rt.alloc(), name, &found),
        None => Ok(()),
    }
}
