//! What was counted of a journal's sessions.
use anyhow::Result;
use std::alloc::Global;

/// How many sessions there were, how many files were opened that a crash may leave, how many of these had the batch that was
/// being kept, how many were opened on disks that fail, of how many changed bytes the damage was found and how many change nothing,
/// and what wasn't as it must be.
#[derive(Drop)]
pub struct Tally {
    pub sessions: u64,
    pub files: u64,
    pub newer: u64,
    pub openings: u64,
    pub found: u64,
    pub harmless: u64,
    pub wrong: Option<String>,
}

impl Tally {
    /// Nothing yet.
    pub fn new() -> Tally {
        Tally {
            sessions: 0,
            files: 0,
            newer: 0,
            openings: 0,
            found: 0,
            harmless: 0,
            wrong: None,
        }
    }

    /// Counts a file, and whether it has the batch that was being kept.
    pub fn count_file(&mut self, newer: bool) {
        self.files = self.files.saturating_add(1);
        if newer {
            self.newer = self.newer.saturating_add(1);
        }
    }

    /// Counts a file that is opened on disks that fail.
    pub fn count_opening(&mut self) {
        self.openings = self.openings.saturating_add(1);
    }

    /// Counts a changed byte whose damage is found.
    pub fn count_found(&mut self) {
        self.found = self.found.saturating_add(1);
    }

    /// Counts a changed byte with which all entries are read.
    pub fn count_harmless(&mut self) {
        self.harmless = self.harmless.saturating_add(1);
    }

    /// Counts a session.
    pub fn count_session(&mut self) {
        self.sessions = self.sessions.saturating_add(1);
    }

    /// Keeps what wasn't as it must be, where it is the first.
    pub fn note(&mut self, alloc: Global, what: &str) -> Result<()> {
        if self.wrong.is_none() {
            let calls = self.sessions;
            self.wrong = Some(format!(in alloc; "after {calls} calls: {what}")?);
        }
        Ok(())
    }
}
