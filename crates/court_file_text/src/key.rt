//! The keys of a court's file.

ghost use Rattle.std.specs.Prelude.{◌≡◌, Some};
ghost use Rattle.court_file_text.specs.Key.{key_name};

use std::fmt;

/// A key of the court's file. The keys are listed in the order in which they are read.
#[derive(Clone, Copy, Debug, PartialEq, Eq)]
pub enum Key {
    /// The court's zone: an offset from Greenwich, or a POSIX rule.
    Zone,
    /// When the clerk's office is scheduled to open.
    Opens,
    /// When the clerk's office is scheduled to close.
    Closes,
    /// The first day that the calendar covers.
    From,
    /// The last day that the calendar covers.
    To,
    /// The holidays of the federal list, as observed.
    Federal,
    /// The holidays of the state list, as observed.
    State,
    /// The judges' names.
    Judges,
    /// The rooms' names.
    Rooms,
    /// The minute to which electronic filing runs on a last day. The desk alone reads it, and it may be missing.
    EfilingUntil,
}

impl Key {
    /// The key as it is written in the file.
    pub fn name(self) -> &'static str
        ensures { result.now ≡ key_name self }
    {
        match self {
            Key::Zone => "zone",
            Key::Opens => "opens",
            Key::Closes => "closes",
            Key::From => "from",
            Key::To => "to",
            Key::Federal => "federal",
            Key::State => "state",
            Key::Judges => "judges",
            Key::Rooms => "rooms",
            Key::EfilingUntil => "efiling_until",
        }
    }
}

/// Writes the key as it is written in the file.
impl fmt::Display for Key {
    ghost output = { λ k. Some (key_name k) };

    fn fmt<W: fmt::Write>(&self, f: &mut fmt::Formatter<W>) -> fmt::Result {
        f.write_str(self.name())
    }
}
