//! What comes of lines, and how many there were.
ghost use Rattle.std.specs.Prelude.{◌≡◌};
ghost use Rattle.desk_session.specs.Outcomes.{counted_with, is_held, no_lines, tally_with};
ghost use Rattle.desk_session.specs.Stopped.{stops};

/// What comes of a line.
#[derive(Clone, Copy, Debug, PartialEq, Eq)]
pub enum Outcome {
    /// There is nothing in it.
    Blank,
    /// It has a fault, so it isn't taken.
    Fault,
    /// It is taken, and what it asks for is refused.
    Refused,
    /// It is held back with a warning.
    Held,
    /// It is taken.
    Taken,
}

impl Outcome {
    // Whether the line is held back.
    pub(crate) fn is_held(&self) -> bool
        ensures { result ≡ is_held self.now }
    {
        match self {
            Outcome::Held => true,
            _ => false,
        }
    }

    // Whether a list of lines that are kept together stops at the line.
    pub(crate) fn stops(&self, keep_refused: bool) -> bool
        ensures { result ≡ stops keep_refused self.now }
    {
        match self {
            Outcome::Refused => !keep_refused,
            Outcome::Fault | Outcome::Held => true,
            _ => false,
        }
    }
}

/// How many lines had something in them, how many of these had a fault, and how many were held back. Each stops at 2^64 - 1.
#[derive(Clone, Copy, Debug, PartialEq, Eq)]
pub struct Tally {
    /// How many lines had something in them.
    pub rows: u64,
    /// How many of them had a fault.
    pub faults: u64,
    /// How many of them were held back.
    pub held: u64,
}

impl Tally {
    /// Before the first line.
    pub fn new() -> Tally
        ensures { result ≡ no_lines }
    {
        Tally {
            rows: 0,
            faults: 0,
            held: 0,
        }
    }

    /// With the tally of others.
    pub fn with(&self, more: &Tally) -> Tally
        ensures { result ≡ tally_with self.now more.now }
    {
        Tally {
            rows: self.rows.saturating_add(more.rows),
            faults: self.faults.saturating_add(more.faults),
            held: self.held.saturating_add(more.held),
        }
    }

    // With a line of which this comes.
    pub(crate) fn counted(&self, outcome: Outcome) -> Tally
        ensures { result ≡ counted_with self.now outcome }
    {
        let Tally { rows, faults, held } = *self;
        match outcome {
            Outcome::Blank => *self,
            Outcome::Fault => Tally {
                rows: rows.saturating_add(1),
                faults: faults.saturating_add(1),
                held,
            },
            Outcome::Held => Tally {
                rows: rows.saturating_add(1),
                faults,
                held: held.saturating_add(1),
            },
            Outcome::Refused | Outcome::Taken => Tally {
                rows: rows.saturating_add(1),
                faults,
                held,
            },
        }
    }
}
