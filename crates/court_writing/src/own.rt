//! What a court says of itself in the place of the examples: its hours, its judges and its rooms.

ghost use Rattle.std.specs.Prelude.{◌≡◌, ◌∷◌, [], codes, map, option_map, string_bytes, IfOk};
ghost use Rattle.court_writing.specs.Own.{IsOfficeOf, OwnView, are_hours, closes_of, judges_of, opens_of, rooms_of, texts};

use std::alloc::{AllocError, Global};
use std::marker::Model;

/// What a court says in the place of an example, where it says so.
#[derive(Debug, Drop)]
pub struct CourtOwn {
    /// When the clerk's office opens, in minutes from midnight.
    pub opens: Option<u16>,
    /// When it closes.
    pub closes: Option<u16>,
    /// To when electronic filing runs on a last day, where a local rule sets it.
    pub efiling_until: Option<u16>,
    /// The judges.
    pub judges: Option<Vec<String>>,
    /// The rooms.
    pub rooms: Option<Vec<String>>,
}

impl Model for CourtOwn {
    ghost Value = { OwnView };

    ghost view = { λ o. record { opens = o.opens; closes = o.closes; efiling_until = o.efiling_until; judges = option_map (λ names. map string_bytes names.items) o.judges; rooms = option_map (λ names. map string_bytes names.items) o.rooms } };
}

/// The hours and the names that are written.
#[derive(Debug, Drop)]
pub(crate) struct Office<'a> {
    pub opens: u16,
    pub closes: u16,
    pub efiling_until: Option<u16>,
    pub judges: Vec<&'a str>,
    pub rooms: Vec<&'a str>,
}

impl CourtOwn {
    /// When the office opens: at 08:30 in the example.
    fn opens(&self) -> u16
        ensures { result ≡ opens_of self.now }
    {
        match self.opens {
            Some(opens) => opens,
            None => 510,
        }
    }

    /// When it closes: at 17:00.
    fn closes(&self) -> u16
        ensures { result ≡ closes_of self.now }
    {
        match self.closes {
            Some(closes) => closes,
            None => 1020,
        }
    }

    /// Whether it opens before it closes.
    pub(crate) fn are_hours(&self) -> bool
        ensures { result ≡ are_hours self.now }
    {
        self.opens() < self.closes()
    }

    /// What is written of the office.
    pub(crate) fn office(&self, alloc: Global) -> Result<Office<'_>, AllocError>
        ensures { IfOk result (IsOfficeOf self.now) }
    {
        Ok(Office {
            opens: self.opens(),
            closes: self.closes(),
            efiling_until: self.efiling_until,
            judges: self.judges(alloc)?,
            rooms: self.rooms(alloc)?,
        })
    }

    /// The judges.
    fn judges(&self, alloc: Global) -> Result<Vec<&str>, AllocError>
        ensures { IfOk result (λ names. texts names.items ≡ judges_of self.now) }
    {
        match &self.judges {
            Some(names) => texts_of(alloc, names),
            None => three(alloc, "Ames", "Brandt", "Calloway"),
        }
    }

    /// The rooms.
    fn rooms(&self, alloc: Global) -> Result<Vec<&str>, AllocError>
        ensures { IfOk result (λ names. texts names.items ≡ rooms_of self.now) }
    {
        match &self.rooms {
            Some(names) => texts_of(alloc, names),
            None => three(alloc, "1", "2", "3"),
        }
    }

    /// What is said of the examples that the file has.
    pub(crate) fn example_note(&self) -> &'static str {
        let are_hours = self.opens.is_none() || self.closes.is_none();
        match (are_hours, self.judges.is_none(), self.rooms.is_none()) {
            (true, true, true) => {
                "# The hours are an example, and the names of judges and rooms are invented: replace them by the court's.\n"
            }
            (true, true, false) => {
                "# The hours are an example, and the names of judges are invented: replace them by the court's.\n"
            }
            (true, false, true) => {
                "# The hours are an example, and the names of rooms are invented: replace them by the court's.\n"
            }
            (true, false, false) => "# The hours are an example: replace them by the court's.\n",
            (false, true, true) => {
                "# The names of judges and rooms are invented: replace them by the court's.\n"
            }
            (false, true, false) => {
                "# The names of judges are invented: replace them by the court's.\n"
            }
            (false, false, true) => {
                "# The names of rooms are invented: replace them by the court's.\n"
            }
            (false, false, false) => "",
        }
    }
}

/// The texts of the names.
fn texts_of(alloc: Global, names: &[String]) -> Result<Vec<&str>, AllocError>
    ensures { IfOk result (λ found. texts found.items ≡ map string_bytes names.now) }
{
    let mut found = Vec::new(alloc);
    for name in names {
        found.push(name.as_str())?;
    }
    Ok(found)
}

/// Three names.
fn three<'a>(
    alloc: Global,
    first: &'a str,
    second: &'a str,
    third: &'a str,
) -> Result<Vec<&'a str>, AllocError>
    ensures { IfOk result (λ names. texts names.items ≡ first.now ∷ second.now ∷ third.now ∷ []) }
{
    let mut names = Vec::new(alloc);
    names.push(first)?;
    names.push(second)?;
    names.push(third)?;
    Ok(names)
}
