//! The text as it is written, line by line.

use crate::places::{Mark, Part, Place, Places, place_at};
use crate::report::report::Report;
use crate::warnings::slips::day_of_item;
use court_clock::Day;
use court_file_text::Key;
use std::alloc::{AllocError, Global};
use toml::{Table, Value};

/// The most bytes of the file that a line shows.
const MOST_SHOWN: usize = 60;

/// The lines so far, of the file with this name and these bytes.
#[derive(Drop)]
pub(crate) struct Sheet<'a> {
    alloc: Global,
    name: &'a str,
    bytes: &'a [u8],
    file: Option<&'a Table>,
    places: Places,
    /// The lines.
    pub text: String,
    /// How many faults or warnings they tell.
    pub count: usize,
}

impl<'a> Sheet<'a> {
    /// No lines. The document is none where the bytes are no TOML.
    pub fn new(
        alloc: Global,
        name: &'a str,
        bytes: &'a [u8],
        file: Option<&'a Table>,
    ) -> Result<Sheet<'a>, AllocError> {
        Ok(Sheet {
            alloc,
            name,
            bytes,
            file,
            places: Places::of(alloc, bytes)?,
            text: String::new(alloc),
            count: 0,
        })
    }

    /// What gives memory.
    pub fn alloc(&self) -> Global {
        self.alloc
    }

    /// The bytes of the file.
    pub fn bytes(&self) -> &'a [u8] {
        self.bytes
    }

    /// Where a part of a key is.
    pub fn find(&self, key: Key, part: Part) -> Option<Mark> {
        self.places.find(key, part)
    }

    /// Where a value or an item is. Where it is a text, that is what the file reads there.
    fn read(&self, key: Key, part: Part) -> Result<Option<Mark>, AllocError> {
        match self.file {
            Some(file) => self.places.read(self.alloc, self.bytes, file, key, part),
            None => Ok(None),
        }
    }

    /// Where the value of a key is, or else its key or a header with its name.
    pub fn value_mark(&self, key: Key) -> Result<Option<Mark>, AllocError> {
        if let Some(mark) = self.read(key, Part::Value)? {
            return Ok(Some(mark));
        }
        match self.find(key, Part::Key) {
            Some(mark) => Ok(Some(mark)),
            None => Ok(self.find(key, Part::Header)),
        }
    }

    /// Where the item of a key's list is, if the fault or the warning is at one, or else its value.
    pub fn mark_of(&self, key: Key, item: Option<usize>) -> Result<Option<Mark>, AllocError> {
        if let Some(number) = item {
            if let Some(mark) = self.read(key, Part::Item(number))? {
                return Ok(Some(mark));
            }
        }
        self.value_mark(key)
    }

    /// What the file has at a mark, cut where it is long or goes on in another line.
    pub fn shown(&self, mark: Option<Mark>) -> &'a str {
        match mark {
            Some(mark) => shown(self.bytes, mark.start, mark.end),
            None => "",
        }
    }

    /// The place of a mark.
    pub fn place(&self, mark: Option<Mark>) -> Option<Place> {
        match mark {
            Some(mark) => Some(place_at(self.bytes, mark.start)),
            None => None,
        }
    }

    /// Begins a line of a fault at a place, if it has one.
    pub fn begin(&mut self, place: Option<Place>) -> Result<(), AllocError> {
        self.count = self.count.saturating_add(1);
        self.text.push_str(self.name)?;
        if let Some(place) = place {
            write!(self.text, ":{place}")?;
        }
        self.text.push_str(": ")
    }

    /// Begins a line of a fault of a key.
    pub fn begin_fault(&mut self, key: Key, mark: Option<Mark>) -> Result<(), AllocError> {
        self.begin(self.place(mark))?;
        write!(self.text, "{key}: ")
    }

    /// Begins a line of a warning of a key.
    pub fn begin_warning(&mut self, key: Key, mark: Option<Mark>) -> Result<(), AllocError> {
        self.begin(self.place(mark))?;
        write!(self.text, "warning: {key}: ")
    }

    /// Begins a line of a fault at an item of a key's list, or else at its value, and gives what the file has there.
    pub fn fault_at(&mut self, key: Key, item: Option<usize>) -> Result<&'a str, AllocError> {
        let mark = self.mark_of(key, item)?;
        self.begin_fault(key, mark)?;
        Ok(self.shown(mark))
    }

    /// The same of a warning.
    pub fn warning_at(&mut self, key: Key, item: Option<usize>) -> Result<&'a str, AllocError> {
        let mark = self.mark_of(key, item)?;
        self.begin_warning(key, mark)?;
        Ok(self.shown(mark))
    }

    /// Ends a line with this text.
    pub fn end(&mut self, text: &str) -> Result<(), AllocError> {
        self.text.push_str(text)?;
        self.text.push_str("\n")
    }

    /// The last lines of a file with faults, of which this is the first, as this program tells it.
    pub fn end_faults(&mut self, program: &str, first: &str) -> Result<(), AllocError> {
        let count = self.count;
        let faults = if count == 1 { "fault" } else { "faults" };
        self.text.push_str(self.name)?;
        write!(
            self.text,
            ": {count} {faults}. {program} refuses the file with: court fault {first}\n"
        )?;
        self.text.push_str(
            "Mend what is named above and check again. Warnings come once there is no fault.\n",
        )
    }

    /// The last line of a file without faults, which `clerk_office` refuses for this fault, or takes.
    pub fn end_warnings(&mut self, office: Option<&str>) -> Result<(), AllocError> {
        match office {
            Some(fault) => self.end_taken_by_docket(fault),
            None => self.end_taken(),
        }
    }

    /// The same where both programs take it.
    fn end_taken(&mut self) -> Result<(), AllocError> {
        let count = self.count;
        self.text.push_str(self.name)?;
        if count == 0 {
            return self.text.push_str(": nothing found\n");
        }
        let warnings = if count == 1 { "warning" } else { "warnings" };
        write!(
            self.text,
            ": no fault, {count} {warnings}. clerk_office takes the file as it is: see that each of them is meant.\n"
        )
    }

    /// The same where `docket` alone does.
    fn end_taken_by_docket(&mut self, fault: &str) -> Result<(), AllocError> {
        let count = self.count;
        self.text.push_str(self.name)?;
        if count == 0 {
            self.text.push_str(": nothing found")?;
        } else {
            let warnings = if count == 1 { "warning" } else { "warnings" };
            write!(
                self.text,
                ": no fault, {count} {warnings}: see that each of them is meant"
            )?;
        }
        write!(
            self.text,
            ". docket takes the file, and clerk_office refuses the file with: court fault {fault}\n"
        )
    }

    /// The report of a file with faults.
    pub fn faulty(self) -> Report {
        let Sheet { text, count, .. } = self;
        Report {
            text,
            faults: count,
            warnings: 0,
        }
    }

    /// The report of a file without.
    pub fn taken(self) -> Report {
        let Sheet { text, count, .. } = self;
        Report {
            text,
            faults: 0,
            warnings: count,
        }
    }
}

/// The text of the bytes from the first of these up to the second, cut where it is long or goes on in another line.
pub(crate) fn shown(bytes: &[u8], start: usize, end: usize) -> &str {
    let end = end.min(start.saturating_add(MOST_SHOWN));
    let Some(part) = bytes.get(start..end) else {
        return "";
    };
    let line = match part
        .iter()
        .position(|byte| *byte == b'\n' || *byte == b'\r')
    {
        Some(at) => part.get(..at).unwrap_or(part),
        None => part,
    };
    match std::str::from_utf8(line) {
        Ok(text) => text,
        Err(error) => match line.get(..error.valid_up_to()) {
            Some(front) => std::str::from_utf8(front).unwrap_or(""),
            None => "",
        },
    }
}

/// The number of the first item of a key's list that is this date.
pub(crate) fn item_of(file: &Table, key: Key, day: Day) -> Option<usize> {
    let values = file.get(key.name()).and_then(Value::as_array)?;
    values
        .iter()
        .position(|value| day_of_item(value) == Some(day))
}

/// The number of the first item of a key's list that is a later date of the span.
pub(crate) fn item_after(file: &Table, key: Key, day: Day) -> Option<usize> {
    let values = file.get(key.name()).and_then(Value::as_array)?;
    let last = day_of_item(file.get(Key::To.name())?)?;
    values.iter().position(|value| is_between(value, day, last))
}

/// Whether the item is a date after the first of these days, and not after the second.
fn is_between(value: &Value, first: Day, last: Day) -> bool {
    match day_of_item(value) {
        Some(day) => first.number() < day.number() && day.number() <= last.number(),
        None => false,
    }
}
