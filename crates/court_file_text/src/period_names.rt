//! The names that a court's file gives to periods which are entered, and short ones of judges and rooms.

ghost use Rattle.std.specs.Prelude.{◌≡◌, ◌++◌, [], IfOk, Ok, OnOk, codes, option_map, string_bytes};
ghost use Rattle.std.specs.List.{list_all};
ghost use Rattle.toml.specs.View.{table_view, view};
ghost use Rattle.court_file_text.specs.PeriodNames.{PeriodNamesView, is_printed, is_printed_byte, cites_if, named_by, no_period_names, period_names, table_at, text_named, texts_among, texts_if};
ghost use Rattle.court_file_text.specs.Reading.{Gives};

use crate::fault::CourtFault;
use crate::reading::is_name;
use std::alloc::{AllocError, Global};
use std::marker::Model;
use toml::{Table, Value};

/// A name, and the text that it stands for.
#[derive(Debug, Drop)]
pub struct NamedText {
    name: String,
    text: String,
}

impl Model for NamedText {
    ghost use Rattle.std.specs.Prelude.{string_bytes};
    ghost use Rattle.court_file_text.specs.PeriodNames.{NamedTextView};

    ghost Value = { NamedTextView };

    ghost view = { λ n. record { name = string_bytes n.name; text = string_bytes n.text } };
}

impl NamedText {
    /// The text with that name.
    fn new(name: String, text: String) -> NamedText
        ensures { result ≡ record { name = string_bytes name; text = string_bytes text } }
    {
        NamedText { name, text }
    }

    /// The name.
    pub fn name(&self) -> &str
        ensures { result.now ≡ self.now.name }
    {
        self.name.as_str()
    }

    /// The text.
    pub fn text(&self) -> &str
        ensures { result.now ≡ self.now.text }
    {
        self.text.as_str()
    }
}

/// The names of a court's periods: the text of each, and where it is from; those of sets of periods; and the short names of judges and
/// rooms.
#[derive(Debug, Drop)]
pub struct PeriodNames {
    texts: Vec<NamedText>,
    cites: Vec<NamedText>,
    triggers: Vec<NamedText>,
    shorts: Vec<NamedText>,
}

impl Model for PeriodNames {
    ghost use Rattle.court_file_text.specs.PeriodNames.{PeriodNamesView};

    ghost Value = { PeriodNamesView };

    ghost view = { λ p. record { texts = p.texts.items; cites = p.cites.items; triggers = p.triggers.items; shorts = p.shorts.items } };
}

impl PeriodNames {
    /// None.
    pub fn none(alloc: Global) -> PeriodNames
        ensures { result ≡ no_period_names }
    {
        PeriodNames {
            texts: Vec::new(alloc),
            cites: Vec::new(alloc),
            triggers: Vec::new(alloc),
            shorts: Vec::new(alloc),
        }
    }

    /// The texts of the periods, in the order of the file.
    pub fn texts(&self) -> &[NamedText]
        ensures { result.now ≡ self.now.texts }
    {
        &self.texts
    }

    /// The text of the period with this name, as it is entered.
    pub fn text(&self, name: &str) -> Option<&str>
        ensures { option_map (λ text. text.now) result ≡ text_named self.now.texts name.now }
    {
        text_named(&self.texts, name)
    }

    /// Where the period with this name is from, if the file says it.
    pub fn cite(&self, name: &str) -> Option<&str>
        ensures { option_map (λ text. text.now) result ≡ text_named self.now.cites name.now }
    {
        text_named(&self.cites, name)
    }

    /// The text of the set of periods with this name, commas between them.
    pub fn trigger(&self, name: &str) -> Option<&str>
        ensures { option_map (λ text. text.now) result ≡ text_named self.now.triggers name.now }
    {
        text_named(&self.triggers, name)
    }

    /// The name of the judge or the room with this short name.
    pub fn long_name(&self, short: &str) -> Option<&str>
        ensures { option_map (λ text. text.now) result ≡ text_named self.now.shorts short.now }
    {
        text_named(&self.shorts, short)
    }
}

/// The names that a document gives to periods, in its table `periods`, to sets of them, in its table `triggers`, and to judges and rooms
/// for short, in its table `short_names`. Passed over are an entry whose name isn't one of 1 to 32 letters, digits, `-`, `_` and `.`, and
/// one whose value is no text, is empty or has an ASCII control character. `OutOfMemory` where memory
/// ran out, and no other fault.
pub fn period_names_of(alloc: Global, document: &Table) -> Result<PeriodNames, CourtFault>
    ensures { Gives (λ names. names) result (Ok (period_names (table_view document.now))) }
{
    match names_in(alloc, document) {
        Ok(names) => Ok(names),
        Err(_) => Err(CourtFault::OutOfMemory),
    }
}

// The same, where memory alone may run out.
#[tactic(auto, unfolding(crate::specs::PeriodNames::period_names))]
fn names_in(alloc: Global, document: &Table) -> Result<PeriodNames, AllocError>
    ensures { IfOk result (λ names. names ≡ period_names (table_view document.now)) }
{
    let periods = table_at(document, "periods");
    let texts = texts_if(alloc, periods)?;
    let cites = cites_if(alloc, periods)?;
    let triggers = texts_if(alloc, table_at(document, "triggers"))?;
    let shorts = texts_if(alloc, table_at(document, "short_names"))?;
    Ok(PeriodNames {
        texts,
        cites,
        triggers,
        shorts,
    })
}

// Where the periods of a table are from, where there is one.
fn cites_if(alloc: Global, table: Option<&Table>) -> Result<Vec<NamedText>, AllocError>
    ensures { IfOk result (λ cites. cites.items ≡ cites_if (option_map (λ found. table_view found.now) table.entry)) }
{
    match table {
        Some(table) => texts_if(alloc, table_at(table, "cite")),
        None => Ok(Vec::new(alloc)),
    }
}

// The table at a key, where there is one.
fn table_at<'a>(table: &'a Table, key: &str) -> Option<&'a Table>
    ensures { option_map (λ found. table_view found.now) result ≡ table_at key.now (table_view table.now) }
{
    match table.get(key) {
        Some(value) => value.as_table(),
        None => None,
    }
}

// What a table names, where there is one.
fn texts_if(alloc: Global, table: Option<&Table>) -> Result<Vec<NamedText>, AllocError>
    ensures { IfOk result (λ texts. texts.items ≡ texts_if (option_map (λ found. table_view found.now) table.entry)) }
{
    match table {
        Some(table) => texts_in(alloc, table),
        None => Ok(Vec::new(alloc)),
    }
}

// What the entries of a table name, in its order.
#[tactic(auto, unfolding(crate::specs::PeriodNames::texts_among))]
fn texts_in(alloc: Global, table: &Table) -> Result<Vec<NamedText>, AllocError>
    ensures { IfOk result (λ texts. texts.items ≡ texts_among (table_view table.now)) }
{
    let mut texts = Vec::new(alloc);
    for (key, value) in table.iter() {
        push_named(alloc, &mut texts, key.as_str(), value)?;
    }
    Ok(texts)
}

// Adds what an entry names, if it names something.
fn push_named(
    alloc: Global,
    texts: &mut Vec<NamedText>,
    name: &str,
    value: &Value,
) -> Result<(), AllocError>
    ensures { OnOk result (texts.new.items ≡ texts.old.items ++ named_by name.now (view value.now)) }
{
    match value.as_str() {
        Some(text) if is_name(name) && is_printed(text) => {
            let name = String::from_str(alloc, name)?;
            texts.push(NamedText::new(name, String::from_str(alloc, text)?))?;
            Ok(())
        }
        _ => Ok(()),
    }
}

/// Whether a text can be shown in a line: it isn't empty, and has no ASCII control character.
pub fn is_printed(text: &str) -> bool
    ensures { result ≡ is_printed text.now }
{
    !text.is_empty() && are_printed(text.as_bytes())
}

// Whether no byte is that of a control character.
fn are_printed(text: &[u8]) -> bool
    ensures { result ≡ list_all is_printed_byte text.now }
{
    text.iter().all(|b| is_printed_byte(*b))
}

// Whether a byte is that of no control character.
fn is_printed_byte(b: u8) -> bool
    ensures { result ≡ is_printed_byte b }
{
    b >= 32 && b != 127
}

// The first text that has this name, if one has it.
fn text_named<'a>(texts: &'a [NamedText], name: &str) -> Option<&'a str>
    ensures { option_map (λ text. text.now) result ≡ text_named texts.now name.now }
{
    match texts {
        [] => None,
        [named, rest @ ..] => {
            if named.name().as_bytes() == name.as_bytes() {
                return Some(named.text());
            }
            text_named(rest, name)
        }
    }
}
