//! A page, to which elements and texts are added.

ghost use Rattle.std.specs.Prelude.{◌≡◌, ◌++◌, [], OnOk, ℕ, List};
ghost use Rattle.std.specs.Fmt.{decimal};
ghost use Rattle.page_markup.specs.Elements.{attributes, closing, opening, text_in};
ghost use Rattle.page_markup.specs.Escaping.{escaped};

use crate::escaping::push_escaped;
use crate::tag::{Tag, end_of_line, tag_name};
use std::alloc::{AllocError, Global};
use std::marker::Model;

/// A page so far. Where memory runs out, what was added so far stays.
#[derive(Debug, Drop)]
pub struct Page {
    bytes: Vec<u8>,
}

impl Model for Page {
    ghost use Rattle.std.specs.Prelude.{ℕ, List};

    ghost Value = { List ℕ };

    ghost view = { λ p. p.bytes.items };
}

impl Page {
    /// A page with nothing in it.
    pub fn new(alloc: Global) -> Page
        ensures { result ≡ [] }
    {
        Page {
            bytes: Vec::new(alloc),
        }
    }

    /// The bytes of the page.
    pub fn into_bytes(self) -> Vec<u8>
        ensures { result.items ≡ self }
    {
        let Page { bytes } = self;
        bytes
    }

    /// Begins an element. `Err` says that memory ran out.
    #[tactic(auto, unfolding(crate::specs::Elements::opening))]
    pub fn open(&mut self, tag: Tag) -> Result<(), AllocError>
        ensures { OnOk result (self.new ≡ self.old ++ opening tag) }
    {
        self.bytes.extend_from_slice(b"<")?;
        self.bytes.extend_from_slice(tag_name(tag).as_bytes())?;
        push_attributes(&mut self.bytes, tag)?;
        self.bytes.extend_from_slice(b">")
    }

    /// Ends an element. `Err` says that memory ran out.
    #[tactic(auto, unfolding(crate::specs::Elements::closing))]
    pub fn close(&mut self, tag: Tag) -> Result<(), AllocError>
        ensures { OnOk result (self.new ≡ self.old ++ closing tag) }
    {
        self.bytes.extend_from_slice(b"</")?;
        self.bytes.extend_from_slice(tag_name(tag).as_bytes())?;
        self.bytes.extend_from_slice(b">")?;
        self.bytes.extend_from_slice(end_of_line(tag).as_bytes())
    }

    /// Adds a text, escaped. `Err` says that memory ran out.
    pub fn text(&mut self, text: &str) -> Result<(), AllocError>
        ensures { OnOk result (self.new ≡ self.old ++ escaped text.now) }
    {
        push_escaped(&mut self.bytes, text)
    }

    /// Adds an element with a text in it, which is escaped. `Err` says that memory ran out.
    #[tactic(auto, unfolding(crate::specs::Elements::text_in))]
    pub fn text_in(&mut self, tag: Tag, text: &str) -> Result<(), AllocError>
        ensures { OnOk result (self.new ≡ self.old ++ text_in tag text.now) }
    {
        self.open(tag)?;
        self.text(text)?;
        self.close(tag)
    }

    /// Adds markup as it is. It is for what is the same in all pages, and never for a text of the input.
    pub fn markup(&mut self, markup: &'static str) -> Result<(), AllocError>
        ensures { OnOk result (self.new ≡ self.old ++ markup.now) }
    {
        self.bytes.extend_from_slice(markup.as_bytes())
    }
}

/// Adds what a tag says of its element.
fn push_attributes(bytes: &mut Vec<u8>, tag: Tag) -> Result<(), AllocError>
    ensures { OnOk result (bytes.new.items ≡ bytes.old.items ++ attributes tag) }
{
    match tag {
        Tag::Page => bytes.extend_from_slice(b" lang=\"en\""),
        Tag::CaseSection(case) => push_numbered(bytes, b" id=\"case-", case, b"\""),
        Tag::CaseLink(case) => push_numbered(bytes, b" href=\"#case-", case, b"\""),
        Tag::Bar(percent) => {
            push_numbered(bytes, b" class=\"bar\" style=\"width: ", percent, b"%\"")
        }
        Tag::ColumnHead => bytes.extend_from_slice(b" scope=\"col\""),
        Tag::DayHead => bytes.extend_from_slice(b" class=\"day\" scope=\"col\" colspan=\"3\""),
        Tag::WeekHead => bytes.extend_from_slice(b" class=\"day\" scope=\"col\" colspan=\"4\""),
        Tag::RowHead => bytes.extend_from_slice(b" scope=\"row\""),
        Tag::LateCell => bytes.extend_from_slice(b" class=\"late\""),
        Tag::Note => bytes.extend_from_slice(b" class=\"note\""),
        Tag::WideCell => bytes.extend_from_slice(b" colspan=\"4\""),
        Tag::Reasons => bytes.extend_from_slice(b" class=\"reasons\""),
        Tag::Grid => bytes.extend_from_slice(b" class=\"grid\""),
        Tag::DateCell => bytes.extend_from_slice(b" class=\"date\""),
        Tag::OutCell => bytes.extend_from_slice(b" class=\"out\""),
        Tag::Block => bytes.extend_from_slice(b" class=\"block\""),
        Tag::LoadHead => bytes.extend_from_slice(b" class=\"load\" scope=\"row\""),
        _ => Ok(()),
    }
}

/// Adds an attribute that has a number.
fn push_numbered(
    bytes: &mut Vec<u8>,
    front: &[u8],
    number: u32,
    back: &[u8],
) -> Result<(), AllocError>
    ensures { OnOk result (bytes.new.items ≡ bytes.old.items ++ (front.now ++ decimal number ++ back.now)) }
{
    bytes.extend_from_slice(front)?;
    bytes.extend_from_slice(itoa::Buffer::new().format(number).as_bytes())?;
    bytes.extend_from_slice(back)
}
