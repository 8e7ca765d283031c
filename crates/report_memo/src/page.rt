//! A memo as a page for print. It is one file with no script, and loads nothing. Each text in it is escaped.

ghost use Rattle.std.specs.Prelude.{◌≡◌, ◌++◌, map, IfOk, OnOk};
ghost use Rattle.std.specs.List.{flat_map};
ghost use Rattle.std.specs.Str.Lines.{lines};
ghost use Rattle.report_memo.specs.Page.{line_shown, line_tag, page_content, page_text};

use page_markup::{Page, Tag, begin_page, end_page};
use std::alloc::{AllocError, Global};

/// The page of a memo with this head, and with this below it. `Err` says that memory ran out.
#[tactic(auto, unfolding(crate::specs::Page::page_text))]
pub(crate) fn page_of(alloc: Global, head: &str, body: &str) -> Result<Vec<u8>, AllocError>
    ensures { IfOk result (λ page. page.items ≡ page_text head.now body.now) }
{
    let mut page = Page::new(alloc);
    begin_page(&mut page, "Deadlines, and why")?;
    push_content(alloc, &mut page, head, body)?;
    end_page(&mut page)?;
    Ok(page.into_bytes())
}

/// Adds what the page shows.
#[tactic(auto, unfolding(crate::specs::Page::page_content))]
fn push_content(alloc: Global, page: &mut Page, head: &str, body: &str) -> Result<(), AllocError>
    ensures { OnOk result (page.new ≡ page.old ++ page_content head.now body.now) }
{
    page.text_in(Tag::Heading1, "Deadlines, and why")?;
    page.text_in(Tag::Reasons, head)?;
    push_body(alloc, page, body)
}

/// Adds the lines of a text, each in its element.
fn push_body(alloc: Global, page: &mut Page, body: &str) -> Result<(), AllocError>
    ensures { OnOk result (page.new ≡ page.old ++ flat_map line_shown (lines body.now)) }
{
    let found = lines_of(alloc, body)?;
    push_lines(page, found.as_slice())
}

/// The lines of a text.
fn lines_of(alloc: Global, text: &str) -> Result<Vec<&str>, AllocError>
    ensures { IfOk result (λ found. map (λ line. line.now) found.items ≡ lines text.now) }
{
    text.lines().collect(alloc)
}

/// Adds each of these lines in its element.
fn push_lines(page: &mut Page, texts: &[&str]) -> Result<(), AllocError>
    ensures { OnOk result (page.new ≡ page.old ++ flat_map line_shown (map (λ text. text.now) texts.now)) }
{
    for line in texts {
        push_line(page, line)?;
    }
    Ok(())
}

/// Adds a line in its element.
#[tactic(auto, unfolding(crate::specs::Page::line_shown))]
fn push_line(page: &mut Page, line: &str) -> Result<(), AllocError>
    ensures { OnOk result (page.new ≡ page.old ++ line_shown line.now) }
{
    page.text_in(line_tag(line), line)
}

/// The element of a line, by how it begins.
fn line_tag(line: &str) -> Tag
    ensures { result ≡ line_tag line.now }
{
    let line = line.as_bytes();
    if line.starts_with(b"  ") {
        Tag::Reasons
    } else if line.starts_with(b"case ") || line.starts_with(b"judge ") {
        Tag::Heading2
    } else if line.starts_with(b"deadline ") || line.starts_with(b"motion ") {
        Tag::Heading3
    } else {
        Tag::Paragraph
    }
}
