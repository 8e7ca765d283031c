//! What is the same in all pages: how a page begins and ends. Nothing is loaded, and no script runs.

ghost use Rattle.std.specs.Prelude.{◌≡◌, ◌++◌, OnOk};
ghost use Rattle.page_markup.specs.Frame.{after_content, before_content, head, settings, style};

use crate::page::Page;
use crate::style::STYLE;
use crate::tag::Tag;
use std::alloc::AllocError;

const DOCTYPE: &str = "<!DOCTYPE html>\n";

const CHARSET: &str = "<meta charset=\"utf-8\">\n";

// Nothing is loaded, no script runs, and the page's own style alone holds (Content Security Policy, level 3).
const POLICY: &str =
    "<meta http-equiv=\"Content-Security-Policy\" content=\"default-src 'none'; style-src 'unsafe-inline'; base-uri 'none'; form-action 'none'\">\n";

// As wide as the screen is, on a phone too.
const VIEWPORT: &str = "<meta name=\"viewport\" content=\"width=device-width, initial-scale=1\">\n";

/// Adds what comes before that which a page shows. `Err` says that memory ran out.
#[tactic(auto, unfolding(crate::specs::Frame::before_content))]
pub fn begin_page(page: &mut Page, title: &str) -> Result<(), AllocError>
    ensures { OnOk result (page.new ≡ page.old ++ before_content title.now) }
{
    page.markup(DOCTYPE)?;
    page.open(Tag::Page)?;
    push_head(page, title)?;
    page.open(Tag::Body)?;
    page.open(Tag::Main)
}

/// Adds what comes after it. `Err` says that memory ran out.
#[tactic(auto, unfolding(crate::specs::Frame::after_content))]
pub fn end_page(page: &mut Page) -> Result<(), AllocError>
    ensures { OnOk result (page.new ≡ page.old ++ after_content) }
{
    page.close(Tag::Main)?;
    page.close(Tag::Body)?;
    page.close(Tag::Page)
}

/// Adds what is said of the page.
#[tactic(auto, unfolding(crate::specs::Frame::head))]
fn push_head(page: &mut Page, title: &str) -> Result<(), AllocError>
    ensures { OnOk result (page.new ≡ page.old ++ head title.now) }
{
    page.open(Tag::Head)?;
    push_settings(page)?;
    push_style(page)?;
    page.text_in(Tag::Title, title)?;
    page.close(Tag::Head)
}

// Adds how the page is read.
#[tactic(auto, unfolding(crate::specs::Frame::settings))]
fn push_settings(page: &mut Page) -> Result<(), AllocError>
    ensures { OnOk result (page.new ≡ page.old ++ settings) }
{
    page.markup(CHARSET)?;
    page.markup(POLICY)?;
    page.markup(VIEWPORT)
}

// Adds how it looks.
#[tactic(auto, unfolding(crate::specs::Frame::style))]
fn push_style(page: &mut Page) -> Result<(), AllocError>
    ensures { OnOk result (page.new ≡ page.old ++ style) }
{
    page.open(Tag::Style)?;
    page.markup(STYLE)?;
    page.close(Tag::Style)
}
