//! What the page comes to.

ghost use Rattle.report_page.specs.Page.{ContentIsMarkup};
ghost use Rattle.report_page.specs.Pending.{PendingIsMarkup};

/// What a page shows is made of elements and escaped texts alone.
#[tactic(auto, using(crate::proofs::MarkupLemmas::content_is_markup))]
pub fn content_is_markup()
    ensures { ContentIsMarkup }
{}

/// What the page of what has been pending for long shows is made of elements and escaped texts alone.
#[tactic(auto, using(crate::proofs::PendingLemmas::pending_is_markup))]
pub fn pending_is_markup()
    ensures { PendingIsMarkup }
{}
