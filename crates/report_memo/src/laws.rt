//! What the definitions of a memo come to.

ghost use Rattle.report_memo.specs.Page.{PageIsMarkup};
ghost use Rattle.report_memo.specs.States.{MarginsSayTheState};

/// What is said of an act begins with the state that the sheet shows of its deadline, so that the two lines of a memo agree.
pub fn margins_say_the_state()
    ensures { MarginsSayTheState }
{}

/// What the page of a memo shows is made of elements and escaped texts alone.
#[tactic(auto, using(crate::proofs::PageLemmas::page_is_markup))]
pub fn page_is_markup()
    ensures { PageIsMarkup }
{}
