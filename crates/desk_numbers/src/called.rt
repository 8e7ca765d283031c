//! What rows call cases, deadlines and motions.
ghost use Rattle.std.specs.Prelude.{◌≡◌, ◌++◌, ◌∷◌, [], OnOk, slice_index_or, string_bytes};
ghost use Rattle.desk_numbers.specs.Called.{CalledView, label_of, lengthened, put, same_subject, text_among, text_then, title_of, with_called};

use docket_rows::Counted;
use std::alloc::{AllocError, Global};
use std::marker::Model;

/// A text, and what it calls so.
#[derive(Debug, Drop)]
pub struct Called {
    case: u32,
    subject: Option<(Counted, u32)>,
    text: String,
}

impl Model for Called {
    ghost Value = { CalledView };

    ghost view = { λ c. record { case = c.case; subject = c.subject; text = string_bytes c.text } };
}

impl Called {
    /// What a case is called, or a deadline or a motion of it: which of the two, and its number, counted from 1.
    pub fn new(case: u32, subject: Option<(Counted, u32)>, text: String) -> Called
        ensures { result ≡ record { case = case; subject = subject; text = string_bytes text } }
    {
        Called {
            case,
            subject,
            text,
        }
    }
}

// The texts of a case, in the order of the rows.
#[derive(Debug, Drop)]
struct CaseTexts {
    list: Vec<Called>,
}

impl Model for CaseTexts {
    ghost use Rattle.std.specs.Prelude.{List};
    ghost use Rattle.desk_numbers.specs.Called.{CalledView};

    ghost Value = { List CalledView };

    ghost view = { λ t. t.list.items };
}

impl CaseTexts {
    // None.
    fn new(alloc: Global) -> CaseTexts
        ensures { result ≡ [] }
    {
        CaseTexts {
            list: Vec::new(alloc),
        }
    }

    // What they are.
    fn as_slice(&self) -> &[Called]
        ensures { result.now ≡ self.now }
    {
        &self.list
    }

    // Adds one. `Err` says that memory ran out.
    fn push(&mut self, called: Called) -> Result<(), AllocError>
        ensures { OnOk result (self.new ≡ self.old ++ called ∷ []) }
    {
        self.list.push(called)?;
        Ok(())
    }
}

// Whether both are of the case itself, or of one deadline of it, or of one motion.
fn same_subject(one: Option<(Counted, u32)>, other: Option<(Counted, u32)>) -> bool
    ensures { result ≡ same_subject one other }
{
    match one {
        Some((counted, number)) => match other {
            Some((kind, at)) => counted.is_like(kind) && number == at,
            None => false,
        },
        None => match other {
            Some(_) => false,
            None => true,
        },
    }
}

// What it is called, after one more text of its case.
fn text_then<'a>(before: &'a str, subject: Option<(Counted, u32)>, called: &'a Called) -> &'a str
    ensures { result.now ≡ text_then subject before.now called.now }
{
    if same_subject(called.subject, subject) {
        called.text.as_str()
    } else {
        before
    }
}

// What it is called by these texts of its case: the last of it counts.
#[tactic(auto, unfolding(crate::specs::Called::text_among))]
fn text_among(list: &[Called], subject: Option<(Counted, u32)>) -> &str
    ensures { result.now ≡ text_among list.now subject }
{
    let mut text: &str = "";
    for called in list {
        text = text_then(text, subject, called);
    }
    text
}

// Lengthens the lists to one for each of this many numbers.
fn lengthen(alloc: Global, cases: &mut Vec<CaseTexts>, count: usize) -> Result<(), AllocError>
    ensures { OnOk result (cases.new.items ≡ lengthened cases.old.items count) }
{
    'slots: while cases.len() < count {
        cases.push(CaseTexts::new(alloc))?;
    }
    Ok(())
}

// Adds a text to the list of its case, if there is one.
#[tactic(auto, using(std::proofs::lemmas::List::set_past))]
fn put(cases: &mut [CaseTexts], called: Called) -> Result<(), AllocError>
    ensures { OnOk result (cases.new ≡ put cases.old called) }
{
    let number = called.case as usize;
    if number >= cases.len() {
        return Ok(());
    }
    let case = &mut cases[number];
    case.push(called)
}

/// What cases, deadlines and motions are called. What is asked for one of them costs no more than what rows said of its case.
#[derive(Debug, Drop)]
pub struct CalledTexts {
    // By the number of the case, counted from 0.
    cases: Vec<CaseTexts>,
}

impl Model for CalledTexts {
    ghost use Rattle.desk_numbers.specs.Called.{TextsView};

    ghost Value = { TextsView };

    ghost view = { λ t. t.cases.items };
}

impl CalledTexts {
    /// No texts.
    pub fn new(alloc: Global) -> CalledTexts
        ensures { result ≡ [] }
    {
        CalledTexts {
            cases: Vec::new(alloc),
        }
    }

    /// Adds a text, which takes the place of what the same thing was called before. `Err` says that memory ran out.
    #[tactic(auto, unfolding(crate::specs::Called::with_called))]
    pub fn add(&mut self, alloc: Global, called: Called) -> Result<(), AllocError>
        ensures { OnOk result (self.new ≡ with_called self.old called) }
    {
        lengthen(alloc, &mut self.cases, called.case as usize + 1)?;
        put(&mut self.cases, called)
    }

    // The texts of a case.
    fn of_case(&self, case: u32) -> &[Called]
        ensures { result.now ≡ slice_index_or self.now case [] }
    {
        match self.cases.get(case as usize) {
            Some(texts) => texts.as_slice(),
            None => &[],
        }
    }

    /// What the case of that number is called; empty where no row says it.
    pub fn title_of(&self, case: u32) -> &str
        ensures { result.now ≡ title_of self.now case }
    {
        text_among(self.of_case(case), None)
    }

    /// What a deadline or a motion of a case is called, by its number, counted from 1; empty where no row says it.
    pub fn label_of(&self, case: u32, counted: Counted, number: u32) -> &str
        ensures { result.now ≡ label_of self.now case counted number }
    {
        text_among(self.of_case(case), Some((counted, number)))
    }
}
