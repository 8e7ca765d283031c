//! The number of a case, and its name where it has one; and what rows call cases, deadlines and motions.

ghost use Rattle.std.specs.Prelude.{◌≡◌, OnOk, option_map};
ghost use Rattle.std.specs.Option.{option_and_then};
ghost use Rattle.case_numbers.specs.Words.{name_of};
ghost use Rattle.report_json.specs.Cases.{called_case_fields, case_fields, label_fields, name_fields, title_fields};
ghost use Rattle.report_json.specs.Values.{AddsFields};

use crate::writer::JsonWriter;
use case_numbers::Cases;
use court_days::Court;
use report_texts::Labels;
use std::alloc::AllocError;

impl JsonWriter {
    /// The field of a case's number, and that of its name where it has one.
    #[tactic(auto, unfolding(crate::specs::Cases::case_fields), using(crate::proofs::TokenLemmas::more_fields))]
    pub(crate) fn case_fields(
        &mut self,
        court: &Court,
        labels: &Labels<'_>,
        case: u32,
    ) -> Result<(), AllocError>
        ensures { OnOk result (AddsFields self.old self.new (case_fields labels.now.cases case)) }
    {
        self.field(court, labels, "case", &case)?;
        self.name_if_any(labels.cases.name_of(case))
    }

    /// The field of a case's name, if there is one.
    pub(crate) fn name_if_any(&mut self, name: Option<&str>) -> Result<(), AllocError>
        ensures { OnOk result (AddsFields self.old self.new (name_fields (option_map (λ name. name.now) name.entry))) }
    {
        match name {
            Some(name) => self.text_field("case_name", name),
            None => Ok(()),
        }
    }

    /// The fields of a case's number, of its name and of what rows call it, as far as it has these.
    #[tactic(auto, using(crate::proofs::TokenLemmas::more_fields))]
    pub(crate) fn called_case_fields(
        &mut self,
        court: &Court,
        labels: &Labels<'_>,
        case: u32,
    ) -> Result<(), AllocError>
        ensures { OnOk result (AddsFields self.old self.new (called_case_fields labels.now case)) }
    {
        self.case_fields(court, labels, case)?;
        self.title_if_any(labels.called.title_of(case))
    }

    /// The field of what rows call a case, if they do.
    fn title_if_any(&mut self, title: &str) -> Result<(), AllocError>
        ensures { OnOk result (AddsFields self.old self.new (title_fields title.now)) }
    {
        if title.is_empty() {
            return Ok(());
        }
        self.text_field("title", title)
    }

    /// The field of what rows call a deadline or a motion, if they do.
    pub(crate) fn label_if_any(&mut self, label: &str) -> Result<(), AllocError>
        ensures { OnOk result (AddsFields self.old self.new (label_fields label.now)) }
    {
        if label.is_empty() {
            return Ok(());
        }
        self.text_field("label", label)
    }
}

/// The name of a case, if one is given and it has a name.
pub(crate) fn name_of_any(cases: &Cases, case: Option<u32>) -> Option<&str>
    ensures { option_map (λ name. name.now) result ≡ option_and_then (name_of cases.now.named) case }
{
    match case {
        Some(case) => cases.name_of(case),
        None => None,
    }
}
