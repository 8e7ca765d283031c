//! What is written with what rows call cases, deadlines and motions.

ghost use Rattle.std.specs.Prelude.{[], ◌∷◌, ℕ, OnOk, map};
ghost use Rattle.std.specs.List.{flat_map};
ghost use Rattle.json.specs.Json.{Json};
ghost use Rattle.json.specs.Tree.{json_tokens};
ghost use Rattle.court_days.specs.Words.{CourtView};
ghost use Rattle.report_texts.specs.Words.{LabelsView};
ghost use Rattle.report_json.specs.Values.{Adds, AddsFields, AddsValue, array_of, field};

use crate::writer::JsonWriter;
use court_days::Court;
use report_texts::Labels;
use std::alloc::AllocError;

/// What can be written as a JSON value, with what rows call it.
pub(crate) trait ToCalled {
    // Its value, in that court and in the case of that number.
    ghost value: { CourtView → LabelsView → ℕ → Self → Json };

    /// Writes the value. What says its case itself passes over the number of the case. `Err` says that memory ran out.
    fn write_called(
        &self,
        out: &mut JsonWriter,
        court: &Court,
        labels: &Labels<'_>,
        case: u32,
    ) -> Result<(), AllocError>
        ensures { OnOk result (AddsValue out.old out.new (value court.now labels.now case self.now)) };
}

impl JsonWriter {
    /// A field whose value is an array of such values.
    #[tactic(auto, unfolding(crate::specs::Values::field_tokens))]
    pub(crate) fn called_field<T: ToCalled>(
        &mut self,
        court: &Court,
        labels: &Labels<'_>,
        case: u32,
        name: &str,
        items: &[T],
    ) -> Result<(), AllocError>
        ensures { OnOk result (AddsFields self.old self.new (field name.now (array_of (map (T.value court.now labels.now case) items.now)) ∷ [])) }
    {
        self.key(name)?;
        self.called_array(court, labels, case, items)
    }

    /// The values of the items, in their order, as an array.
    fn called_array<T: ToCalled>(
        &mut self,
        court: &Court,
        labels: &Labels<'_>,
        case: u32,
        items: &[T],
    ) -> Result<(), AllocError>
        ensures { OnOk result (AddsValue self.old self.new (array_of (map (T.value court.now labels.now case) items.now))) }
    {
        self.begin_array()?;
        self.called_items(court, labels, case, items)?;
        self.end_array()
    }

    /// The values of the items, without the brackets.
    fn called_items<T: ToCalled>(
        &mut self,
        court: &Court,
        labels: &Labels<'_>,
        case: u32,
        items: &[T],
    ) -> Result<(), AllocError>
        ensures { OnOk result (Adds self.old self.new (flat_map (λ x. json_tokens (T.value court.now labels.now case x)) items.now)) }
    {
        for item in items {
            item.write_called(self, court, labels, case)?;
        }
        Ok(())
    }
}
