//! What can be written as JSON.

ghost use Rattle.std.specs.Prelude.{◌<◌, [], ◌∷◌, List, OnOk, map, option_copied};
ghost use Rattle.std.specs.List.{flat_map};
ghost use Rattle.json.specs.Json.{Json, string};
ghost use Rattle.json.specs.Tree.{json_tokens};
ghost use Rattle.case_numbers.specs.declared.names.NamedCase.{NamedCase};
ghost use Rattle.court_days.specs.Words.{CourtView};
ghost use Rattle.report_json.specs.Times.{minute_value, moment_value};
ghost use Rattle.report_json.specs.Values.{Adds, AddsFields, AddsValue, Field, array_of, field, object_of, or_null};

use crate::writer::JsonWriter;
use court_clock::Day;
use court_days::Court;
use report_texts::Labels;
use std::alloc::AllocError;

/// What can be written as a JSON value.
pub(crate) trait ToJson {
    // Its value, in that court.
    ghost value: { CourtView → List NamedCase → Self → Json };

    /// Writes the value. `Err` says that memory ran out.
    fn write(
        &self,
        out: &mut JsonWriter,
        court: &Court,
        labels: &Labels<'_>,
    ) -> Result<(), AllocError>
        ensures { OnOk result (AddsValue out.old out.new (value court.now labels.now.cases self.now)) };
}

/// What can be written as an object.
pub(crate) trait ToFields {
    // Its fields, in that court.
    ghost fields: { CourtView → List NamedCase → Self → List Field };

    /// Writes the fields, without the braces. `Err` says that memory ran out.
    fn write_fields(
        &self,
        out: &mut JsonWriter,
        court: &Court,
        labels: &Labels<'_>,
    ) -> Result<(), AllocError>
        ensures { OnOk result (AddsFields out.old out.new (fields court.now labels.now.cases self.now)) };
}

impl JsonWriter {
    /// A field of an object.
    #[tactic(auto, unfolding(crate::specs::Values::field_tokens))]
    pub(crate) fn field<T: ToJson>(
        &mut self,
        court: &Court,
        labels: &Labels<'_>,
        name: &str,
        item: &T,
    ) -> Result<(), AllocError>
        ensures { OnOk result (AddsFields self.old self.new (field name.now (T.value court.now labels.now.cases item.now) ∷ [])) }
    {
        self.key(name)?;
        item.write(self, court, labels)
    }

    /// A field whose value is an array.
    #[tactic(auto, unfolding(crate::specs::Values::field_tokens))]
    pub(crate) fn list_field<T: ToJson>(
        &mut self,
        court: &Court,
        labels: &Labels<'_>,
        name: &str,
        items: &[T],
    ) -> Result<(), AllocError>
        ensures { OnOk result (AddsFields self.old self.new (field name.now (array_of (map (T.value court.now labels.now.cases) items.now)) ∷ [])) }
    {
        self.key(name)?;
        self.array(court, labels, items)
    }

    /// A field whose value is a text.
    #[tactic(auto, unfolding(crate::specs::Values::field_tokens))]
    pub(crate) fn text_field(&mut self, name: &str, text: &str) -> Result<(), AllocError>
        ensures { OnOk result (AddsFields self.old self.new (field name.now (string text.now) ∷ [])) }
    {
        self.key(name)?;
        self.text(text)
    }

    /// A field whose value is a text, or `null` where there is none.
    #[tactic(auto, unfolding(crate::specs::Values::field_tokens))]
    pub(crate) fn text_if_any(&mut self, name: &str, text: Option<&str>) -> Result<(), AllocError>
        ensures { OnOk result (AddsFields self.old self.new (field name.now (or_null string (option_copied text.entry)) ∷ [])) }
    {
        self.key(name)?;
        match text {
            Some(text) => self.text(text),
            None => self.null(),
        }
    }

    /// A field whose value is a second of a day, as the court's clock shows it.
    #[tactic(auto, unfolding(crate::specs::Values::field_tokens))]
    pub(crate) fn moment_field(
        &mut self,
        court: &Court,
        name: &str,
        day: Day,
        second: u32,
    ) -> Result<(), AllocError>
        requires { second < 86_400 }
        ensures { OnOk result (AddsFields self.old self.new (field name.now (moment_value court.now.clock.zone day second) ∷ [])) }
    {
        self.key(name)?;
        self.moment(court.clock(), day, second)
    }

    /// A field whose value is a minute of a day.
    #[tactic(auto, unfolding(crate::specs::Values::field_tokens))]
    pub(crate) fn minute_field(&mut self, name: &str, minute: u16) -> Result<(), AllocError>
        ensures { OnOk result (AddsFields self.old self.new (field name.now (minute_value minute) ∷ [])) }
    {
        self.key(name)?;
        self.minute(minute)
    }

    /// An object.
    #[tactic(auto, using(crate::proofs::TokenLemmas::object_is))]
    pub(crate) fn object<T: ToFields>(
        &mut self,
        court: &Court,
        labels: &Labels<'_>,
        item: &T,
    ) -> Result<(), AllocError>
        ensures { OnOk result (AddsValue self.old self.new (object_of (T.fields court.now labels.now.cases item.now))) }
    {
        self.begin_object()?;
        item.write_fields(self, court, labels)?;
        self.end_object()
    }

    /// The values of the items, in their order, as an array.
    pub(crate) fn array<T: ToJson>(
        &mut self,
        court: &Court,
        labels: &Labels<'_>,
        items: &[T],
    ) -> Result<(), AllocError>
        ensures { OnOk result (AddsValue self.old self.new (array_of (map (T.value court.now labels.now.cases) items.now))) }
    {
        self.begin_array()?;
        self.items(court, labels, items)?;
        self.end_array()
    }

    /// The values of the items, without the brackets.
    fn items<T: ToJson>(
        &mut self,
        court: &Court,
        labels: &Labels<'_>,
        items: &[T],
    ) -> Result<(), AllocError>
        ensures { OnOk result (Adds self.old self.new (flat_map (λ x. json_tokens (T.value court.now labels.now.cases x)) items.now)) }
    {
        for item in items {
            item.write(self, court, labels)?;
        }
        Ok(())
    }
}
