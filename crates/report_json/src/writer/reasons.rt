//! What happened, and the section of the Rules by which it goes.

ghost use Rattle.std.specs.Prelude.{[], ◌∷◌, OnOk, codes};
ghost use Rattle.json.specs.Json.{string};
ghost use Rattle.reason_texts.specs.Words.{section_text, what_text};
ghost use Rattle.report_json.specs.Values.{AddsFields, field};

use super::JsonWriter;
use court_clock::Clock;
use deadline_reasons::Reason;
use reason_texts::{Course, push_section, push_what};
use std::alloc::AllocError;

impl JsonWriter {
    /// A field that says what happened.
    #[tactic(auto, unfolding(crate::specs::Values::field_tokens))]
    pub(crate) fn what_field(
        &mut self,
        clock: &Clock,
        course: &Course,
        reason: &Reason,
    ) -> Result<(), AllocError>
        ensures { OnOk result (AddsFields self.old self.new (field (codes "text") (string (what_text clock.now [] course.now.direction reason.now)) ∷ [])) }
    {
        self.scratch.clear();
        push_what(&mut self.scratch, clock, &[], course.direction, reason)?;
        self.writer.key("text")?;
        self.writer.string(self.scratch.as_str())
    }

    /// A field that says by which section.
    #[tactic(auto, unfolding(crate::specs::Values::field_tokens))]
    pub(crate) fn section_field(
        &mut self,
        course: &Course,
        reason: &Reason,
    ) -> Result<(), AllocError>
        ensures { OnOk result (AddsFields self.old self.new (field (codes "section") (string (section_text course.now reason.now)) ∷ [])) }
    {
        self.scratch.clear();
        push_section(&mut self.scratch, course, reason)?;
        self.writer.key("section")?;
        self.writer.string(self.scratch.as_str())
    }
}
