//! What the definitions of rows mean.

ghost use Rattle.row_forms.specs.Bounds.{RowsAreBounded};
ghost use Rattle.row_forms.specs.Fields.Period.{CodesAreReadBack, SectionCodesAreNew};
ghost use Rattle.row_forms.specs.FirstFault.{FirstFaultIsTold};
ghost use Rattle.row_forms.specs.Forms.{RowsAskByTheirWords};
ghost use Rattle.row_forms.specs.Forms.Table.{CommandWordsNameForms};
ghost use Rattle.row_forms.specs.Office.{OfficeRowsAreReadAlike, RowsAreOfficeWork};
ghost use Rattle.row_forms.specs.Taken.{BracketsShowWhatMayBeEmpty, EmptyFieldsAreTaken, RowsFollowTheTable};

use rule_periods::codes_name_periods;

/// A command word names one form of rows, and each form has one word.
#[tactic(auto, using(crate::proofs::FormLemmas::command_words_name_forms_lem))]
pub fn command_words_name_forms()
    ensures { CommandWordsNameForms }
{}

/// A row asks for what its command word says: one that is read as one form can't be read as another.
#[tactic(auto, using(crate::proofs::FormLemmas::rows_ask_by_their_words_lem))]
pub fn rows_ask_by_their_words()
    ensures { RowsAskByTheirWords }
{}

/// A row is refused exactly where the table of forms says so, at the desk by its table and by clerk_office by its own: it has
/// another number of fields than its form has columns, or this is its first column that doesn't take its field.
#[tactic(auto, using(crate::proofs::TakenLemmas::rows_follow_the_table_lem))]
pub fn rows_follow_the_table()
    ensures { RowsFollowTheTable }
{}

/// The desk reads a row of clerk_office as that does, and such a row asks for nothing that the desk alone takes: its period is one
/// of the Rules, or a number of days or hours.
#[tactic(auto, using(crate::proofs::OfficeLemmas::rows_are_office_work_lem))]
pub fn office_rows_are_read_alike()
    ensures alike { OfficeRowsAreReadAlike }
    ensures rows { RowsAreOfficeWork }
{}

/// A column that may be empty takes an empty field, and is shown in brackets, as no other is.
#[tactic(auto, using(crate::proofs::TakenLemmas::empty_fields_are_taken_lem, crate::proofs::TakenLemmas::brackets_show_what_may_be_empty_lem))]
pub fn empty_fields_are_taken()
    ensures taken { EmptyFieldsAreTaken }
    ensures shown { BracketsShowWhatMayBeEmpty }
{}

/// No more than 100,000 rows are read, and each is that of one of the clerks.
#[tactic(auto, using(crate::proofs::BoundLemmas::rows_are_bounded_lem))]
pub fn rows_are_bounded()
    ensures { RowsAreBounded }
{}

/// The code of a period of the Rules is read as that period.
#[tactic(auto, using(crate::proofs::PeriodLemmas::codes_are_read_back_lem))]
pub fn codes_are_read_back()
    ensures { CodesAreReadBack }
{
    codes_name_periods();
}

/// No section's code is that of a period of the Rules, or a period that is entered, so it is read as its section's period.
#[tactic(auto, using(crate::proofs::PeriodLemmas::section_codes_are_new_lem))]
pub fn section_codes_are_new()
    ensures { SectionCodesAreNew }
{}

/// Either each record spells the row of its place, or the fault is that of the first record that spells none.
#[tactic(auto, using(crate::proofs::FaultLemmas::first_fault_is_told_lem))]
pub fn first_fault_is_told()
    ensures { FirstFaultIsTold }
{}
