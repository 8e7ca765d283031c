//! The whole text.

use crate::report::fault_lines::{office_fault, push_faults};
use crate::report::sheet::Sheet;
use crate::report::syntax_lines::push_syntax;
use crate::report::warning_lines::push_warnings;
use crate::{Asked, Checked};
use std::alloc::{AllocError, Global};
use toml::Table;

/// What is said of a court's file.
#[derive(Debug, Drop)]
pub struct Report {
    /// The text, whose lines all have an end.
    pub text: String,
    /// How many faults it tells.
    pub faults: usize,
    /// How many warnings.
    pub warnings: usize,
}

/// What is said of the file with this name and these bytes, in which the check found this. An `Err` says that memory ran
/// out.
pub fn report_of(
    alloc: Global,
    name: &str,
    bytes: &[u8],
    asked: &Asked,
    checked: &Checked,
) -> Result<Report, AllocError> {
    let mut sheet = Sheet::new(alloc, name, bytes, document_of(checked))?;
    match checked {
        Checked::NotToml(error) => {
            push_syntax(&mut sheet, error)?;
            sheet.end_faults("clerk_office", "1 NotToml")?;
            Ok(sheet.faulty())
        }
        Checked::Faulty(file, faults) => {
            push_faults(alloc, &mut sheet, file, faults)?;
            Ok(sheet.faulty())
        }
        Checked::Taken(file, warnings) => {
            push_warnings(&mut sheet, file, asked, warnings)?;
            let office = office_fault(alloc, file)?;
            match &office {
                Some(fault) => sheet.end_warnings(Some(fault.as_str()))?,
                None => sheet.end_warnings(None)?,
            }
            Ok(sheet.taken())
        }
    }
}

/// The document, if the file is one.
fn document_of(checked: &Checked) -> Option<&Table> {
    match checked {
        Checked::NotToml(_) => None,
        Checked::Faulty(file, _) | Checked::Taken(file, _) => Some(file),
    }
}
