//! Which tables the rows of a docket want.

ghost use Rattle.std.specs.Prelude.{◌≡◌};
ghost use Rattle.report_sql.specs.Schema.{have_assignments, have_facts, have_rulings, have_texts, is_assignment, is_calling, is_fact, is_of_ruling, is_ruling};

use docket_rows::{Command, Fact};
use row_forms::{NumberedRow, Work};

// Whether a row records a fact of a case.
fn is_fact(work: &Work) -> bool
    ensures { result ≡ is_fact work.now }
{
    match work {
        Work::Command(Command::Fact { fact, .. }) => fact.is_kept(),
        _ => false,
    }
}

// Whether some of these rows do.
pub(crate) fn have_facts(rows: &[NumberedRow]) -> bool
    ensures { result ≡ have_facts rows.now }
{
    rows.iter().any(|row| is_fact(&row.row.work))
}

// Whether a fact is how a motion was ruled on.
fn is_of_ruling(fact: Fact) -> bool
    ensures { result ≡ is_of_ruling fact }
{
    match fact {
        Fact::Ruled { .. } => true,
        _ => false,
    }
}

// Whether a row rules on a motion.
fn is_ruling(work: &Work) -> bool
    ensures { result ≡ is_ruling work.now }
{
    match work {
        Work::Command(Command::Fact { fact, .. }) => is_of_ruling(*fact),
        _ => false,
    }
}

// Whether some of these rows do.
pub(crate) fn have_rulings(rows: &[NumberedRow]) -> bool
    ensures { result ≡ have_rulings rows.now }
{
    rows.iter().any(|row| is_ruling(&row.row.work))
}

// Whether a row assigns a case.
fn is_assignment(work: &Work) -> bool
    ensures { result ≡ is_assignment work.now }
{
    match work {
        Work::Command(
            Command::Fact {
                fact: Fact::Assigned { .. },
                ..
            },
        ) => true,
        _ => false,
    }
}

// Whether some of these rows do.
pub(crate) fn have_assignments(rows: &[NumberedRow]) -> bool
    ensures { result ≡ have_assignments rows.now }
{
    rows.iter().any(|row| is_assignment(&row.row.work))
}

// Whether a row says what something is called.
fn is_calling(work: &Work) -> bool
    ensures { result ≡ is_calling work.now }
{
    match work {
        Work::Command(Command::Fact { fact, .. }) => !fact.is_kept(),
        _ => false,
    }
}

// Whether some of these rows do.
pub(crate) fn have_texts(rows: &[NumberedRow]) -> bool
    ensures { result ≡ have_texts rows.now }
{
    rows.iter().any(|row| is_calling(&row.row.work))
}
