//! Which subcommand a name means.

ghost use Rattle.std.specs.Prelude.{◌≡◌};
ghost use Rattle.program_words.specs.Task.{court_meant, meant};

/// A subcommand, as its words are read.
#[derive(Clone, Copy, Debug, PartialEq, Eq)]
pub(crate) enum Subcommand {
    /// `init`.
    Init,
    /// `enter`.
    Enter,
    /// `try`.
    Try,
    /// `ask`.
    Ask,
    /// `plain`.
    Plain,
    /// `strike`.
    Strike,
    /// `restore`.
    Restore,
    /// `struck`.
    Struck,
    /// `cases`.
    Cases,
    /// `check`.
    Check,
    /// `rows`.
    Rows,
    /// `log`.
    Log,
    /// `due`, `week`, `page`, `ics`, `json`, `sql` or `pending`.
    Report,
    /// `memo`.
    Memo,
    /// `sheet`.
    Sheet,
    /// `case`.
    Case,
    /// `court`, with no word after it.
    Court,
    /// `court check`.
    CourtCheck,
    /// `court write`.
    CourtWrite,
    /// `court update`.
    CourtUpdate,
    /// `court change`.
    CourtChange,
}

/// The subcommand of that name.
pub(crate) fn meant(name: &str) -> Subcommand
    ensures { result ≡ meant name.now }
{
    match name {
        "init" => Subcommand::Init,
        "enter" => Subcommand::Enter,
        "try" => Subcommand::Try,
        "ask" => Subcommand::Ask,
        "plain" => Subcommand::Plain,
        "strike" => Subcommand::Strike,
        "restore" => Subcommand::Restore,
        "struck" => Subcommand::Struck,
        "cases" => Subcommand::Cases,
        "check" => Subcommand::Check,
        "rows" => Subcommand::Rows,
        "log" => Subcommand::Log,
        "memo" => Subcommand::Memo,
        "sheet" => Subcommand::Sheet,
        "case" => Subcommand::Case,
        "court" => Subcommand::Court,
        _ => Subcommand::Report,
    }
}

/// The subcommand of that name after the word `court`.
pub(crate) fn court_meant(name: &str) -> Subcommand
    ensures { result ≡ court_meant name.now }
{
    match name {
        "check" => Subcommand::CourtCheck,
        "write" => Subcommand::CourtWrite,
        "update" => Subcommand::CourtUpdate,
        _ => Subcommand::CourtChange,
    }
}
