//! What a subcommand was given: its texts and flags.

ghost use Rattle.std.specs.Prelude.{◌≡◌, ◌∷◌, [], Ok, Some, is_some, option_map, string_bytes, IfOk};
ghost use Rattle.clap.specs.Kinds.{or_else};
ghost use Rattle.clap.specs.Words.{Kinds, first_of, found_of, rows_of};
ghost use Rattle.clap.specs.declared.error.kind.ErrorKind.{ErrorKind};
ghost use Rattle.program_main.specs.Options.Words.{IsAnswerFor, IsFaultAmong, IsMistake};
ghost use Rattle.program_words.specs.Given.{faults_beside, faults_together, faults_without, is_flag};

use clap::ArgMatches;
use program_main::OptionsFault;
use std::alloc::Global;

/// The text that was given by that name, if one was.
pub(crate) fn text_in<'a>(given: &ArgMatches<'a>, name: &str) -> Option<&'a str>
    ensures { option_map (λ text. text.now) result ≡ first_of name.now (rows_of (found_of given.now)) }
{
    given.get_str(name)
}

/// Whether a text was given by that name.
pub(crate) fn is_given(given: &ArgMatches<'_>, name: &str) -> bool
    ensures { result ≡ is_some (first_of name.now (rows_of (found_of given.now))) }
{
    text_in(given, name).is_some()
}

/// Whether the flag of that name was given.
pub(crate) fn has_flag(given: &ArgMatches<'_>, name: &str) -> bool
    ensures { result ≡ is_flag (first_of name.now (rows_of (found_of given.now))) }
{
    match text_in(given, name) {
        Some(text) => text == "true",
        None => false,
    }
}

/// What came of two, in their order: both, or else the first fault.
pub(crate) fn both<A: Drop, B: Drop>(
    first: Result<A, OptionsFault>,
    second: Result<B, OptionsFault>,
) -> Result<(A, B), OptionsFault>
    ensures both { IfOk result (λ pair. (first ≡ Ok pair.0) × (second ≡ Ok pair.1)) }
    ensures faults { (one other : Kinds) → IsAnswerFor one first → IsAnswerFor other second → IsAnswerFor (or_else one other) result }
{
    let first = first?;
    let second = second?;
    Ok((first, second))
}

/// Words with that mistake. The text says which, without the end of its line.
pub(crate) fn mistake(alloc: Global, text: &str) -> OptionsFault
    ensures { (kind : ErrorKind) → IsMistake kind → IsFaultAmong (kind ∷ []) result }
{
    match format!(in alloc; "error: {text}\n\nFor more information, try '--help'.\n") {
        Ok(text) => OptionsFault::BadWords(text),
        Err(_) => OptionsFault::OutOfMemory,
    }
}

/// The text of that name has to be given, and isn't. The words call it by `shown`.
pub(crate) fn missing(alloc: Global, shown: &str) -> OptionsFault
    ensures { IsFaultAmong (ErrorKind.MissingRequiredArgument ∷ []) result }
{
    match format!(in alloc; "{shown} is missing") {
        Ok(text) => mistake(alloc, text.as_str()),
        Err(_) => OptionsFault::OutOfMemory,
    }
}

/// The text of that name, which has to be given. The words call it by `shown`. BadWords where it isn't, and OutOfMemory where
/// memory runs out.
pub(crate) fn needed(
    alloc: Global,
    given: &ArgMatches<'_>,
    name: &str,
    shown: &str,
) -> Result<String, OptionsFault>
    ensures text { IfOk result (λ text. first_of name.now (rows_of (found_of given.now)) ≡ Some (string_bytes text)) }
    ensures faults { IsAnswerFor (faults_without (first_of name.now (rows_of (found_of given.now)))) result }
{
    match text_in(given, name) {
        Some(text) => Ok(String::from_str(alloc, text)?),
        None => Err(missing(alloc, shown)),
    }
}

/// Whether what is given counts, as it does beside the other option alone. The words call them by these texts. BadWords
/// where it is given and the other isn't.
pub(crate) fn beside(
    alloc: Global,
    is_given: bool,
    shown: &str,
    has_other: bool,
    other: &str,
) -> Result<(), OptionsFault>
    ensures { IsAnswerFor (faults_beside is_given has_other) result }
{
    if has_other || !is_given {
        return Ok(());
    }
    match format!(in alloc; "'{shown}' counts beside '{other}' alone") {
        Ok(text) => Err(mistake(alloc, text.as_str())),
        Err(_) => Err(OptionsFault::OutOfMemory),
    }
}

/// Whether what is given isn't together with another option, with which it doesn't go. BadWords where both are given: the text says so,
/// without the end of its line.
pub(crate) fn apart(
    alloc: Global,
    is_given: bool,
    has_other: bool,
    text: &str,
) -> Result<(), OptionsFault>
    ensures { IsAnswerFor (faults_together is_given has_other) result }
{
    if !is_given || !has_other {
        return Ok(());
    }
    Err(mistake(alloc, text))
}
