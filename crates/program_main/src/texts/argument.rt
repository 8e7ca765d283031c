//! Arguments that several programs take, as `clap` takes them: an option with a text, a docket's folder or an input in its place,
//! and subcommands.

ghost use Rattle.std.specs.Prelude.{◌≡◌, false, IfOk, IsOkAnd};
ghost use Rattle.clap.specs.Words.{AddsSubcommand, app_of, rule_of, with_rule};
ghost use Rattle.program_main.specs.Texts.Argument.{folder_rule, needed_rule, text_rule, with_source};

use clap::{Arg, ArgAction, Command};
use std::alloc::{AllocError, Global};

const FOLDER: &str = "The folder of a docket, which another program may enter rows into";

const INPUT: &str = "A file that clerk_office reads, or - for standard input";

/// The option of that name. The help calls its text by `value`.
pub fn text_argument<'a>(alloc: Global, name: &'a str, value: &'a str, help: &'a str) -> Arg<'a>
    ensures rule { rule_of result ≡ text_rule name.now }
    ensures local { result.global ≡ false }
{
    Arg::new(alloc, name)
        .long(name)
        .action(ArgAction::Set)
        .value_name(value)
        .help(help)
}

/// The command with one more such option.
pub fn with_text<'a>(
    alloc: Global,
    command: Command<'a>,
    name: &'a str,
    value: &'a str,
    help: &'a str,
) -> Result<Command<'a>, AllocError>
    ensures { IfOk result (λ whole. app_of whole ≡ with_rule (app_of command.entry) (text_rule name.now)) }
{
    command.arg(text_argument(alloc, name, value, help))
}

/// The command with one more such option, which has to be given.
pub fn with_needed<'a>(
    alloc: Global,
    command: Command<'a>,
    name: &'a str,
    value: &'a str,
    help: &'a str,
) -> Result<Command<'a>, AllocError>
    ensures { IfOk result (λ whole. app_of whole ≡ with_rule (app_of command.entry) (needed_rule name.now)) }
{
    command.arg(text_argument(alloc, name, value, help).required(true))
}

/// The command, which also takes a docket's folder, by its place, or in its stead `--input` with a file. Neither has to be given.
pub fn with_source<'a>(alloc: Global, command: Command<'a>) -> Result<Command<'a>, AllocError>
    ensures { IfOk result (λ whole. app_of whole ≡ with_source (app_of command.entry)) }
{
    let command = with_folder(alloc, command)?;
    with_text(alloc, command, "input", "FILE", INPUT)
}

/// The command with the folder, which is known by its place.
fn with_folder<'a>(alloc: Global, command: Command<'a>) -> Result<Command<'a>, AllocError>
    ensures { IfOk result (λ whole. app_of whole ≡ with_rule (app_of command.entry) folder_rule) }
{
    let folder = Arg::new(alloc, "folder")
        .action(ArgAction::Set)
        .value_name("FOLDER")
        .help(FOLDER);
    command.arg(folder)
}

/// The command with one more subcommand, where there was memory for that one. It takes what came of making the subcommand,
/// so that the command is dropped here alone if there was none.
pub fn with_subcommand<'a>(
    command: Command<'a>,
    subcommand: Result<Command<'a>, AllocError>,
) -> Result<Command<'a>, AllocError>
    ensures { IfOk result (λ whole. IsOkAnd subcommand.entry (λ added. AddsSubcommand command.entry added whole)) }
{
    let added = subcommand?;
    command.subcommand(added)
}
