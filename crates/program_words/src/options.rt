//! Arguments as `clap` takes them: a flag, and a text that is known by its place.

ghost use Rattle.std.specs.Prelude.{◌≡◌, IfOk};
ghost use Rattle.clap.specs.Words.{app_of, with_rule};
ghost use Rattle.program_words.specs.CommandLine.{flag_rule, option_place_rule, place_rule};

use clap::{Arg, ArgAction, Command};
use std::alloc::{AllocError, Global};

/// The command with one more option of that name, which takes nothing.
pub(crate) fn with_flag<'a>(
    alloc: Global,
    command: Command<'a>,
    name: &'a str,
    help: &'a str,
) -> Result<Command<'a>, AllocError>
    ensures { IfOk result (λ whole. app_of whole ≡ with_rule (app_of command.entry) (flag_rule name.now)) }
{
    let flag = Arg::new(alloc, name)
        .long(name)
        .action(ArgAction::SetTrue)
        .help(help);
    command.arg(flag)
}

/// The command with one more text, which is known by its place and has to be given. The help calls it by `value`.
pub(crate) fn with_place<'a>(
    alloc: Global,
    command: Command<'a>,
    name: &'a str,
    value: &'a str,
    help: &'a str,
) -> Result<Command<'a>, AllocError>
    ensures { IfOk result (λ whole. app_of whole ≡ with_rule (app_of command.entry) (place_rule name.now)) }
{
    let place = Arg::new(alloc, name)
        .action(ArgAction::Set)
        .value_name(value)
        .required(true)
        .help(help);
    command.arg(place)
}

/// The command with one more text, which is known by its place and need not be given. The help calls it by `value`.
pub(crate) fn with_option_place<'a>(
    alloc: Global,
    command: Command<'a>,
    name: &'a str,
    value: &'a str,
    help: &'a str,
) -> Result<Command<'a>, AllocError>
    ensures { IfOk result (λ whole. app_of whole ≡ with_rule (app_of command.entry) (option_place_rule name.now)) }
{
    let place = Arg::new(alloc, name)
        .action(ArgAction::Set)
        .value_name(value)
        .help(help);
    command.arg(place)
}
