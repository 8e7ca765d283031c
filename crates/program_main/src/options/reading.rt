//! The options that the words of a command line give.

ghost use Rattle.std.specs.Prelude.{◌≡◌, [], Some, codes, true, IfOk, IfErr};
ghost use Rattle.clap.specs.Words.{kind_of, takes};
ghost use Rattle.clap.specs.Faults.{fault_of};
ghost use Rattle.clap.specs.Walk.{texts};
ghost use Rattle.program_main.specs.Options.CommandLine.{command_line};
ghost use Rattle.program_main.specs.Options.Held.{number_held, DefaultsHold};
ghost use Rattle.program_main.specs.Options.Kinds.{IsAnswerFor, IsFaultOf};

use crate::options::command::command;
use crate::options::fault::OptionsFault;
use crate::options::options::Options;
use clap::Error;
use clap::error::ErrorKind;
use std::alloc::Global;

/// What an error of `clap` becomes: its text, by where that text goes.
pub fn fault_from(alloc: Global, error: &Error) -> OptionsFault
    ensures { IsFaultOf (kind_of error.now) result }
{
    if error.kind() == ErrorKind::OutOfMemory {
        return OptionsFault::OutOfMemory;
    }
    match format!(in alloc; "{error}") {
        Ok(text) if error.use_stderr() => OptionsFault::BadWords(text),
        Ok(text) => OptionsFault::Help(text),
        Err(_) => OptionsFault::OutOfMemory,
    }
}

/// The options that the words give, which are those after the program's name. What the words don't name is 1 clerk, and
/// a journal of 100,000 entries. BadWords where `clap` refuses the words, Help where they ask for the help or the
/// version first, and OutOfMemory where memory runs out.
pub fn options_of(alloc: Global, words: &[&str]) -> Result<Options, OptionsFault>
    ensures held { IfOk result (λ options.
        (number_held (codes "clerks") (texts words.now) ≡ Some options.clerks)
        × (number_held (codes "journal") (texts words.now) ≡ Some options.journal)) }
    ensures defaults { IfOk result (λ options.
        DefaultsHold (texts words.now) options.clerks options.journal) }
    ensures faults { IsAnswerFor (fault_of command_line (texts words.now)) result }
    ensures taken { takes command_line (texts words.now) ≡ true
        → IfErr result (λ fault. fault ≡ OptionsFault.OutOfMemory) }
    ensures faultless { fault_of command_line (texts words.now) ≡ []
        → IfErr result (λ fault. fault ≡ OptionsFault.OutOfMemory) }
{
    let command = command(alloc)?;
    match command.try_get_matches_from(words) {
        Ok(matches) => {
            let clerks = matches.get_one::<u8>("clerks").unwrap();
            let journal = matches.get_one::<u32>("journal").unwrap();
            Ok(Options::new(clerks, journal).unwrap())
        }
        Err(error) => Err(fault_from(alloc, &error)),
    }
}
