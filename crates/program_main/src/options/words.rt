//! The words of a command line, of which the first is the program's name.

ghost use Rattle.std.specs.Prelude.{◌≡◌, map, string_bytes, IfOk};
ghost use Rattle.clap.specs.Walk.{texts};
ghost use Rattle.program_main.specs.Options.Named.{arguments_in};

use std::alloc::{AllocError, Global};
use std::{env, io};

// A body that gave no words, or an error, would do as well: no contract says what a process is called with. The stored
// runs of both programs are called with none.

/// The words that the process is called with, of which the first is the program's name.
pub fn arguments_of(rt: &HostRuntime) -> io::Result<Vec<String>> {
    Ok(env::args(rt)?.collect(rt.alloc())?)
}

/// The texts of the words after the program's name, which is the first. `Err` says that memory ran out.
pub fn argument_texts(alloc: Global, words: &[String]) -> Result<Vec<&str>, AllocError>
    ensures { IfOk result (λ found. texts found.items ≡ arguments_in (map string_bytes words.now)) }
{
    let named = match words {
        [_, rest @ ..] => rest,
        [] => words,
    };
    texts_of(alloc, named)
}

/// The texts of the words.
fn texts_of(alloc: Global, words: &[String]) -> Result<Vec<&str>, AllocError>
    ensures { IfOk result (λ found. texts found.items ≡ map string_bytes words.now) }
{
    let mut found = Vec::new(alloc);
    for word in words {
        found.push(word.as_str())?;
    }
    Ok(found)
}
