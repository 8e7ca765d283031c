//! The rule of an office's history: a word that only grows counts its entries.

use docket_rows::{Answer, Command};
use logbook::{Gain, Plain, Play, Rule, Word};
use versioned_steps::Entry;

/// What the word and the history keep.
pub struct Law;

impl Rule<Entry<Command, Answer>, u64> for Law {
    ghost use Rattle.std.specs.Prelude.{[]};
    ghost use base.Fml.{ftrue};
    ghost use Rattle.published_docket.specs.Counted.{IsCounted};

    ghost holds = { λ cells log. IsCounted cells log };

    ghost first = { [] };

    ghost hinted = { λ n log. Unit {0} };

    ghost shows = { λ log. [] };

    ghost keeps = { λ names log. ftrue };

    ghost moves = { λ ask before after answer. Unit {0} };
}

/// The word that counts the entries.
pub(crate) type Head = Word<Entry<Command, Answer>, u64, Law>;

/// Who adds an entry trades nothing for it.
pub struct Nothing;

impl Gain<Entry<Command, Answer>, u64> for Nothing {
    ghost use base.Fml.{ftrue};

    ghost after = { λ names about answer. ftrue };
}

/// The step that adds an entry.
pub struct Add;

impl Play<Entry<Command, Answer>, u64> for Add {
    ghost use Rattle.published_docket.specs.Counted.{Adds};

    ghost then = { Adds };
}

impl Plain<Entry<Command, Answer>, Entry<Command, Answer>, u64> for Add {
    ghost use Rattle.std.specs.Prelude.{None};

    ghost ask = { λ entry. entry };

    ghost state = { λ entry. None };
}
