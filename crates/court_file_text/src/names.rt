//! The names of judges or rooms.

ghost use Rattle.std.specs.Prelude.{◌≡◌, ◌<◌, ◌≤◌, ◌++◌, ◌∷◌, ℕ, List, [], length, map, string_bytes, slice_get, OnOk, OnErr, IfSome, option_copied, false};
ghost use Rattle.std.specs.Str.{bytes_eq};
ghost use Rattle.court_file_text.specs.Reading.{is_named};
ghost use Rattle.court_file_text.specs.Names.{name_index};

use indexmap::IndexSet;
use std::alloc::{AllocError, Global};
use std::marker::Model;

/// Names in the order of the court's file, each once, numbered from 0.
#[derive(Debug, Drop)]
pub struct Names {
    names: IndexSet<String>,
}

impl Model for Names {
    ghost Value = { List (List ℕ) };

    ghost view = { λ n. map string_bytes n.names.keys };
}

impl Names {
    /// No names.
    pub(crate) fn empty(alloc: Global) -> Names
        ensures { result ≡ [] }
    {
        Names {
            names: IndexSet::new(alloc),
        }
    }

    /// How many names there are.
    pub fn len(&self) -> usize
        ensures { result ≡ length self.now }
    {
        self.names.len()
    }

    /// Whether the text is one of the names.
    pub(crate) fn contains(&self, name: &str) -> bool
        ensures { result ≡ is_named self.now name.now }
    {
        self.names.contains(name)
    }

    /// Adds a name after the others. After an `Err` the names are unchanged.
    pub(crate) fn add(&mut self, alloc: Global, name: &str) -> Result<(), AllocError>
        requires { is_named self.old name.now ≡ false }
        ensures ok { OnOk result (self.new ≡ self.old ++ name.now ∷ []) }
        ensures err { OnErr result (self.new ≡ self.old) }
    {
        self.names.insert(String::from_str(alloc, name)?)?;
        Ok(())
    }

    /// The number of a name.
    pub fn index_of(&self, name: &str) -> Option<usize>
        ensures value { result ≡ name_index self.now name.now }
        ensures within { IfSome result (λ i. i < length self.now) }
    {
        self.names.get_index_of(name)
    }

    /// The name with that number.
    pub fn get(&self, index: usize) -> Option<&str>
        ensures { option_copied result ≡ slice_get self.now index }
    {
        match self.names.get_index(index) {
            Some(name) => Some(name.as_str()),
            None => None,
        }
    }
}
