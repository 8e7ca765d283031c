//! The cases that have names.
ghost use Rattle.std.specs.Prelude.{◌≡◌, ◌||◌, ◌++◌, ◌∷◌, [], false, is_some, option_map, Some, IfOk, OnErr, OnOk};
ghost use Rattle.case_numbers.specs.Cases.{name_of, number_of, with_name};
ghost use Rattle.case_numbers.specs.Laws.{AreApart};

use crate::name::CaseName;
use indexmap::IndexSet;
use std::alloc::{AllocError, Global};
use std::marker::Model;

/// A case that has a name.
#[derive(Debug, Drop)]
pub struct NamedCase {
    /// Its number.
    pub number: u32,
    /// Its name.
    pub name: CaseName,
}

// The cases that have names, with their numbers and their keys in the same order.
#[derive(Debug, Drop)]
pub(crate) struct Names {
    cases: Vec<NamedCase>,
    numbers: IndexSet<u32>,
    keys: IndexSet<Vec<u8>>,
}

impl Model for Names {
    ghost use Rattle.std.specs.Prelude.{◌≡◌, List, map};
    ghost use Rattle.case_numbers.specs.declared.names.NamedCase.{NamedCase};
    ghost use Rattle.case_numbers.specs.Laws.{AreApart};

    ghost Value = { List NamedCase };

    ghost view = { λ n. n.cases.items };

    ghost invariant = { λ n. (n.numbers.keys ≡ map (λ c. c.number) n.cases.items) × (map (λ k. k.items) n.keys.keys ≡ map (λ c. c.name.key) n.cases.items) × AreApart n.cases.items };
}

impl Names {
    // No names.
    pub(crate) fn new(alloc: Global) -> Names
        ensures { result ≡ [] }
    {
        Names {
            cases: Vec::new(alloc),
            numbers: IndexSet::new(alloc),
            keys: IndexSet::new(alloc),
        }
    }

    // The cases, in the order in which they were named.
    pub(crate) fn cases(&self) -> &[NamedCase]
        ensures cases { result.now ≡ self.now }
        ensures apart { AreApart self.now }
    {
        self.cases.as_slice()
    }

    // The number of the case with that key.
    #[tactic(auto, unfolding(crate::specs::Cases::number_of))]
    pub(crate) fn number_of(&self, key: &[u8]) -> Option<u32>
        ensures { result ≡ number_of self.now key.now }
    {
        match self.keys.get_index_of(key) {
            Some(place) => Some(self.cases[place].number),
            None => None,
        }
    }

    // The name of the case with that number, as it is shown.
    #[tactic(auto, unfolding(crate::specs::Cases::name_of))]
    pub(crate) fn name_of(&self, number: u32) -> Option<&str>
        ensures { option_map (λ name. name.now) result ≡ name_of self.now number }
    {
        match self.numbers.get_index_of(&number) {
            Some(place) => Some(self.cases[place].name.shown()),
            None => None,
        }
    }

    // Whether the case of that number has a name, or a case has that key.
    fn has(&self, number: u32, key: &[u8]) -> bool
        ensures { result ≡ (is_some (name_of self.now number) || is_some (number_of self.now key.now)) }
    {
        self.name_of(number).is_some() || self.number_of(key).is_some()
    }

    // Adds a case that has no name yet, by a key that no case has. After an `Err` the names are unchanged.
    fn push(&mut self, alloc: Global, number: u32, name: CaseName) -> Result<(), AllocError>
        requires number { is_some (name_of self.old number) ≡ false }
        requires key { is_some (number_of self.old name.key) ≡ false }
        ensures ok { OnOk result (self.new ≡ self.old ++ record { number = number; name = name } ∷ []) }
        ensures err { OnErr result (self.new ≡ self.old) }
    {
        let key = Vec::from_slice(alloc, name.key())?;
        self.numbers.reserve(1)?;
        self.keys.reserve(1)?;
        self.cases.push(NamedCase { number, name })?;
        self.numbers.insert(number)?;
        self.keys.insert(key)?;
        Ok(())
    }

    // Names a case, unless it has a name or a case has that key. After an `Err` the names are unchanged.
    pub(crate) fn add(
        &mut self,
        alloc: Global,
        number: u32,
        name: CaseName,
    ) -> Result<(), AllocError>
        ensures ok { OnOk result (self.new ≡ with_name self.old number (Some name)) }
        ensures err { OnErr result (self.new ≡ self.old) }
    {
        if self.has(number, name.key()) {
            Ok(())
        } else {
            self.push(alloc, number, name)
        }
    }

    // Names a case that has a name, as `add` does. After an `Err` the names are unchanged.
    pub(crate) fn add_if_named(
        &mut self,
        alloc: Global,
        number: u32,
        name: Option<CaseName>,
    ) -> Result<(), AllocError>
        ensures ok { OnOk result (self.new ≡ with_name self.old number name) }
        ensures err { OnErr result (self.new ≡ self.old) }
    {
        match name {
            Some(name) => self.add(alloc, number, name),
            None => Ok(()),
        }
    }

    // Others of the same names.
    pub(crate) fn copy(&self, alloc: Global) -> Result<Names, AllocError>
        ensures { IfOk result (λ names. names ≡ self.now) }
    {
        let mut names = Names::new(alloc);
        let cases = self.cases();
        for case in cases {
            names.add(alloc, case.number, case.name.copy(alloc)?)?;
        }
        Ok(names)
    }
}
