//! Values by names, of which the first one of a name counts.
#![tactic(auto)]

ghost use Rattle.std.specs.Prelude.{◌≡◌, ℕ, List, OnOk, OnErr, None, is_some, option_map};
ghost use Rattle.std.specs.Option.{option_or};
ghost use Rattle.first_values.specs.ValuesByName.{only_at, value_of};

use indexmap::IndexMap;
use std::alloc::{AllocError, Global};

/// Values by names. A name keeps the first value that it is given.
#[derive(Drop)]
pub struct FirstValues<'a, V> {
    values: IndexMap<&'a str, V>,
}

impl<'a, V: Drop> FirstValues<'a, V> {
    /// No name has a value.
    pub fn new(alloc: Global) -> Self
        ensures { (name : List ℕ) → value_of result name ≡ None }
    {
        FirstValues {
            values: IndexMap::new(alloc),
        }
    }

    /// Whether the name has a value.
    pub fn has(&self, name: &str) -> bool
        ensures { result ≡ is_some (value_of self.now name.now) }
    {
        self.values.contains_key(name)
    }

    /// The value of the name.
    pub fn get(&self, name: &str) -> Option<&V>
        ensures { option_map (λ value. value.now) result ≡ value_of self.now name.now }
    {
        self.values.get(name)
    }

    /// Gives the name the value, unless it has one.
    ///
    /// # Errors
    ///
    /// Memory was refused; nothing has changed then.
    pub fn insert(&mut self, name: &'a str, value: V) -> Result<(), AllocError>
        ensures ok { OnOk result ((other : List ℕ) → value_of self.new other ≡ option_or (value_of self.old other)
            (only_at name.now value other)) }
        ensures err { OnErr result ((other : List ℕ) → value_of self.new other ≡ value_of self.old other) }
    {
        if !self.values.contains_key(name) {
            self.values.insert(name, value)?;
        }
        Ok(())
    }
}
