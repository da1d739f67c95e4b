//! The locals of a file by their numbers.

ghost use Rattle.std.specs.Prelude.{◌≡◌, ◌∷◌, [], ℕ, OnOk, is_some, option_map};
ghost use Rattle.tracked.specs.LocalViews.{entry_view, entry_in, local_view, AddsLocals, HasNoLocals, update_entry};

use crate::local::{Local, SeenLocal};
use indexmap::IndexMap;
use std::alloc::{AllocError, Global};

/// What is known of each local, by its number.
#[derive(Drop)]
pub struct Entries<'a> {
    by_number: IndexMap<u32, SeenLocal<'a>>,
}

/// The locals of a file; of those with one number, which no tree of a text has, the first.
#[derive(Drop)]
pub struct Locals<'a> {
    pub entries: Entries<'a>,
    /// The number of each, in the order in which they were added.
    pub numbers: Vec<u32>,
}

impl<'a> Entries<'a> {
    /// The local of that number.
    pub fn entry(&self, number: u32) -> Option<SeenLocal<'a>>
        ensures { option_map entry_view result ≡ entry_in self.now number }
    {
        match self.by_number.get(&number) {
            Some(entry) => Some(*entry),
            None => None,
        }
    }

    /// Whether there is a local of that number.
    fn has(&self, number: u32) -> bool
        ensures { result ≡ is_some (entry_in self.now number) }
    {
        self.entry(number).is_some()
    }

    /// Puts what is known now of the local of that number.
    ///
    /// # Errors
    ///
    /// Memory was refused.
    pub fn put(&mut self, number: u32, entry: SeenLocal<'a>) -> Result<(), AllocError>
        ensures { OnOk result ((n : ℕ) → entry_in self.new n ≡ update_entry number (entry_view entry.entry)
            (entry_in self.old n) n) }
    {
        self.by_number.insert(number, entry)?;
        Ok(())
    }
}

impl<'a> Locals<'a> {
    /// No local.
    pub fn new(alloc: Global) -> Self
        ensures { HasNoLocals result }
    {
        Locals {
            entries: Entries {
                by_number: IndexMap::new(alloc),
            },
            numbers: Vec::new(alloc),
        }
    }

    /// Adds a local that no mark has been seen of, unless there is one of its number.
    ///
    /// # Errors
    ///
    /// Memory was refused.
    pub fn add(&mut self, local: Local<'a>) -> Result<(), AllocError>
        ensures { OnOk result (AddsLocals self.old self.new (local_view local.entry ∷ [])) }
    {
        if self.entries.has(local.number) {
            return Ok(());
        }
        let entry = SeenLocal {
            local,
            is_obtained: false,
            is_made: false,
            is_in_literal: false,
        };
        self.entries.put(local.number, entry)?;
        self.numbers.push(local.number)?;
        Ok(())
    }
}
