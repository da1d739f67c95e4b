//! Reasons by numbers, of which the first one of a number counts.

ghost use Rattle.std.specs.Prelude.{◌≡◌, ℕ, None, OnOk, option_map};
ghost use Rattle.meaning.specs.OuterBlocks.{or_else};
ghost use Rattle.use_reasons.specs.ReasonViews.{reason_in, reason_view, updated, Adds};
ghost use Rattle.use_reasons.specs.UseReasons.{only_of};

use crate::reason::UseReason;
use indexmap::IndexMap;
use std::alloc::{AllocError, Global};

/// Reasons by numbers. A number keeps the first reason that it is given.
#[derive(Drop)]
pub struct Reasons<'a> {
    by_number: IndexMap<u32, UseReason<'a>>,
}

impl<'a> Reasons<'a> {
    /// No number has a reason.
    pub fn new(alloc: Global) -> Self
        ensures { (n : ℕ) → reason_in result n ≡ None }
    {
        Reasons {
            by_number: IndexMap::new(alloc),
        }
    }

    /// The reason of the number.
    pub fn get(&self, number: u32) -> Option<UseReason<'a>>
        ensures { option_map reason_view result ≡ reason_in self.now number }
    {
        match self.by_number.get(&number) {
            Some(reason) => Some(*reason),
            None => None,
        }
    }

    fn put(&mut self, number: u32, reason: UseReason<'a>) -> Result<(), AllocError>
        ensures { OnOk result ((n : ℕ) → reason_in self.new n ≡ updated number (reason_view reason.entry)
            (reason_in self.old n) n) }
    {
        self.by_number.insert(number, reason)?;
        Ok(())
    }

    /// Gives the number the reason, unless it has one.
    ///
    /// # Errors
    ///
    /// Memory was refused.
    pub fn add(&mut self, number: u32, reason: UseReason<'a>) -> Result<(), AllocError>
        ensures { OnOk result (Adds self.old self.new (only_of number (reason_view reason.entry))) }
    {
        match self.get(number) {
            Some(_) => Ok(()),
            None => self.put(number, reason),
        }
    }
}
