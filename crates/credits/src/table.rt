//! The variables that each literal settles.

ghost use Rattle.std.specs.Prelude.{◌≡◌, OnOk, false};
ghost use Rattle.credits.specs.CreditViews.{has, HasNone, SettlesThese};

use indexmap::IndexMap;
use std::alloc::{AllocError, Global};

/// Which literals of a file settle which of the variables that they capture.
#[derive(Drop)]
pub struct Credits {
    /// For each body that was looked at, by the byte offset of its `func`, the numbers of the captured variables that
    /// it settles.
    settled: IndexMap<u32, Vec<u32>>,
}

impl Credits {
    /// No credits.
    pub fn new(alloc: Global) -> Self
        ensures { HasNone result }
    {
        Credits {
            settled: IndexMap::new(alloc),
        }
    }

    /// Whether the literal at that byte offset settles the variable of that number, which it captures.
    pub fn has(&self, literal: u32, variable: u32) -> bool
        ensures { result ≡ has self.now literal variable }
    {
        match self.settled.get(&literal) {
            Some(numbers) => numbers.contains(&variable),
            None => false,
        }
    }

    /// Tells which variables the body at that byte offset settles: those of these numbers, and no others.
    ///
    /// # Errors
    ///
    /// Memory was refused.
    pub fn tell(&mut self, body: u32, numbers: Vec<u32>) -> Result<(), AllocError>
        ensures { OnOk result (SettlesThese body numbers.items self.old self.new) }
    {
        self.settled.insert(body, numbers)?;
        Ok(())
    }
}
