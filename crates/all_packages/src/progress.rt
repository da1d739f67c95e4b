//! What was judged so far.

ghost use Rattle.std.specs.Prelude.{◌≡◌, IfOk, Some, None, option_map, replicate, slice_set};
ghost use Rattle.all_packages.specs.Progress.{judged_in, judged_of, slots_in};

use one_package::Judged;
use std::alloc::{AllocError, Global};
use std::mem::replace;

/// Puts what is said of the package at that place, if there is one.
fn set_slot<'a>(slots: &mut Vec<Option<Judged<'a>>>, place: usize, judged: Judged<'a>)
    ensures { slots.new.items ≡ slice_set slots.old.items place (Some judged.entry) }
{
    if place < slots.len() {
        let _ = replace(&mut slots[place], Some(judged));
    }
}

/// The packages that were judged so far.
#[derive(Drop)]
pub struct Progress<'a> {
    /// What is said of each package that was judged, by its place.
    pub results: Vec<Option<Judged<'a>>>,
}

impl<'a> Progress<'a> {
    /// None of so many packages was judged.
    ///
    /// # Errors
    ///
    /// Memory was refused.
    pub fn new(alloc: Global, count: usize) -> Result<Self, AllocError>
        ensures { IfOk result (λ progress. slots_in progress ≡ replicate count None) }
    {
        let mut results = Vec::new(alloc);
        for _ in 0..count {
            results.push(None)?;
        }
        Ok(Progress { results })
    }

    /// What is said of the package at that place, if it was judged.
    pub fn at(&self, place: usize) -> Option<&Judged<'a>>
        ensures { option_map (λ j. j.now) result ≡ judged_in self.now place }
    {
        match self.results.get(place) {
            Some(Some(judged)) => Some(judged),
            _ => None,
        }
    }

    /// Keeps what is said of the package at that place.
    pub fn keep(&mut self, place: usize, judged: Judged<'a>)
        ensures { slots_in self.new ≡ slice_set (slots_in self.old) place (Some judged.entry) }
    {
        set_slot(&mut self.results, place, judged);
    }

    /// What was judged, in the order of the places.
    ///
    /// # Errors
    ///
    /// Memory was refused.
    pub fn into_judged(self, alloc: Global) -> Result<Vec<Judged<'a>>, AllocError>
        ensures { IfOk result (λ found. found.items ≡ judged_of (slots_in self.entry)) }
    {
        let Progress { results } = self;
        let mut found = Vec::new(alloc);
        for slot in results {
            if let Some(judged) = slot {
                found.push(judged)?;
            }
        }
        Ok(found)
    }
}
