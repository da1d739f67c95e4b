//! Lists by numbers, each of which grows.
#![tactic(auto)]

ghost use Rattle.std.specs.Prelude.{◌≡◌, ℕ, [], OnOk, nat_eq, false};
ghost use Rattle.lists.specs.ListViews.{items_at, added};

use indexmap::IndexMap;
use std::alloc::{AllocError, Global};

/// A list for each number; where nothing was added, it is empty.
#[derive(Drop)]
pub struct Lists<T> {
    entries: IndexMap<u32, Vec<T>>,
}

impl<T: Drop> Lists<T> {
    /// Empty lists.
    pub fn new(alloc: Global) -> Self
        ensures { (n : ℕ) → items_at result n ≡ [] }
    {
        Lists {
            entries: IndexMap::new(alloc),
        }
    }

    /// The list of that number.
    pub fn at(&self, number: u32) -> &[T]
        ensures { result.now ≡ items_at self.now number }
    {
        match self.entries.get(&number) {
            Some(items) => items,
            None => &[],
        }
    }

    /// The list of that number, taken out.
    fn take(&mut self, alloc: Global, number: u32) -> Vec<T>
        ensures taken { result.items ≡ items_at self.old number }
        ensures others { (n : ℕ) → nat_eq number n ≡ false
            → items_at self.new n ≡ items_at self.old n }
    {
        match self.entries.swap_remove(&number) {
            Some(items) => items,
            None => Vec::new(alloc),
        }
    }

    /// Adds an item to the list of that number.
    ///
    /// # Errors
    ///
    /// Memory was refused; the list is lost then.
    pub fn add(&mut self, alloc: Global, number: u32, item: T) -> Result<(), AllocError>
        ensures { OnOk result ((n : ℕ) → items_at self.new n ≡ added number item (items_at self.old n) n) }
    {
        let mut items = self.take(alloc, number);
        items.push(item)?;
        self.entries.insert(number, items)?;
        Ok(())
    }
}
