//! What the sites of one body give.

ghost use Rattle.std.specs.Prelude.{◌≡◌, OnOk};
ghost use Rattle.body_code.specs.SiteViews.{sites_view, IsEmpty, AddsEvent, AddsPanic};

use indexmap::IndexSet;
use lists::Lists;
use std::alloc::{AllocError, Global};

/// What the sites of one body give. A site is told by the byte offset of its first token.
#[derive(Drop)]
pub struct Sites<E> {
    /// What a site gives that has no event.
    other: E,
    /// What the end of the body gives.
    returns: E,
    events: Lists<E>,
    /// The sites whose statements are calls of the universe's `panic`.
    panics: IndexSet<u32>,
}

impl<E: Copy> Sites<E> {
    /// Sites without events: each gives `other`, and the end of the body `returns`.
    pub fn new(alloc: Global, other: E, returns: E) -> Self
        ensures { IsEmpty other returns (sites_view result) }
    {
        Sites {
            other,
            returns,
            events: Lists::new(alloc),
            panics: IndexSet::new(alloc),
        }
    }

    /// Adds an event to those of the site at that offset.
    ///
    /// # Errors
    ///
    /// Memory was refused; the events of the site are lost then.
    pub fn add_event(&mut self, alloc: Global, at: u32, event: E) -> Result<(), AllocError>
        ensures { OnOk result (AddsEvent at event (sites_view self.old) (sites_view self.new)) }
    {
        self.events.add(alloc, at, event)
    }

    /// The statement at that offset panics.
    ///
    /// # Errors
    ///
    /// Memory was refused.
    pub fn add_panic(&mut self, at: u32) -> Result<(), AllocError>
        ensures { OnOk result (AddsPanic at (sites_view self.old) (sites_view self.new)) }
    {
        self.panics.insert(at)?;
        Ok(())
    }

    /// What a site gives that has no event.
    pub fn other(&self) -> E
        ensures { result ≡ (sites_view self.now).other }
    {
        self.other
    }

    /// What the end of the body gives.
    pub fn returns(&self) -> E
        ensures { result ≡ (sites_view self.now).returns }
    {
        self.returns
    }

    /// The events of the site at that offset.
    pub fn events_at(&self, at: u32) -> &[E]
        ensures { result.now ≡ (sites_view self.now).events at }
    {
        self.events.at(at)
    }

    /// Whether the statement at that offset panics.
    pub fn panics_at(&self, at: u32) -> bool
        ensures { result ≡ (sites_view self.now).panics at }
    {
        self.panics.contains(&at)
    }
}
