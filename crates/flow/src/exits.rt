//! Where the ways out of a code lead.

ghost use Rattle.std.specs.Prelude.{◌≡◌, ◌==◌, ◌||◌, ℕ, nat_eq, OnOk, IfOk, option_map};
ghost use Rattle.std.specs.List.{list_any};
ghost use Rattle.indexmap.specs.IndexSet.{contains};
ghost use Rattle.code.specs.CodeViews.{text_now, way_view};
ghost use Rattle.flow.specs.GraphOfCode.{same_label, same_way, arriving};
ghost use Rattle.flow.specs.GraphViews.{falls_by, leads_there, exits_view, rest_of, EntersWays, Enters, EntersFalls};

use crate::node_lists::copied;
use code::Way;
use indexmap::IndexSet;
use std::alloc::{AllocError, Global};

/// Ways out that lead to one end.
#[derive(Drop)]
pub enum Ways<'a> {
    One(Way<'a>),
    /// The `fallthrough`s at these byte offsets.
    Falls(IndexSet<u32>),
}

/// The nodes at which what leaves by one of these ways arrives.
#[derive(Drop)]
pub struct Destination<'a> {
    pub ways: Ways<'a>,
    pub next: Vec<usize>,
}

/// Where the ways out lead, the innermost first; other ways lead nowhere.
#[derive(Drop)]
pub struct Exits<'a> {
    pub entries: Vec<Destination<'a>>,
}

/// Whether they are the same label, or both none.
fn same_label(one: Option<&str>, other: Option<&str>) -> bool
    ensures { result ≡ same_label (option_map text_now one.entry) (option_map text_now other.entry) }
{
    match (one, other) {
        (Some(one), Some(other)) => one == other,
        (None, None) => true,
        _ => false,
    }
}

/// Whether they are the same way out.
fn same_way(one: Way<'_>, other: Way<'_>) -> bool
    ensures { result ≡ same_way (way_view one.entry) (way_view other.entry) }
{
    match (one, other) {
        (Way::Returning, Way::Returning) => true,
        (Way::Breaking(one), Way::Breaking(other)) => same_label(one, other),
        (Way::Continuing(one), Way::Continuing(other)) => same_label(one, other),
        (Way::Falling(one), Way::Falling(other)) => one == other,
        _ => false,
    }
}

/// Whether the way is a `fallthrough` at one of these offsets.
fn is_fall(way: Way<'_>, falls: &IndexSet<u32>) -> bool
    ensures { result ≡ falls_by (contains nat_eq falls.now) (way_view way.entry) }
{
    match way {
        Way::Returning => false,
        Way::Breaking(_) => false,
        Way::Continuing(_) => false,
        Way::Falling(at) => falls.contains(&at),
    }
}

/// Whether the way is one of these.
fn leads_there(way: Way<'_>, ways: &Ways<'_>) -> bool
    ensures { result ≡ leads_there ways.now (way_view way.entry) }
{
    match ways {
        Ways::One(one) => same_way(way, *one),
        Ways::Falls(falls) => is_fall(way, falls),
    }
}

fn add_fall(at: u32, falls: &mut IndexSet<u32>) -> Result<(), AllocError>
    ensures { OnOk result ((n : ℕ) → contains nat_eq falls.new n ≡ (nat_eq at n || contains nat_eq falls.old n)) }
{
    falls.insert(at)?;
    Ok(())
}

/// These offsets, for whoever asks for one.
fn set_of(alloc: Global, falls: &[u32]) -> Result<IndexSet<u32>, AllocError>
    ensures { IfOk result (λ set. (n : ℕ) → contains nat_eq set n ≡ list_any (λ m. m == n) falls.now) }
{
    let mut set = IndexSet::new(alloc);
    for at in falls {
        add_fall(*at, &mut set)?;
    }
    Ok(set)
}

impl<'a> Exits<'a> {
    /// The nodes at which what leaves this way arrives.
    pub fn at(&self, way: Way<'_>) -> &[usize]
        ensures { result.now ≡ exits_view self.now.entries.items (way_view way.entry) }
    {
        for exit in &self.entries {
            if leads_there(way, &exit.ways) {
                return &exit.next;
            }
        }
        &[]
    }

    /// What leaves by one of these ways arrives at these nodes from here on.
    fn enter_ways(
        &mut self,
        alloc: Global,
        ways: Ways<'a>,
        next: &[usize],
    ) -> Result<(), AllocError>
        ensures { OnOk result (EntersWays ways.entry next.now self.old self.new) }
    {
        let next = copied(alloc, next)?;
        self.entries.insert(0, Destination { ways, next })?;
        Ok(())
    }

    /// What leaves this way arrives at these nodes from here on.
    ///
    /// # Errors
    ///
    /// Memory was refused.
    pub fn enter(&mut self, alloc: Global, way: Way<'a>, next: &[usize]) -> Result<(), AllocError>
        ensures { OnOk result (Enters (way_view way.entry) next.now self.old self.new) }
    {
        self.enter_ways(alloc, Ways::One(way), next)
    }

    /// What falls through at one of these offsets arrives at these nodes from here on.
    ///
    /// # Errors
    ///
    /// Memory was refused.
    pub fn enter_falls(
        &mut self,
        alloc: Global,
        falls: &[u32],
        next: &[usize],
    ) -> Result<(), AllocError>
        ensures { OnOk result (EntersFalls falls.now next.now self.old self.new) }
    {
        let set = set_of(alloc, falls)?;
        self.enter_ways(alloc, Ways::Falls(set), next)
    }

    /// What was entered last is left.
    pub fn leave(&mut self)
        ensures { self.new.entries.items ≡ rest_of self.old.entries.items }
    {
        if !self.entries.is_empty() {
            self.entries.remove(0);
        }
    }
}
