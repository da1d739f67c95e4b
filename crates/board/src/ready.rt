//! The packages that can be taken.

ghost use Rattle.std.specs.Prelude.{◌≡◌, ◌<◌, ◌+◌, [], IfOk, Some, length, drop, slice_get, replicate};
ghost use Rattle.imports.specs.Views.{rank_of, ranked_of, rows_view};
ghost use Rattle.board.specs.Ready.{was_delivered, unlisted, Missing, FirstUntaken, ready_view, Stands, Takes, is_untaken, AreListed};

use crate::entries::Phase;
use crate::importers::row_at;
use imports::Order;
use std::alloc::{AllocError, Global};

/// The packages that can be taken, each told once, when the last of its imports was delivered.
#[derive(Drop)]
pub struct Ready {
    /// The packages, in the order in which they were told.
    listed: Vec<usize>,
    /// How many of these were taken, from the first on.
    passed: usize,
    /// For each package of how many of its imports, from the first on, it is known that they were delivered; nothing
    /// where the package is listed.
    known: Vec<Option<usize>>,
}

/// Whether the package was delivered.
fn is_in(phases: &[Phase], place: usize) -> bool
    ensures { result ≡ was_delivered (slice_get phases.now place) }
{
    match phases.get(place) {
        Some(Phase::Delivered(_)) => true,
        _ => false,
    }
}

/// Whether nobody took the package.
fn is_untaken(phases: &[Phase], place: usize) -> bool
    ensures { result ≡ is_untaken (slice_get phases.now place) }
{
    match phases.get(place) {
        Some(Phase::Untaken) => true,
        _ => false,
    }
}

/// The index of the first of these imports, from that one on, that was not delivered.
fn next_missing(phases: &[Phase], imports: &[usize], from: usize) -> Option<usize>
    ensures { Missing phases.now imports.now from result }
{
    for index in from..imports.len() {
        if !is_in(phases, imports[index]) {
            return Some(index);
        }
    }
    None
}

/// The index of the first of these packages, from that one on, that nobody took.
fn first_untaken(phases: &[Phase], listed: &[usize], from: usize) -> Option<usize>
    ensures { FirstUntaken phases.now listed.now from result }
{
    for index in from..listed.len() {
        if is_untaken(phases, listed[index]) {
            return Some(index);
        }
    }
    None
}

/// Of a package that has a rank and is not listed, how many of its imports are known to be in.
fn unlisted(order: &Order, known: &[Option<usize>], place: usize) -> Option<usize>
    ensures { result ≡ unlisted (rank_of order.now place) (slice_get known.now place) }
{
    match order.rank(place) {
        None => None,
        Some(_) => match known.get(place) {
            Some(count) => *count,
            None => None,
        },
    }
}

/// Of no package is it known that something was delivered.
fn nothing_known(alloc: Global, count: usize) -> Result<Vec<Option<usize>>, AllocError>
    ensures { IfOk result (λ known. known.items ≡ replicate count (Some 0)) }
{
    let mut known = Vec::with_capacity(alloc, count)?;
    for _place in 0..count {
        known.push(Some(0))?;
    }
    Ok(known)
}

impl Ready {
    /// The packages that import nothing, of so many packages with which nothing was done.
    ///
    /// # Errors
    ///
    /// Memory was refused.
    pub fn new(
        alloc: Global,
        imports: &[Vec<usize>],
        order: &Order,
        phases: &[Phase],
    ) -> Result<Self, AllocError>
        requires listed { AreListed (rank_of order.now) (ranked_of order.now) }
        requires many { length phases.now ≡ length imports.now }
        ensures { IfOk result (λ ready. Stands (rows_view imports.now) (rank_of order.now) phases.now []
            (ready_view ready)) }
    {
        let known = nothing_known(alloc, imports.len())?;
        let listed = Vec::with_capacity(alloc, imports.len())?;
        let mut ready = Ready {
            listed,
            passed: 0,
            known,
        };
        ready.look_at_all(imports, order, phases, order.ranked());
        Ok(ready)
    }

    /// Lists the package at that index of these places, if it can be taken and is not listed.
    fn look_at(
        &mut self,
        imports: &[Vec<usize>],
        order: &Order,
        phases: &[Phase],
        places: &[usize],
        index: usize,
    )
        requires index { index < length places.now }
        requires stands { Stands (rows_view imports.now) (rank_of order.now) phases.now (drop index places.now)
            (ready_view self.old) }
        ensures { Stands (rows_view imports.now) (rank_of order.now) phases.now (drop (index + 1) places.now)
            (ready_view self.new) }
    {
        let place = places[index];
        match unlisted(order, &self.known, place) {
            Some(from) => match next_missing(phases, row_at(imports, place), from) {
                Some(count) => self.known[place] = Some(count),
                None => {
                    self.known[place] = None;
                    self.listed.push_reserved(place);
                }
            },
            None => {}
        }
    }

    /// Lists those of these packages that can be taken and are not listed.
    pub fn look_at_all(
        &mut self,
        imports: &[Vec<usize>],
        order: &Order,
        phases: &[Phase],
        places: &[usize],
    )
        requires { Stands (rows_view imports.now) (rank_of order.now) phases.now places.now (ready_view self.old) }
        ensures { Stands (rows_view imports.now) (rank_of order.now) phases.now [] (ready_view self.new) }
    {
        for index in 0..places.len() {
            self.look_at(imports, order, phases, places, index);
        }
    }

    /// The next package that can be taken, which is passed by.
    pub fn take(&mut self, imports: &[Vec<usize>], order: &Order, phases: &[Phase]) -> Option<usize>
        requires { Stands (rows_view imports.now) (rank_of order.now) phases.now [] (ready_view self.old) }
        ensures { Takes (rows_view imports.now) (rank_of order.now) phases.now (ready_view self.old)
            (ready_view self.new) result }
    {
        match first_untaken(phases, &self.listed, self.passed) {
            Some(index) => {
                self.passed = index + 1;
                Some(self.listed[index])
            }
            None => None,
        }
    }
}
