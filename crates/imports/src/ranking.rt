//! How the packages get their ranks.

ghost use Rattle.std.specs.Prelude.{◌≡◌, [], OnOk, IfOk, slice_get, slice_index_or};
ghost use Rattle.imports.specs.Settling.{is_unranked, left_of, begun, ranked_next, waits_for, settled_with, settled, settled_all, released, served, served_by};
ghost use Rattle.imports.specs.Views.{ranking_view, rows_view};

use crate::rows::{empty_rows, push_at, set_slice, slices, take_row};
use std::alloc::{AllocError, Global};

/// What is known of the packages so far, by their places: the imports of each, but for some that have ranks; the
/// packages that wait for it, and its rank. And the packages that have ranks, in their order.
#[derive(Drop)]
pub struct Ranking<'a> {
    pending: Vec<&'a [usize]>,
    waiting: Vec<Vec<usize>>,
    pub ranks: Vec<Option<usize>>,
    pub ranked: Vec<usize>,
}

/// Whether there is such a package, and it has no rank.
fn is_unranked(ranks: &[Option<usize>], place: usize) -> bool
    ensures { result ≡ is_unranked ranks.now place }
{
    match ranks.get(place) {
        Some(rank) => rank.is_none(),
        None => false,
    }
}

/// What is left of the imports from the first on that has no rank.
fn left_of<'a>(ranks: &[Option<usize>], imports: &'a [usize]) -> &'a [usize]
    ensures { result.now ≡ left_of ranks.now imports.now }
{
    for (index, import) in imports.iter().enumerate() {
        if is_unranked(ranks, *import) {
            return &imports[index..];
        }
    }
    &[]
}

impl<'a> Ranking<'a> {
    /// Nothing is settled. The imports of each package are given by their places.
    ///
    /// # Errors
    ///
    /// Memory was refused.
    pub fn new(alloc: Global, given: &'a [Vec<usize>]) -> Result<Self, AllocError>
        ensures { IfOk result (λ ranking. ranking_view ranking ≡ begun (rows_view given.now)) }
    {
        Ok(Ranking {
            pending: slices(alloc, given)?,
            waiting: empty_rows(alloc, given.len())?,
            ranks: vec![in alloc; None; given.len()]?,
            ranked: Vec::new(alloc),
        })
    }

    /// The package gets the next rank.
    fn rank_next(&mut self, place: usize) -> Result<(), AllocError>
        ensures { OnOk result (ranking_view self.new ≡ ranked_next place (ranking_view self.old)) }
    {
        if let Some(rank) = self.ranks.get_mut(place) {
            *rank = Some(self.ranked.len());
        }
        self.ranked.push(place)?;
        Ok(())
    }

    /// The package waits for the import, and these are left of its imports.
    fn wait_for(&mut self, place: usize, import: usize, left: &'a [usize]) -> Result<(), AllocError>
        ensures { OnOk result (ranking_view self.new ≡ waits_for place import left.now (ranking_view self.old)) }
    {
        set_slice(&mut self.pending, place, left);
        push_at(&mut self.waiting, import, place)
    }

    /// The imports of the package that are not known to have ranks.
    fn pending_of(&self, place: usize) -> &'a [usize]
        ensures { result.now ≡ slice_index_or (ranking_view self.now).pending place [] }
    {
        match self.pending.get(place) {
            Some(pending) => pending,
            None => &[],
        }
    }

    /// The package gets the next rank if none of these imports is left, and waits for the first of them otherwise.
    fn settle_with(&mut self, place: usize, left: &'a [usize]) -> Result<(), AllocError>
        ensures { OnOk result (ranking_view self.new ≡ settled_with place left.now (ranking_view self.old)) }
    {
        match left.first() {
            Some(import) => self.wait_for(place, *import, left),
            None => self.rank_next(place),
        }
    }

    /// The package gets the next rank if it has none and all its imports have ranks; if one has none, it waits for it.
    ///
    /// # Errors
    ///
    /// Memory was refused.
    pub fn settle(&mut self, place: usize) -> Result<(), AllocError>
        ensures { OnOk result (ranking_view self.new ≡ settled place (ranking_view self.old)) }
    {
        if !is_unranked(&self.ranks, place) {
            return Ok(());
        }
        let left = left_of(&self.ranks, self.pending_of(place));
        self.settle_with(place, left)
    }

    /// Settles each of the packages.
    fn settle_all(&mut self, packages: &[usize]) -> Result<(), AllocError>
        ensures { OnOk result (ranking_view self.new ≡ settled_all packages.now (ranking_view self.old)) }
    {
        for place in packages {
            self.settle(*place)?;
        }
        Ok(())
    }

    /// Those that wait for the package, which are taken out.
    fn release(&mut self, alloc: Global, place: usize) -> Vec<usize>
        ensures waiting { result.items ≡ slice_index_or (ranking_view self.old).waiting place [] }
        ensures released { ranking_view self.new ≡ released place (ranking_view self.old) }
    {
        take_row(alloc, &mut self.waiting, place)
    }

    /// Settles those that wait for the package.
    fn serve(&mut self, alloc: Global, place: usize) -> Result<(), AllocError>
        ensures { OnOk result (ranking_view self.new ≡ served place (ranking_view self.old)) }
    {
        let waiting = self.release(alloc, place);
        self.settle_all(&waiting)
    }

    /// Settles those that wait for the package of that rank, if there is one.
    ///
    /// # Errors
    ///
    /// Memory was refused.
    pub fn serve_rank(&mut self, alloc: Global, rank: usize) -> Result<(), AllocError>
        ensures { OnOk result (ranking_view self.new
            ≡ served_by (slice_get (ranking_view self.old).ranked rank) (ranking_view self.old)) }
    {
        match self.ranked.get(rank).copied() {
            Some(place) => self.serve(alloc, place),
            None => Ok(()),
        }
    }
}
