//! An order of packages.

ghost use Rattle.std.specs.Prelude.{◌≡◌};
ghost use Rattle.imports.specs.Views.{rank_of, ranked_of};

/// Ranks of packages, so that each comes after those that it imports.
#[derive(Drop)]
pub struct Order {
    pub(crate) ranks: Vec<Option<usize>>,
    pub(crate) ranked: Vec<usize>,
}

impl Order {
    /// The rank of the package at that place of the list, from 0; `None` where a chain of imports from it meets a
    /// package twice, and where there is no such package.
    pub fn rank(&self, place: usize) -> Option<usize>
        ensures { result ≡ rank_of self.now place }
    {
        match self.ranks.get(place) {
            Some(rank) => *rank,
            None => None,
        }
    }

    /// The places of the packages that have ranks, in the order of these: what one of them imports stands before it.
    pub fn ranked(&self) -> &[usize]
        ensures { result.now ≡ ranked_of self.now }
    {
        &self.ranked
    }
}
