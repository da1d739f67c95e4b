//! Packages in the order of their imports.

ghost use Rattle.std.specs.Prelude.{IfOk};
ghost use Rattle.imports.specs.Ranks.{IsOrder};
ghost use Rattle.imports.specs.Views.{packages_view, rank_of, ranked_of};

use crate::given::given_imports;
use crate::import_list::ImportList;
use crate::ranking::Ranking;
use crate::ranks::Order;
use std::alloc::{AllocError, Global};

/// The order of the packages by their imports. A package has a rank unless a chain of imports from it meets a package
/// twice. Paths that no package of the list has don't count, and where two packages have one path, the first is meant.
/// The time is linear in the packages and imports.
///
/// # Errors
///
/// Memory was refused.
pub fn order(alloc: Global, packages: &[ImportList<'_>]) -> Result<Order, AllocError>
    ensures { IfOk result (λ order. IsOrder (packages_view packages.now) (rank_of order) (ranked_of order)) }
{
    let given = given_imports(alloc, packages)?;
    let mut ranking = Ranking::new(alloc, &given)?;
    for place in 0..packages.len() {
        ranking.settle(place)?;
    }
    for rank in 0..packages.len() {
        ranking.serve_rank(alloc, rank)?;
    }
    let Ranking { ranks, ranked, .. } = ranking;
    Ok(Order { ranks, ranked })
}
