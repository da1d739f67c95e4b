//! Lists that become one.

ghost use Rattle.std.specs.Prelude.{◌≡◌, IfOk};
ghost use Rattle.workers.specs.Pieces.{joined};

use std::alloc::{AllocError, Global};

/// All items of these lists, one list behind the other.
///
/// # Errors
///
/// Memory was refused.
pub fn joined<X: Drop>(alloc: Global, lists: Vec<Vec<X>>) -> Result<Vec<X>, AllocError>
    ensures { IfOk result (λ all. all.items ≡ joined lists.items) }
{
    let mut all = Vec::new(alloc);
    for list in lists {
        let mut rest = list;
        all.append(&mut rest)?;
    }
    Ok(all)
}
