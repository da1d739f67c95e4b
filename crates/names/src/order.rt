//! Locals in the order of their names and, of one name, of the offsets at which their blocks begin.

ghost use Rattle.std.specs.Prelude.{IfOk};
ghost use Rattle.std.specs.List.Sorted.{IsPermutation};
ghost use Rattle.indexmap.specs.IndexMap.{values};
ghost use Rattle.names.specs.Answers.{at_name};
ghost use Rattle.names.specs.Ordered.{AreOrdered, AreRuns, locals_view};

use crate::locals::FirstLocals;
use indexmap::IndexMap;
use scopes::LocalName;
use std::alloc::{AllocError, Global};

/// Where the locals of one name stand among those in order: from the start up to the end.
#[derive(Clone, Copy)]
pub struct Run {
    pub start: usize,
    pub end: usize,
}

/// The locals by name and block.
///
/// # Errors
///
/// Memory was refused.
pub fn ordered<'a>(
    alloc: Global,
    locals: &FirstLocals<'a>,
) -> Result<Vec<LocalName<'a>>, AllocError>
    ensures same { IfOk result (λ ordered. IsPermutation (values locals.now) ordered.items) }
    ensures ordered { IfOk result (λ ordered. AreOrdered (locals_view ordered.items)) }
{
    let mut ordered = Vec::new(alloc);
    for local in locals.values() {
        ordered.push(*local)?;
    }
    ordered.sort_unstable_by_key(|local| (local.name, local.block.start));
    Ok(ordered)
}

/// By its name, where its locals stand. To look a name up costs less than to search for it by comparing texts.
///
/// # Errors
///
/// Memory was refused.
pub fn runs<'a>(
    alloc: Global,
    ordered: &[LocalName<'a>],
) -> Result<IndexMap<&'a str, Run>, AllocError>
    requires { AreOrdered (locals_view ordered.now) }
    ensures { IfOk result (λ runs. AreRuns (locals_view ordered.now) (at_name runs)) }
{
    let mut runs = IndexMap::new(alloc);
    let mut start = 0;
    for (index, local) in ordered.iter().enumerate() {
        if ordered[start].name != local.name {
            start = index;
        }
        let run = Run {
            start,
            end: index + 1,
        };
        runs.insert(local.name, run)?;
    }
    Ok(runs)
}
