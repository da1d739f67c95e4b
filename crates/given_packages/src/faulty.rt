//! Which of the given packages have a fault as a whole.

ghost use Rattle.std.specs.Prelude.{◌≡◌, IfOk, map};
ghost use Rattle.imports.specs.Views.{at_path};
ghost use Rattle.whole_packages.specs.WholeEntries.{is_faulty};

use names::second_function;
use std::alloc::{AllocError, Global};
use whole_packages::{LoadedPackage, Marked, Second, has_whole_fault};

/// Whether the package has a fault as a whole.
fn is_faulty(
    alloc: Global,
    loaded: &LoadedPackage,
    unranked: Marked<'_, '_>,
) -> Result<bool, AllocError>
    ensures { IfOk result (λ is. is
        ≡ is_faulty (at_path unranked.entry.places.now) unranked.entry.marks.now loaded.now) }
{
    match second_function(alloc, &loaded.trees)? {
        Some((tree, name)) => {
            let second = Second { tree, name };
            has_whole_fault(alloc, loaded, Some(second), unranked)
        }
        None => has_whole_fault(alloc, loaded, None, unranked),
    }
}

/// For each of these packages whether it has a fault as a whole, where some of the given packages have no rank.
///
/// # Errors
///
/// Memory was refused.
pub fn faulty_packages(
    alloc: Global,
    packages: &[LoadedPackage],
    unranked: Marked<'_, '_>,
) -> Result<Vec<bool>, AllocError>
    ensures { IfOk result (λ marks. marks.items
        ≡ map (is_faulty (at_path unranked.entry.places.now) unranked.entry.marks.now) packages.now) }
{
    let mut marks = Vec::new(alloc);
    for loaded in packages {
        marks.push(is_faulty(alloc, loaded, unranked)?)?;
    }
    Ok(marks)
}
