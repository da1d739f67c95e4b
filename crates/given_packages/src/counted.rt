//! Which of the given packages count as given for those that import them.

ghost use Rattle.std.specs.Prelude.{◌≡◌, ◌&&◌, IfOk, is_some, map, not};
ghost use Rattle.std.specs.List.{list_all};
ghost use Rattle.meaning.specs.TwoFunctions.{second_function};
ghost use Rattle.tree.specs.View.{file_syntax};
ghost use Rattle.whole_packages.specs.CountedViews.{kept_counts, kept_whole};

use names::second_function;
use std::alloc::{AllocError, Global};
use tree::{Edition, File};
use whole_packages::{LoadedPackage, are_trees};

/// Whether two functions of these files have one name.
fn has_second(alloc: Global, trees: &[File]) -> Result<bool, AllocError>
    ensures { IfOk result (λ has. has ≡ is_some (second_function (map file_syntax trees.now))) }
{
    match second_function(alloc, trees)? {
        Some(_) => Ok(true),
        None => Ok(false),
    }
}

/// Whether each file of the package has a tree, and no two of its functions have one name.
fn is_whole(alloc: Global, loaded: &LoadedPackage) -> Result<bool, AllocError>
    ensures { IfOk result (λ is. is ≡ kept_whole loaded.now) }
{
    if are_trees(&loaded.readings) {
        let has = has_second(alloc, &loaded.trees)?;
        Ok(!has)
    } else {
        Ok(false)
    }
}

/// Whether the package counts as given for those that import it: in the second edition only where each of its files has
/// a tree and no two of its functions have one name.
///
/// # Errors
///
/// Memory was refused.
pub fn counts_as_given(alloc: Global, loaded: &LoadedPackage) -> Result<bool, AllocError>
    ensures { IfOk result (λ counts. counts ≡ kept_counts loaded.now) }
{
    match loaded.edition {
        Edition::First => Ok(true),
        Edition::Second => is_whole(alloc, loaded),
    }
}

/// For each of these packages whether it counts as given.
///
/// # Errors
///
/// Memory was refused.
pub fn counted_packages(alloc: Global, packages: &[LoadedPackage]) -> Result<Vec<bool>, AllocError>
    ensures { IfOk result (λ marks. marks.items ≡ map kept_counts packages.now) }
{
    let mut marks = Vec::new(alloc);
    for loaded in packages {
        marks.push(counts_as_given(alloc, loaded)?)?;
    }
    Ok(marks)
}
