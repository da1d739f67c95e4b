//! Trees with the numbers of their files.

ghost use Rattle.std.specs.Prelude.{◌≡◌, ◌+◌, ◌++◌, ◌∷◌, List, IfOk, map};
ghost use Rattle.whole_packages.specs.declared.loaded_package.Reading.{Reading};
ghost use Rattle.whole_packages.specs.LoadedViews.{kept_trees, numbered_view, readings_of, TellsPackage};
ghost use Rattle.tree.specs.View.{file_syntax};
ghost use Rattle.meaning_reports.specs.Loaded.{LoadedPackage as MeantPackage, trees_from, numbered_trees};

use crate::loaded_package::{LoadedPackage, Reading};
use std::alloc::{AllocError, Global};
use tree::File;

/// A tree, and the number of its file in the package, from 0.
#[derive(Clone, Copy)]
pub struct NumberedTree<'a> {
    pub file: usize,
    pub tree: &'a File,
}

/// Adds the first of the trees, if the file has one, and answers those that are left.
fn add_tree<'a>(
    file: usize,
    reading: Reading,
    trees: &'a [File],
    found: &mut Vec<NumberedTree<'a>>,
) -> Result<&'a [File], AllocError>
    ensures { IfOk result (λ rest. (rs : List Reading) → map numbered_view found.new.items ++ trees_from (file + 1)
        (readings_of rs (map file_syntax rest.now)) ≡ map numbered_view found.old.items ++ trees_from file
        (readings_of (reading ∷ rs) (map file_syntax trees.now))) }
{
    match (reading, trees.split_first()) {
        (Reading::Tree, Some((tree, after))) => {
            found.push(NumberedTree { file, tree })?;
            Ok(after)
        }
        (Reading::Tree, None) => Ok(trees),
        (Reading::NoTokens(_, _), _) | (Reading::NoTree(_, _), _) => Ok(trees),
    }
}

fn with_numbers<'a>(
    alloc: Global,
    readings: &[Reading],
    trees: &'a [File],
) -> Result<Vec<NumberedTree<'a>>, AllocError>
    ensures { IfOk result (λ found. map numbered_view found.items ≡ trees_from 0 (readings_of readings.now
        (map file_syntax trees.now))) }
{
    let mut found = Vec::new(alloc);
    let mut rest = trees;
    for (file, reading) in readings.iter().enumerate() {
        rest = add_tree(file, *reading, rest, &mut found)?;
    }
    Ok(found)
}

/// The trees of a package with the numbers of their files.
///
/// # Errors
///
/// Memory was refused.
pub fn numbered_trees<'a>(
    alloc: Global,
    loaded: &'a LoadedPackage,
) -> Result<Vec<NumberedTree<'a>>, AllocError>
    ensures kept { IfOk result (λ found. map numbered_view found.items ≡ kept_trees loaded.now) }
    ensures meant { IfOk result (λ found. (p : MeantPackage) → TellsPackage p loaded.now
        → map numbered_view found.items ≡ numbered_trees p) }
{
    with_numbers(alloc, &loaded.readings, &loaded.trees)
}
