//! The names of packages.

ghost use Rattle.std.specs.Prelude.{◌≡◌, ℕ, List, IfOk, OnOk};
ghost use Rattle.given_packages.specs.Given.{first_name, kept_name, names_from};
ghost use Rattle.whole_packages.specs.LoadedViews.{HaveDistinctPaths, TellPackages};
ghost use Rattle.meaning.specs.OuterBlocks.{or_else};
ghost use Rattle.names.specs.Answers.{names_by_path};
ghost use Rattle.meaning_reports.specs.Loaded.{LoadedPackage as MeantPackage, package_names};

use crate::counted::counts_as_given;
use names::PackageNames;
use std::alloc::{AllocError, Global};
use whole_packages::LoadedPackage;

/// Adds the name of a package, if it has a file with a tree.
fn add_first_name<'a>(
    loaded: &'a LoadedPackage,
    names: &mut PackageNames<'a>,
) -> Result<(), AllocError>
    ensures { OnOk result ((path : List ℕ) → names_by_path names.new path
        ≡ or_else (names_by_path names.old path) (first_name loaded.now path)) }
{
    if let Some(tree) = loaded.trees.first() {
        names.insert(loaded.path.as_str(), tree.package_name.text.as_str())?;
    }
    Ok(())
}

/// Adds the name of a package, if it counts as given.
fn add_name<'a>(
    alloc: Global,
    loaded: &'a LoadedPackage,
    names: &mut PackageNames<'a>,
) -> Result<(), AllocError>
    ensures { OnOk result ((path : List ℕ) → names_by_path names.new path
        ≡ or_else (names_by_path names.old path) (kept_name loaded.now path)) }
{
    if counts_as_given(alloc, loaded)? {
        add_first_name(loaded, names)
    } else {
        Ok(())
    }
}

fn kept_names<'a>(
    alloc: Global,
    packages: &'a [LoadedPackage],
) -> Result<PackageNames<'a>, AllocError>
    ensures { IfOk result (λ names. (path : List ℕ) → names_by_path names path ≡ names_from packages.now path) }
{
    let mut names = PackageNames::new(alloc);
    for loaded in packages {
        add_name(alloc, loaded, &mut names)?;
    }
    Ok(names)
}

/// The names of packages of different paths, by their paths. A package without a tree has none, and neither has one
/// that counts as not given.
///
/// # Errors
///
/// Memory was refused.
pub fn names_of_packages<'a>(
    alloc: Global,
    packages: &'a [LoadedPackage],
) -> Result<PackageNames<'a>, AllocError>
    ensures { IfOk result (λ names. (ps : List MeantPackage) → TellPackages ps packages.now → HaveDistinctPaths ps
        → (path : List ℕ) → names_by_path names path ≡ package_names ps path) }
{
    kept_names(alloc, packages)
}
