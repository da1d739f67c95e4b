//! Given packages that count as not given.

ghost use Rattle.std.specs.Prelude.{◌≡◌, ◌&&◌, ◌||◌, ℕ, List, IfOk, OnOk, is_some, map, not, string_bytes};
ghost use Rattle.first_values.specs.ValuesByName.{value_of};
ghost use Rattle.imports.specs.Views.{packages_view, text_views};
ghost use Rattle.judge.specs.NotGiven.{kept_not_given, names_path, some_names, TellNotGiven};
ghost use Rattle.whole_packages.specs.CountedViews.{kept_counts};

use first_values::FirstValues;
use given_packages::counts_as_given;
use imports::ImportList;
use std::alloc::{AllocError, Global};
use told_reports::Report;
use whole_packages::{LoadedPackage, import_lists};

/// A report, and for notes the paths of given packages that count as not given and that one of the packages imports.
#[derive(Debug, Drop)]
pub struct NotedReport {
    pub report: Report,
    pub not_given: Vec<String>,
}

/// Adds these paths.
fn add_paths<'a>(imports: &[&'a str], paths: &mut FirstValues<'a, ()>) -> Result<(), AllocError>
    ensures { OnOk result ((path : List ℕ) → is_some (value_of paths.new path)
        ≡ (is_some (value_of paths.old path) || names_path (text_views imports.now) path)) }
{
    for import in imports {
        paths.insert(import, ())?;
    }
    Ok(())
}

/// The paths that some package imports.
fn imported<'a>(alloc: Global, lists: &[ImportList<'a>]) -> Result<FirstValues<'a, ()>, AllocError>
    ensures { IfOk result (λ paths. (path : List ℕ)
        → is_some (value_of paths path) ≡ some_names (packages_view lists.now) path) }
{
    let mut paths = FirstValues::new(alloc);
    for list in lists {
        add_paths(&list.imports, &mut paths)?;
    }
    Ok(paths)
}

/// Whether the package counts as not given, where these paths are imported and its path is one of them.
fn is_not_given(
    alloc: Global,
    loaded: &LoadedPackage,
    imported: &FirstValues<'_, ()>,
) -> Result<bool, AllocError>
    ensures { IfOk result (λ is. is
        ≡ (not (kept_counts loaded.now) && is_some (value_of imported.now (string_bytes loaded.now.path)))) }
{
    let counts = counts_as_given(alloc, loaded)?;
    Ok(!counts && imported.has(loaded.path.as_str()))
}

/// The paths of packages that count as not given and that one of the packages imports, in the order of the packages.
///
/// # Errors
///
/// Memory was refused.
pub fn not_given(alloc: Global, packages: &[LoadedPackage]) -> Result<Vec<String>, AllocError>
    ensures { IfOk result (λ paths. TellNotGiven packages.now paths.items) }
{
    let lists = import_lists(alloc, packages)?;
    let imported = imported(alloc, &lists)?;
    paths_not_given(alloc, packages, &imported)
}

/// The same, where these paths are imported.
fn paths_not_given(
    alloc: Global,
    packages: &[LoadedPackage],
    imported: &FirstValues<'_, ()>,
) -> Result<Vec<String>, AllocError>
    ensures { IfOk result (λ paths. map string_bytes paths.items
        ≡ kept_not_given (λ path. is_some (value_of imported.now path)) packages.now) }
{
    let mut paths = Vec::new(alloc);
    for loaded in packages {
        if is_not_given(alloc, loaded, imported)? {
            paths.push(String::from_str(alloc, loaded.path.as_str())?)?;
        }
    }
    Ok(paths)
}
