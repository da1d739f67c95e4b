//! What packages import.

ghost use Rattle.std.specs.Prelude.{◌≡◌, ◌++◌, List, IfOk, OnOk, flat_map, map};
ghost use Rattle.imports.specs.Views.{text_views, package_view, packages_view};
ghost use Rattle.whole_packages.specs.LoadedViews.{kept_list, TellPackages};
ghost use Rattle.meaning.specs.OuterBlocks.{specs_of};
ghost use Rattle.tree.specs.View.{file_syntax, import_syntax, import_spec_syntax};
ghost use Rattle.meaning_reports.specs.Loaded.{LoadedPackage as MeantPackage, import_list, imports_of};

use crate::loaded_package::LoadedPackage;
use imports::ImportList;
use std::alloc::{AllocError, Global};
use tree::{File, ImportDecl, ImportSpec};

fn add_specs<'a>(specs: &'a [ImportSpec], paths: &mut Vec<&'a str>) -> Result<(), AllocError>
    ensures { OnOk result (text_views paths.new.items ≡ text_views paths.old.items
        ++ map (λ s. s.path) (map import_spec_syntax specs.now)) }
{
    for spec in specs {
        paths.push(spec.path.as_str())?;
    }
    Ok(())
}

fn add_declarations<'a>(
    declarations: &'a [ImportDecl],
    paths: &mut Vec<&'a str>,
) -> Result<(), AllocError>
    ensures { OnOk result (text_views paths.new.items ≡ text_views paths.old.items
        ++ map (λ s. s.path) (specs_of (map import_syntax declarations.now))) }
{
    for declaration in declarations {
        add_specs(&declaration.specs, paths)?;
    }
    Ok(())
}

/// The paths that these files import, in their order.
fn import_paths<'a>(alloc: Global, trees: &'a [File]) -> Result<Vec<&'a str>, AllocError>
    ensures { IfOk result (λ paths. text_views paths.items ≡ flat_map (λ tree. map (λ s. s.path) (imports_of tree))
        (map file_syntax trees.now)) }
{
    let mut paths = Vec::new(alloc);
    for tree in trees {
        add_declarations(&tree.imports, &mut paths)?;
    }
    Ok(paths)
}

fn list_of<'a>(alloc: Global, loaded: &'a LoadedPackage) -> Result<ImportList<'a>, AllocError>
    ensures { IfOk result (λ list. package_view list ≡ kept_list loaded.now) }
{
    Ok(ImportList {
        path: loaded.path.as_str(),
        imports: import_paths(alloc, &loaded.trees)?,
    })
}

fn kept_lists<'a>(
    alloc: Global,
    packages: &'a [LoadedPackage],
) -> Result<Vec<ImportList<'a>>, AllocError>
    ensures { IfOk result (λ lists. packages_view lists.items ≡ map kept_list packages.now) }
{
    let mut lists = Vec::new(alloc);
    for loaded in packages {
        lists.push(list_of(alloc, loaded)?)?;
    }
    Ok(lists)
}

/// What each of the packages imports.
///
/// # Errors
///
/// Memory was refused.
pub fn import_lists<'a>(
    alloc: Global,
    packages: &'a [LoadedPackage],
) -> Result<Vec<ImportList<'a>>, AllocError>
    ensures { IfOk result (λ lists. (ps : List MeantPackage) → TellPackages ps packages.now
        → packages_view lists.items ≡ import_list ps) }
{
    kept_lists(alloc, packages)
}
