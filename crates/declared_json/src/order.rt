//! Functions in their order, and paths, of which nothing may come twice.

ghost use Rattle.std.specs.Prelude.{◌≡◌, Decides, List, map, IfNone, IfOk, IfSome};
ghost use Rattle.table_json.specs.Tables.{by_bytes, IsArranged};
ghost use Rattle.declared_json.specs.DeclaredPackages.{function_of, name_of, package_of, path_of, AreApart, FunctionEntry};

use crate::outside::{DeclaredFunction, DeclaredPackage};
use std::alloc::{AllocError, Global};
use table_json::are_distinct;

/// Functions in the order of their names; `None` if one comes twice.
pub(crate) fn functions_in_order(functions: Vec<DeclaredFunction>) -> Option<Vec<DeclaredFunction>>
    ensures some { IfSome result (λ ordered. IsArranged by_bytes name_of (map function_of functions.items)
        (map function_of ordered.items)) }
    ensures none { IfNone result
        ((other : List FunctionEntry) → ¬ IsArranged by_bytes name_of (map function_of functions.items) other) }
{
    let mut ordered = functions;
    ordered.sort_unstable_by(|first, second| first.facts.name.cmp(&second.facts.name));
    if ordered.is_sorted_by(|first, second| first.facts.name < second.facts.name) {
        Some(ordered)
    } else {
        None
    }
}

/// The paths of packages.
pub(crate) fn paths_of(alloc: Global, packages: &[DeclaredPackage]) -> Result<Vec<&str>, AllocError>
    ensures { IfOk result
        (λ paths. map (λ path. path.now) paths.items ≡ map path_of (map package_of packages.now)) }
{
    let mut paths = Vec::new(alloc);
    for entry in packages {
        paths.push(entry.path.as_str())?;
    }
    Ok(paths)
}

/// Whether no two of the packages have one path.
pub(crate) fn are_apart(alloc: Global, packages: &[DeclaredPackage]) -> Result<bool, AllocError>
    ensures { IfOk result (λ apart. Decides apart (AreApart (map package_of packages.now))) }
{
    let paths = paths_of(alloc, packages)?;
    Ok(are_distinct(paths))
}
