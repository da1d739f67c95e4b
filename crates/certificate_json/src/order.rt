//! Bodies in their order, and paths, of which nothing may come twice.

ghost use Rattle.std.specs.Prelude.{Decides, List, map, IfNone, IfOk, IfSome, ◌≡◌};
ghost use Rattle.table_json.specs.Tables.{IsArranged};
ghost use Rattle.certificate_json.specs.Certificates.{body_of, by_place, package_of, path_of, place_of, AreApart, BodyEntry};

use crate::certificates::{Body, Package};
use std::alloc::{AllocError, Global};
use table_json::are_distinct;

/// Bodies by file and offset; `None` if one comes twice.
pub(crate) fn bodies_in_order(bodies: Vec<Body>) -> Option<Vec<Body>>
    ensures some { IfSome result
        (λ ordered. IsArranged by_place place_of (map body_of bodies.items) (map body_of ordered.items)) }
    ensures none { IfNone result
        ((other : List BodyEntry) → ¬ IsArranged by_place place_of (map body_of bodies.items) other) }
{
    let mut ordered = bodies;
    ordered.sort_unstable_by_key(|body| body.place());
    if ordered.is_sorted_by(|first, second| first.place().cmp(&second.place()).is_lt()) {
        Some(ordered)
    } else {
        None
    }
}

/// The paths of packages.
fn paths_of(alloc: Global, packages: &[Package]) -> Result<Vec<&str>, AllocError>
    ensures { IfOk result
        (λ paths. map (λ path. path.now) paths.items ≡ map path_of (map package_of packages.now)) }
{
    let mut paths = Vec::new(alloc);
    for entry in packages {
        paths.push(entry.path.as_str())?;
    }
    Ok(paths)
}

/// Whether no two of the packages have one path.
pub(crate) fn are_apart(alloc: Global, packages: &[Package]) -> Result<bool, AllocError>
    ensures { IfOk result (λ apart. Decides apart (AreApart (map package_of packages.now))) }
{
    let paths = paths_of(alloc, packages)?;
    Ok(are_distinct(paths))
}
