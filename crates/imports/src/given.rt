//! The imports that are given: those whose paths packages of the list have.

ghost use Rattle.std.specs.Prelude.{◌≡◌, ℕ, List, Option, IfOk, OnOk, Some, None, if◌then◌else◌, map, filter_map};
ghost use Rattle.std.specs.Str.{bytes_eq};
ghost use Rattle.imports.specs.Settling.{place_from, places_of, given_imports};
ghost use Rattle.imports.specs.Views.{at_path, text_views, packages_view, rows_view, Adds};

use crate::import_list::ImportList;
use indexmap::IndexMap;
use std::alloc::{AllocError, Global};

/// Gives the path the place, unless it has one already.
fn keep_first<'a>(
    places: &mut IndexMap<&'a str, usize>,
    path: &'a str,
    place: usize,
) -> Result<(), AllocError>
    ensures { OnOk result (Adds places.old places.new (λ other. if bytes_eq path.now other then Some place else None)) }
{
    if !places.contains_key(path) {
        places.insert(path, place)?;
    }
    Ok(())
}

/// The place of the first package of each path.
///
/// # Errors
///
/// Memory was refused.
pub fn first_places<'a>(
    alloc: Global,
    packages: &[ImportList<'a>],
) -> Result<IndexMap<&'a str, usize>, AllocError>
    ensures { IfOk result (λ places. (path : List ℕ)
        → at_path places path ≡ place_from path (packages_view packages.now) 0) }
{
    let mut places = IndexMap::new(alloc);
    for (place, list) in packages.iter().enumerate() {
        keep_first(&mut places, list.path, place)?;
    }
    Ok(places)
}

/// The places of the packages that have these paths.
fn places_of<'a>(
    alloc: Global,
    places: &IndexMap<&'a str, usize>,
    paths: &[&'a str],
) -> Result<Vec<usize>, AllocError>
    ensures { IfOk result (λ found. found.items ≡ filter_map (at_path places.now) (text_views paths.now)) }
{
    let mut found = Vec::new(alloc);
    for path in paths {
        if let Some(place) = places.get(*path) {
            found.push(*place)?;
        }
    }
    Ok(found)
}

/// For each package the places of those of its imports that have one here.
fn found_imports(
    alloc: Global,
    places: &IndexMap<&str, usize>,
    packages: &[ImportList<'_>],
) -> Result<Vec<Vec<usize>>, AllocError>
    ensures { IfOk result (λ found. rows_view found.items
        ≡ map (places_of (at_path places.now)) (packages_view packages.now)) }
{
    let mut found = Vec::new(alloc);
    for list in packages {
        found.push(places_of(alloc, places, &list.imports)?)?;
    }
    Ok(found)
}

/// For each package the places of the packages that it imports.
///
/// # Errors
///
/// Memory was refused.
pub fn given_imports(
    alloc: Global,
    packages: &[ImportList<'_>],
) -> Result<Vec<Vec<usize>>, AllocError>
    ensures { IfOk result (λ given. rows_view given.items ≡ given_imports (packages_view packages.now)) }
{
    let places = first_places(alloc, packages)?;
    found_imports(alloc, &places, packages)
}
