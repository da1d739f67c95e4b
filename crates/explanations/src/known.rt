//! What is known of a package's imports by what was judged of them.

ghost use Rattle.std.specs.Prelude.{◌++◌, List, [], IfOk, OnOk, filter_map, slice_get};
ghost use Rattle.std.specs.List.{cons_option};
ghost use Rattle.imports.specs.Views.{text_views};
ghost use Rattle.one_package.specs.Results.{KnowsImports, KnowsJudged};
ghost use Rattle.one_package.specs.declared.judged.Judged.{Judged};

use given_packages::Given;
use one_package::{Judged, KnownImports};
use std::alloc::{AllocError, Global};

/// Adds what is said of the package of that place, if there is one.
fn add_import<'a, 'k>(
    place: usize,
    judged: &'k [Judged<'a>],
    known: &mut KnownImports<'a, 'k>,
) -> Result<(), AllocError>
    ensures { OnOk result ((js : List Judged) → KnowsJudged js known.old
        → KnowsJudged (js ++ cons_option (slice_get judged.now place) []) known.new) }
{
    match judged.get(place) {
        Some(one) => known.add(one),
        None => Ok(()),
    }
}

/// What is known of the packages at these places, and what is declared of those of these paths that were not given. Of
/// several of one path the first counts.
///
/// # Errors
///
/// Memory was refused.
pub fn known_imports<'a, 'k>(
    alloc: Global,
    given: &'k Given<'a>,
    paths: &[&'a str],
    judged: &'k [Judged<'a>],
    places: &[usize],
) -> Result<KnownImports<'a, 'k>, AllocError>
    ensures { IfOk result (KnowsImports given.now (text_views paths.now)
        (filter_map (slice_get judged.now) places.now)) }
{
    let mut known = KnownImports::new(alloc);
    for place in places {
        add_import(*place, judged, &mut known)?;
    }
    known.add_outside(given, paths)?;
    Ok(known)
}
