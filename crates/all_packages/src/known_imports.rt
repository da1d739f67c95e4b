//! What is known of a package's imports by what was judged of them.

ghost use Rattle.std.specs.Prelude.{◌++◌, List, [], IfOk, OnOk, filter_map};
ghost use Rattle.std.specs.List.{cons_option};
ghost use Rattle.all_packages.specs.Progress.{judged_in};
ghost use Rattle.imports.specs.Views.{text_views};
ghost use Rattle.one_package.specs.Results.{KnowsImports, KnowsJudged};
ghost use Rattle.one_package.specs.declared.judged.Judged.{Judged};

use crate::progress::Progress;
use given_packages::Given;
use one_package::KnownImports;
use std::alloc::{AllocError, Global};

/// Adds what is said of the package of that place, if it was judged.
fn add_import<'a, 'k>(
    place: usize,
    progress: &'k Progress<'a>,
    known: &mut KnownImports<'a, 'k>,
) -> Result<(), AllocError>
    ensures { OnOk result ((js : List Judged) → KnowsJudged js known.old
        → KnowsJudged (js ++ cons_option (judged_in progress.now place) []) known.new) }
{
    match progress.at(place) {
        Some(one) => known.add(one),
        None => Ok(()),
    }
}

/// What is known of the packages at these places, as far as they were judged, and what is declared of those of these
/// paths that were not given. Of several of one path the first counts.
///
/// # Errors
///
/// Memory was refused.
pub fn known_imports<'a, 'k>(
    alloc: Global,
    given: &'k Given<'a>,
    paths: &[&'a str],
    progress: &'k Progress<'a>,
    places: &[usize],
) -> Result<KnownImports<'a, 'k>, AllocError>
    ensures { IfOk result (KnowsImports given.now (text_views paths.now)
        (filter_map (judged_in progress.now) places.now)) }
{
    let mut known = KnownImports::new(alloc);
    for place in places {
        add_import(*place, progress, &mut known)?;
    }
    known.add_outside(given, paths)?;
    Ok(known)
}
