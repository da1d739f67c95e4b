//! The first package that mentions cancel functions with a cause.

ghost use Rattle.std.specs.Prelude.{◌≡◌, List, IfOk, option_map};
ghost use Rattle.cause_mentions.specs.CauseMentions.{first_with_causes};
ghost use Rattle.meaning_reports.specs.Loaded.{LoadedPackage as MeantPackage};
ghost use Rattle.whole_packages.specs.LoadedViews.{HaveDistinctPaths, TellPackages};

use cause_mentions::first_kept;
use given_packages::names_of_packages;
use std::alloc::{AllocError, Global};
use whole_packages::LoadedPackage;

/// The path of the first of these packages that mentions cancel functions with a cause, if one does.
///
/// # Errors
///
/// Memory was refused.
pub fn first_with_causes<'a>(
    alloc: Global,
    packages: &'a [LoadedPackage],
) -> Result<Option<&'a str>, AllocError>
    ensures { IfOk result (λ found. (ps : List MeantPackage) → TellPackages ps packages.now → HaveDistinctPaths ps
        → option_map (λ path. path.now) found ≡ first_with_causes ps) }
{
    let names = names_of_packages(alloc, packages)?;
    first_kept(alloc, &names, packages)
}
