//! The first of packages in memory that mentions cancel functions with a cause.

ghost use Rattle.std.specs.Prelude.{◌≡◌, IfOk, option_map};
ghost use Rattle.cause_mentions.specs.CauseMentions.{first_kept};
ghost use Rattle.names.specs.Answers.{names_by_path};

use crate::mentioned::trees_mention;
use names::PackageNames;
use std::alloc::{AllocError, Global};
use whole_packages::LoadedPackage;

/// The path of the first of these packages that does, if one does, where the given packages have these names.
///
/// # Errors
///
/// Memory was refused.
pub fn first_kept<'a>(
    alloc: Global,
    names: &PackageNames<'_>,
    packages: &'a [LoadedPackage],
) -> Result<Option<&'a str>, AllocError>
    ensures { IfOk result (λ found. option_map (λ path. path.now) found
        ≡ first_kept (names_by_path names.now) packages.now) }
{
    for loaded in packages {
        if trees_mention(alloc, names, &loaded.trees)? {
            return Ok(Some(loaded.path.as_str()));
        }
    }
    Ok(None)
}
