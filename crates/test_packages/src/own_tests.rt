//! What a list says of paths.

ghost use Rattle.std.specs.Prelude.{◌≡◌, ℕ, List, IfOk, map};
ghost use Rattle.package_list.specs.ListedValues.{package_of};
ghost use Rattle.test_packages.specs.KnownPaths.{knows};
ghost use Rattle.test_packages.specs.ReadPackages.{asks_for, has_own_tests};

use crate::known_paths::KnownPaths;
use crate::suffix::{is_of_own_tests, without_suffix};
use package_list::ListedPackage;
use std::alloc::{AllocError, Global};

/// The import paths of the packages that the list has as they are built with their own tests.
pub fn own_tests<'a>(
    alloc: Global,
    packages: &'a [ListedPackage],
) -> Result<KnownPaths<'a>, AllocError>
    ensures { IfOk result (λ paths. (path : List ℕ) → knows paths path
        ≡ has_own_tests (map package_of packages.now) path) }
{
    let mut paths = KnownPaths::new(alloc);
    for listed in packages {
        let path = listed.path.as_str();
        let is = is_of_own_tests(alloc, path)?;
        paths.insert_if(is, without_suffix(path))?;
    }
    Ok(paths)
}

/// The import paths of the packages that were asked for.
pub fn asked_for<'a>(
    alloc: Global,
    packages: &'a [ListedPackage],
) -> Result<KnownPaths<'a>, AllocError>
    ensures { IfOk result (λ paths. (path : List ℕ) → knows paths path
        ≡ asks_for (map package_of packages.now) path) }
{
    let mut paths = KnownPaths::new(alloc);
    for listed in packages {
        paths.insert_if(!listed.dep_only, without_suffix(listed.path.as_str()))?;
    }
    Ok(paths)
}
