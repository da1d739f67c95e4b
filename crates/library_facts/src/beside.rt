//! What is declared of packages, beside those that are given.

ghost use Rattle.std.specs.Prelude.{◌≡◌, IfOk, map};
ghost use Rattle.declared_json.specs.DeclaredPackages.{package_of, packages_of, path_of};
ghost use Rattle.library_facts.specs.Beside.{but_given, is_among, with_library};
ghost use Rattle.library_facts.specs.Library.{library_entries};

use crate::library::library_facts;
use declared_json::{DeclaredPackage, DeclaredPackages};
use std::alloc::{AllocError, Global};

/// Whether the path of the package is one of these.
fn is_among(entry: &DeclaredPackage, paths: &[&str]) -> bool
    ensures { result ≡ is_among (map (λ path. path.now) paths.now) (package_of entry.now) }
{
    let path = entry.path.as_str();
    for one in paths {
        if path == *one {
            return true;
        }
    }
    false
}

/// The paths of which something is declared and that are among these.
///
/// # Errors
///
/// Memory was refused.
pub fn declared_among<'d>(
    alloc: Global,
    declared: &'d DeclaredPackages,
    paths: &[&str],
) -> Result<Vec<&'d str>, AllocError> {
    let mut found = Vec::new(alloc);
    for entry in &declared.packages {
        if is_among(entry, paths) {
            found.push(entry.path.as_str())?;
        }
    }
    Ok(found)
}

/// What is declared of other packages than those of these paths.
///
/// # Errors
///
/// Memory was refused.
pub fn but_given(
    alloc: Global,
    declared: DeclaredPackages,
    paths: &[&str],
) -> Result<DeclaredPackages, AllocError>
    ensures { IfOk result
        (λ kept. packages_of kept ≡ but_given (map (λ path. path.now) paths.now) (packages_of declared)) }
{
    let mut packages = Vec::new(alloc);
    for entry in declared.packages {
        if !is_among(&entry, paths) {
            packages.push(entry)?;
        }
    }
    Ok(DeclaredPackages { packages })
}

/// What is known of those packages of Go's library of which nothing is declared.
fn known_beside(alloc: Global, declared: &DeclaredPackages) -> Result<DeclaredPackages, AllocError>
    ensures { IfOk result (λ known. packages_of known
        ≡ but_given (map path_of (packages_of declared.now)) library_entries) }
{
    let known = library_facts(alloc)?;
    let paths = declared.paths(alloc)?;
    but_given(alloc, known, &paths)
}

/// What is declared, and of packages of Go's library that it does not name what is known of them.
///
/// # Errors
///
/// Memory was refused.
pub fn with_library(
    alloc: Global,
    declared: DeclaredPackages,
) -> Result<DeclaredPackages, AllocError>
    ensures { IfOk result (λ both. packages_of both ≡ with_library (packages_of declared)) }
{
    let known = known_beside(alloc, &declared)?;
    let mut packages = declared.packages;
    for entry in known.packages {
        packages.push(entry)?;
    }
    Ok(DeclaredPackages { packages })
}
