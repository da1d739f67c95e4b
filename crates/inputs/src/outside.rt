//! What is known of packages that are not given.

ghost use Rattle.std.specs.Prelude.{◌≡◌, IfOk, map};
ghost use Rattle.declared_json.specs.DeclaredPackages.{packages_of};
ghost use Rattle.inputs.specs.KnownPackages.{all_known, known_beside};
ghost use Rattle.load.specs.LoadedBeside.{given_path};

use declared_json::DeclaredPackages;
use folders::escaped;
use library_facts::{but_given, declared_among, with_library};
use load::GivenPackage;
use std::alloc::{AllocError, Global};
use tree::Edition;

/// The paths of these packages.
fn paths_of<'g>(alloc: Global, given: &'g [GivenPackage]) -> Result<Vec<&'g str>, AllocError>
    ensures { IfOk result (λ paths. map (λ path. path.now) paths.items ≡ map given_path given.now) }
{
    let mut paths = Vec::new(alloc);
    for one in given {
        paths.push(one.path.as_str())?;
    }
    Ok(paths)
}

/// What is declared, and unless that is left out, what is known of Go's library beside it.
fn all_known(
    alloc: Global,
    without_library: bool,
    declared: DeclaredPackages,
) -> Result<DeclaredPackages, AllocError>
    ensures { IfOk result (λ known. packages_of known ≡ all_known without_library (packages_of declared)) }
{
    if without_library {
        Ok(declared)
    } else {
        with_library(alloc, declared)
    }
}

/// What is known of packages beside those of these paths, by the edition by which these are judged.
///
/// # Errors
///
/// Memory was refused.
pub fn known_beside_paths(
    alloc: Global,
    edition: Edition,
    without_library: bool,
    declared: DeclaredPackages,
    paths: &[&str],
) -> Result<DeclaredPackages, AllocError>
    ensures { IfOk result (λ known. packages_of known
        ≡ known_beside edition without_library (map (λ path. path.now) paths.now) (packages_of declared)) }
{
    match edition {
        Edition::First => Ok(declared),
        Edition::Second => {
            let known = all_known(alloc, without_library, declared)?;
            but_given(alloc, known, paths)
        }
    }
}

/// The same beside these packages.
///
/// # Errors
///
/// Memory was refused.
pub fn known_beside(
    alloc: Global,
    edition: Edition,
    without_library: bool,
    declared: DeclaredPackages,
    given: &[GivenPackage],
) -> Result<DeclaredPackages, AllocError>
    ensures { IfOk result (λ known. packages_of known
        ≡ known_beside edition without_library (map given_path given.now) (packages_of declared)) }
{
    let paths = paths_of(alloc, given)?;
    known_beside_paths(alloc, edition, without_library, declared, &paths)
}

/// The paths of given packages of which something is declared that is passed over, escaped.
///
/// # Errors
///
/// Memory was refused.
pub fn passed_over(
    alloc: Global,
    edition: Edition,
    declared: &DeclaredPackages,
    given: &[GivenPackage],
) -> Result<Vec<String>, AllocError> {
    let mut passed = Vec::new(alloc);
    if edition == Edition::Second {
        let paths = paths_of(alloc, given)?;
        for path in declared_among(alloc, declared, &paths)? {
            passed.push(escaped(alloc, path)?)?;
        }
    }
    Ok(passed)
}
