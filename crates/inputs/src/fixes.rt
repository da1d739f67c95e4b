//! What may be changed in the files of packages.

use load::GivenPackage;
use std::alloc::{AllocError, Global};
use suggested_fixes::{Fix, suggested_fixes};
use tree::Edition;

/// Adds what may be changed in the files of a package.
fn add_fixes(
    alloc: Global,
    fixes: &mut Vec<Fix>,
    package: &GivenPackage,
) -> Result<(), AllocError> {
    for source in &package.sources {
        for fix in suggested_fixes(alloc, source)? {
            fixes.push(fix)?;
        }
    }
    Ok(())
}

/// What may be changed in the files of these packages, of those that are judged by the second edition.
///
/// # Errors
///
/// Memory was refused.
pub fn fixes_in(alloc: Global, given: &[GivenPackage]) -> Result<Vec<Fix>, AllocError> {
    let mut fixes = Vec::new(alloc);
    for package in given {
        if package.edition == Edition::Second {
            add_fixes(alloc, &mut fixes, package)?;
        }
    }
    Ok(fixes)
}
