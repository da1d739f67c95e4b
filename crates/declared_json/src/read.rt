//! The declared facts of a text.

ghost use Rattle.std.specs.Prelude.{◌≡◌, List, IfErr, IfOk};
ghost use Rattle.declared_json.specs.declared.fault.DeclaredFault.TheVariants.{OutOfMemory};
ghost use Rattle.declared_json.specs.DeclaredPackages.{packages_of, AreInOrder, PackageEntry};
ghost use Rattle.declared_json.specs.DeclaredTexts.{IsDeclaredFault, IsDeclaredText};

use crate::fault::DeclaredFault;
use crate::outside::DeclaredPackages;
use crate::packages::read_packages;
use crate::reserved::first_reserved;
use std::alloc::Global;
use table_json::{Version, known_version};

/// The declared facts of a text. The packages stand as they do in the text, and the functions of each in the order of
/// their names, each with its positions as they rise. In the text the order of functions, positions and keys is free.
/// Names that no function of Go has, and positions that no signature has, are read as others. The text is gone over
/// twice, first for its version.
///
/// # Errors
///
/// The text is no JSON; its version is missing or no whole number up to 4,294,967,295; it is another than 2; the rest
/// is not that of declared facts, as a key is missing or unknown, a value of another kind, a position or a number of
/// results above 4,294,967,295, as a path, a function or a position comes twice, as a position stands in both `gives`
/// and `causes`, or as one of these is not below the number of results; a package has a reserved path; or memory was
/// refused. This is the order in which it is looked for them. A text that is that of declared facts is refused for
/// want of memory alone.
pub fn from_json(alloc: Global, text: &str) -> Result<DeclaredPackages, DeclaredFault>
    ensures outside { IfOk result (λ found. IsDeclaredText text.now (packages_of found)) }
    ensures in_order { IfOk result (λ found. AreInOrder (packages_of found)) }
    ensures no_other { IfOk result (λ found. (other : List PackageEntry)
        → IsDeclaredText text.now other
        → other ≡ packages_of found) }
    ensures fault { IfErr result (IsDeclaredFault text.now) }
    ensures only_memory { IfErr result (λ fault. (packages : List PackageEntry)
        → IsDeclaredText text.now packages
        → fault ≡ OutOfMemory) }
{
    match known_version(alloc, text)? {
        Version::Older => return Err(DeclaredFault::WrongVersion),
        Version::Newer => {}
    }
    let Some(packages) = read_packages(alloc, text)? else {
        return Err(DeclaredFault::WrongShape);
    };
    match first_reserved(&packages) {
        Some(path) => Err(DeclaredFault::Reserved(path)),
        None => Ok(DeclaredPackages { packages }),
    }
}
