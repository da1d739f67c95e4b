//! A package, by its files.

ghost use Rattle.std.specs.Prelude.{◌++◌, List, IfOk, OnOk};
ghost use Rattle.std.specs.Vec.Iter.{into_iter_items};
ghost use Rattle.load.specs.Ahead.{files_in, AreReadAhead, EditionAndFile};
ghost use Rattle.load.specs.FilesByName.{AreByName};
ghost use Rattle.load.specs.GivenPackages.{IsReadAs};

use crate::ahead::{Ahead, next_parsed};
use crate::meant::with_meant_imports;
use crate::packages::GivenPackage;
use crate::source::keep;
use lexer::Source;
use std::alloc::{AllocError, Global};
use whole_packages::LoadedPackage;

/// The files in the order of their names, byte by byte. Those of one name keep their order.
pub fn by_name(sources: Vec<Source>) -> Result<Vec<Source>, AllocError>
    ensures { IfOk result (λ ordered. AreByName sources.items ordered.items) }
{
    let mut ordered = sources;
    ordered.sort_by(|file, other| file.name.cmp(&other.name))?;
    Ok(ordered)
}

/// The package with its files as they are read in its edition, whose imports are of the paths that are meant. Those
/// that were read ahead are the next ones there.
///
/// # Errors
///
/// Memory was refused.
pub fn load_package(
    alloc: Global,
    given: GivenPackage,
    ahead: &mut Ahead,
) -> Result<LoadedPackage, AllocError>
    ensures read { (after : List EditionAndFile)
        → AreReadAhead (files_in given.edition given.sources.items ++ after) (into_iter_items ahead.old)
        → IfOk result (IsReadAs given) }
    ensures ahead { (after : List EditionAndFile)
        → AreReadAhead (files_in given.edition given.sources.items ++ after) (into_iter_items ahead.old)
        → OnOk result (AreReadAhead after (into_iter_items ahead.new)) }
{
    let GivenPackage {
        path,
        edition,
        sources,
        imports,
    } = given;
    let mut readings = Vec::new(alloc);
    let mut trees = Vec::new(alloc);
    for source in &sources {
        let parsed = next_parsed(alloc, edition, source, ahead)?;
        let meant = with_meant_imports(alloc, edition, &imports, parsed)?;
        keep(meant, &mut readings, &mut trees)?;
    }
    Ok(LoadedPackage {
        path,
        edition,
        sources,
        readings,
        trees,
    })
}
