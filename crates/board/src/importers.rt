//! Which packages import a package.

ghost use Rattle.std.specs.Prelude.{◌≡◌, IfOk, OnOk};
ghost use Rattle.imports.specs.Views.{rows_view};
ghost use Rattle.board.specs.Ready.{row};
ghost use Rattle.board.specs.Importers.{AddsImporter, AreImporters};

use imports::rows::{empty_rows, push_at};
use std::alloc::{AllocError, Global};

/// The row at that place.
pub fn row_at(rows: &[Vec<usize>], place: usize) -> &[usize]
    ensures { result.now ≡ row (rows_view rows.now) place }
{
    match rows.get(place) {
        Some(found) => found,
        None => &[],
    }
}

/// Adds the importer to each of its imports.
fn add_to_all(
    importers: &mut Vec<Vec<usize>>,
    imports: &[usize],
    importer: usize,
) -> Result<(), AllocError>
    ensures { OnOk result (AddsImporter imports.now importer (rows_view importers.old.items)
        (rows_view importers.new.items)) }
{
    for import in imports {
        push_at(importers, *import, importer)?;
    }
    Ok(())
}

/// For each package the packages that import it, where these are what each package imports.
///
/// # Errors
///
/// Memory was refused.
pub fn importers_of(alloc: Global, imports: &[Vec<usize>]) -> Result<Vec<Vec<usize>>, AllocError>
    ensures { IfOk result (λ importers. AreImporters (rows_view imports.now) (rows_view importers.items)) }
{
    let mut importers = empty_rows(alloc, imports.len())?;
    for place in 0..imports.len() {
        add_to_all(&mut importers, row_at(imports, place), place)?;
    }
    Ok(importers)
}
