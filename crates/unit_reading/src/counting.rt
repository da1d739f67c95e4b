//! Which imports of a unit count.

ghost use Rattle.std.specs.Prelude.{◌≡◌};
ghost use Rattle.unit_reading.specs.ToldImports.{counts_in};

use crate::vetx_input::ToldImport;

/// The number of the first edition.
const FIRST: u32 = 1;

/// Whether what is kept of an imported package counts in this module. Where the package has a fault as a whole, by the
/// first edition its own module alone is told of it.
pub fn counts_in(module_path: &str, told: &ToldImport<'_>) -> bool
    ensures { result ≡ counts_in module_path.now told.now }
{
    !(told.kept.has_whole_fault
        && told.kept.edition == FIRST
        && told.kept.module_path.as_str() != module_path)
}
