//! What threads may share.

ghost use Rattle.std.specs.Thread.{IsSync};
ghost use Rattle.whole_packages.specs.contracts.loaded_package.LoadedPackage.{the_row as package_row};

use lexer::Source;
use tree::{Edition, File};
use whole_packages::{LoadedPackage, Reading};

/// Values of this type may be shared by threads. It does nothing.
fn are_shared<X: Sync>()
    ensures { IsSync X.row }
{}

/// Packages may be shared by threads. A proof that asks it of a larger type looks no further than this. It does
/// nothing.
pub fn packages_are_shared()
    ensures { IsSync package_row }
{
    are_shared::<Vec<Source>>();
    are_shared::<Vec<Reading>>();
    are_shared::<Vec<File>>();
    are_shared::<Edition>();
    are_shared::<LoadedPackage>();
}
