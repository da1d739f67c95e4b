//! Why packages are not loaded.

ghost use Rattle.std.specs.Prelude.{◌≡◌};
ghost use Rattle.inputs.specs.LoadFaults.{fault_of_load};

use folders::Fault;
use load::LoadFault;

/// Why packages are not loaded, as the program tells it.
pub fn fault_of_load(fault: LoadFault) -> Fault
    ensures { result ≡ fault_of_load fault }
{
    match fault {
        LoadFault::TooMany => Fault::TooManyPackages,
        LoadFault::TwoPackages(path) => Fault::TwoPackages(path),
        LoadFault::NamesGiven(path) => Fault::FactsNameGiven(path),
        LoadFault::OutOfMemory => Fault::OutOfMemory,
    }
}
