//! Why nothing is kept of a table.

use std::alloc::{AllocError, AllocFailed};

/// Why nothing is kept of a table.
#[derive(Clone, Copy, Debug, Drop, PartialEq, Eq)]
pub enum KeptFault {
    /// A number of a function is not below 2^32: a position of a parameter or a result, or how many results there are.
    TooLarge,
    /// Memory was refused.
    OutOfMemory,
}

impl From<AllocError> for KeptFault {
    ghost use Rattle.std.specs.Prelude.{◌≡◌};
    ghost use Rattle.vetx_tables.specs.declared.fault.KeptFault.TheVariants.{OutOfMemory};

    ghost from_gives = { λ _ fault. fault ≡ OutOfMemory };

    fn from(_error: AllocError) -> KeptFault {
        KeptFault::OutOfMemory
    }
}

impl<T: Drop> From<AllocFailed<T>> for KeptFault {
    ghost use Rattle.std.specs.Prelude.{◌≡◌};
    ghost use Rattle.vetx_tables.specs.declared.fault.KeptFault.TheVariants.{OutOfMemory};

    ghost from_gives = { λ _ fault. fault ≡ OutOfMemory };

    fn from(_error: AllocFailed<T>) -> KeptFault {
        KeptFault::OutOfMemory
    }
}
