//! Why a text is not read.

use json_reading::Stop;
use std::alloc::{AllocError, AllocFailed};

/// Why a text is not read as a table. The first reason that holds is told, in this order.
#[derive(Clone, Copy, Debug, Drop, PartialEq, Eq)]
pub enum TableFault {
    /// The text is no JSON, or it nests deeper than 127.
    NotJson,
    /// Its version is a whole number other than 1 and 2.
    WrongVersion,
    /// The version is missing or no whole number, or it is 1 or 2 and the rest is no table of that version.
    WrongShape,
    /// Memory was refused.
    OutOfMemory,
}

impl From<AllocError> for TableFault {
    ghost use Rattle.std.specs.Prelude.{◌≡◌};
    ghost use Rattle.table_json.specs.declared.fault.TableFault.TheVariants.{OutOfMemory};

    ghost from_gives = { λ _ fault. fault ≡ OutOfMemory };

    fn from(_error: AllocError) -> TableFault {
        TableFault::OutOfMemory
    }
}

impl<T: Drop> From<AllocFailed<T>> for TableFault {
    ghost use Rattle.std.specs.Prelude.{◌≡◌};
    ghost use Rattle.table_json.specs.declared.fault.TableFault.TheVariants.{OutOfMemory};

    ghost from_gives = { λ _ fault. fault ≡ OutOfMemory };

    fn from(_error: AllocFailed<T>) -> TableFault {
        TableFault::OutOfMemory
    }
}

/// The same fault, of a table.
impl From<Stop> for TableFault {
    ghost use Rattle.std.specs.Prelude.{◌≡◌};
    ghost use Rattle.table_json.specs.Parts.{fault_of_stop};

    ghost from_gives = { λ stop fault. fault ≡ fault_of_stop stop };

    fn from(stop: Stop) -> TableFault {
        match stop {
            Stop::NotJson => TableFault::NotJson,
            Stop::OutOfMemory => TableFault::OutOfMemory,
        }
    }
}
