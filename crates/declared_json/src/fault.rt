//! Why a text is not read.

use crate::reserved::ReservedPath;
use json_reading::Stop;
use table_json::TableFault;

/// Why a text is not read as declared facts. The first reason that holds is told, in this order.
#[derive(Clone, Copy, Debug, Drop, PartialEq, Eq)]
pub enum DeclaredFault {
    /// The text is no JSON, or it nests deeper than 127.
    NotJson,
    /// Its version is a whole number other than 2.
    WrongVersion,
    /// The version is missing or no whole number, or it is 2 and the rest is not that of declared facts.
    WrongShape,
    /// A package has a reserved path; this is the first such path in the text.
    Reserved(ReservedPath),
    /// Memory was refused.
    OutOfMemory,
}

/// The same fault, of declared facts.
impl From<TableFault> for DeclaredFault {
    ghost use Rattle.std.specs.Prelude.{◌≡◌};
    ghost use Rattle.declared_json.specs.Parts.{fault_of};

    ghost from_gives = { λ fault same. same ≡ fault_of fault };

    fn from(fault: TableFault) -> DeclaredFault {
        match fault {
            TableFault::NotJson => DeclaredFault::NotJson,
            TableFault::WrongVersion => DeclaredFault::WrongVersion,
            TableFault::WrongShape => DeclaredFault::WrongShape,
            TableFault::OutOfMemory => DeclaredFault::OutOfMemory,
        }
    }
}

/// The same fault, of declared facts.
impl From<Stop> for DeclaredFault {
    ghost use Rattle.std.specs.Prelude.{◌≡◌};
    ghost use Rattle.declared_json.specs.Parts.{fault_of_stop};

    ghost from_gives = { λ stop fault. fault ≡ fault_of_stop stop };

    fn from(stop: Stop) -> DeclaredFault {
        match stop {
            Stop::NotJson => DeclaredFault::NotJson,
            Stop::OutOfMemory => DeclaredFault::OutOfMemory,
        }
    }
}
