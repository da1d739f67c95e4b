//! Why a text is not read.

use json_reading::Stop;

/// Why a text is not read as what was kept of a package. The first reason that holds is told, in this order.
#[derive(Clone, Copy, Debug, Drop, PartialEq, Eq)]
pub enum VetxFault {
    /// The text is no JSON, or it nests deeper than 127.
    NotJson,
    /// Its version is a whole number other than 1: another release of this program wrote it.
    WrongVersion,
    /// The version is missing or no whole number, or it is 1 and the rest is not that of a package.
    WrongShape,
    /// Memory was refused.
    OutOfMemory,
}

/// The same fault, of what was kept.
impl From<Stop> for VetxFault {
    ghost use Rattle.std.specs.Prelude.{◌≡◌};
    ghost use Rattle.vetx_json.specs.Parts.{fault_of_stop};

    ghost from_gives = { λ stop fault. fault ≡ fault_of_stop stop };

    fn from(stop: Stop) -> VetxFault {
        match stop {
            Stop::NotJson => VetxFault::NotJson,
            Stop::OutOfMemory => VetxFault::OutOfMemory,
        }
    }
}
