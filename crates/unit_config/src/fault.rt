//! Why bytes are no configuration.

use json_reading::Stop;

/// Why bytes are not read as the configuration of a unit. The first reason that holds is told, in this order.
#[derive(Clone, Copy, Debug, Drop, PartialEq, Eq)]
pub enum UnitFault {
    /// They are not UTF-8 or no JSON, or nest deeper than 127.
    NotJson,
    /// They are the configuration of no unit.
    WrongShape,
    /// Memory was refused.
    OutOfMemory,
}

/// The same fault, of a configuration.
impl From<Stop> for UnitFault {
    ghost use Rattle.std.specs.Prelude.{◌≡◌};
    ghost use Rattle.unit_config.specs.UnitRead.{fault_of_stop};

    ghost from_gives = { λ stop fault. fault ≡ fault_of_stop stop };

    fn from(stop: Stop) -> UnitFault {
        match stop {
            Stop::NotJson => UnitFault::NotJson,
            Stop::OutOfMemory => UnitFault::OutOfMemory,
        }
    }
}
