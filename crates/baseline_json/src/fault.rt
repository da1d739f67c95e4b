//! Why a text is not read.

use json_reading::Stop;

/// Why a text is not read as an earlier report. The first reason that holds is told, in this order.
#[derive(Clone, Copy, Debug, Drop, PartialEq, Eq)]
pub enum BaselineFault {
    /// The text is no JSON, or it nests deeper than 127.
    NotJson,
    /// It is that of no report, or of one of another version.
    WrongShape,
    /// Memory was refused.
    OutOfMemory,
}

/// The same fault, of a report.
impl From<Stop> for BaselineFault {
    ghost use Rattle.std.specs.Prelude.{◌≡◌};
    ghost use Rattle.baseline_json.specs.BaselineRead.{fault_of_stop};

    ghost from_gives = { λ stop fault. fault ≡ fault_of_stop stop };

    fn from(stop: Stop) -> BaselineFault {
        match stop {
            Stop::NotJson => BaselineFault::NotJson,
            Stop::OutOfMemory => BaselineFault::OutOfMemory,
        }
    }
}
