//! Why reading stops.

use json::Invalid;
use std::alloc::AllocError;

/// Why reading stops.
#[derive(Clone, Copy, Debug, Drop, PartialEq, Eq)]
pub enum Stop {
    /// The text is no JSON, or it nests too deep.
    NotJson,
    /// Memory was refused.
    OutOfMemory,
}

/// No token that may stand there.
impl From<Invalid> for Stop {
    ghost use Rattle.std.specs.Prelude.{◌≡◌};
    ghost use Rattle.json_reading.specs.declared.stop.Stop.TheVariants.{NotJson};

    ghost from_gives = { λ _ stop. stop ≡ NotJson };

    fn from(_: Invalid) -> Stop {
        Stop::NotJson
    }
}

/// Memory was refused.
impl From<AllocError> for Stop {
    ghost use Rattle.std.specs.Prelude.{◌≡◌};
    ghost use Rattle.json_reading.specs.declared.stop.Stop.TheVariants.{OutOfMemory};

    ghost from_gives = { λ _ stop. stop ≡ OutOfMemory };

    fn from(_: AllocError) -> Stop {
        Stop::OutOfMemory
    }
}
