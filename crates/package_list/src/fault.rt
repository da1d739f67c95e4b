//! Why bytes are no list.

use json_reading::Stop;
use std::alloc::AllocError;

/// Why bytes are not read as a list of packages. The first reason that holds is told, in this order.
#[derive(Debug, Drop, PartialEq)]
pub enum ListFault {
    /// A value is not UTF-8 or no JSON, or it nests deeper than 127.
    NotJson,
    /// A value is that of no package.
    WrongShape,
    /// The go command could not load a package, or one below it; this is the path of the first such package.
    Incomplete(String),
    /// There is no package.
    Empty,
    /// Memory was refused.
    OutOfMemory,
}

/// The same fault, of a list.
impl From<Stop> for ListFault {
    ghost use Rattle.std.specs.Prelude.{◌≡◌};
    ghost use Rattle.package_list.specs.ListRead.{fault_of_stop};

    ghost from_gives = { λ stop fault. fault ≡ fault_of_stop stop };

    fn from(stop: Stop) -> ListFault {
        match stop {
            Stop::NotJson => ListFault::NotJson,
            Stop::OutOfMemory => ListFault::OutOfMemory,
        }
    }
}

/// Memory was refused.
impl From<AllocError> for ListFault {
    ghost use Rattle.std.specs.Prelude.{◌≡◌};
    ghost use Rattle.package_list.specs.declared.fault.ListFault.TheVariants.{OutOfMemory};

    ghost from_gives = { λ _ fault. fault ≡ OutOfMemory };

    fn from(_: AllocError) -> ListFault {
        ListFault::OutOfMemory
    }
}
