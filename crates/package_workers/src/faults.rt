//! Why packages can't be judged.

ghost use Rattle.std.specs.Prelude.{◌≡◌};
ghost use Rattle.package_workers.specs.Faults.{TellsFor, fault_by};
ghost use Rattle.workers.specs.Counts.{count_of};

use std::alloc::AllocError;
use workers::Workers;

/// Why packages could not be judged.
#[derive(Clone, Copy, PartialEq, Eq, Debug)]
pub enum CheckFault {
    /// Memory was refused.
    Memory,
    /// A thread could not be started, and no worker was refused memory.
    Thread,
}

impl From<AllocError> for CheckFault {
    ghost use Rattle.package_workers.specs.declared.faults.CheckFault.TheVariants.{Memory};

    ghost from_gives = { λ _ fault. fault ≡ Memory };

    fn from(_fault: AllocError) -> Self {
        CheckFault::Memory
    }
}

/// How workers ended.
#[derive(Clone, Copy)]
pub struct Ended {
    /// Each of them could be started.
    pub all_started: bool,
    /// Memory was refused to one of them.
    pub lacks_memory: bool,
}

/// How so many workers of so many packages ended, by what was noted of them. One worker needs no thread: where it gave
/// a package back, it was refused memory.
pub fn ended_by(workers: Workers, packages: usize, noted: Ended) -> Ended
    ensures { TellsFor (count_of workers) packages result }
{
    if workers.count() <= 1 || packages < 1 {
        return Ended {
            all_started: true,
            lacks_memory: true,
        };
    }
    noted
}

/// Whether workers that ended so could judge all packages, by whether one of them gave a package back.
///
/// # Errors
///
/// A package was given back, and memory was refused to a worker; or else a thread could not be started, be it a worker
/// or one that should help.
pub fn fault_of(stopped: bool, ended: Ended) -> Result<(), CheckFault>
    ensures { result ≡ fault_by stopped ended.lacks_memory ended.all_started }
{
    if stopped && ended.lacks_memory {
        return Err(CheckFault::Memory);
    }
    if stopped || !ended.all_started {
        return Err(CheckFault::Thread);
    }
    Ok(())
}
