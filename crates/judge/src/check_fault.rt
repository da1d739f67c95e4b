//! Why packages have no report, where several threads judge them.

ghost use Rattle.std.specs.Prelude.{◌≡◌};
ghost use Rattle.judge.specs.CheckFaults.{of_workers};

use load::LoadFault;
use package_workers::CheckFault as WorkersFault;

/// Why packages are not judged.
#[derive(Debug, Drop)]
pub enum CheckFault {
    /// They are not loaded, or memory was refused when they were judged.
    NotLoaded(LoadFault),
    /// They are loaded, and a thread that should judge some of them could not be started.
    NoThread,
}

/// Why packages that are loaded are not judged.
pub fn of_workers(fault: WorkersFault) -> CheckFault
    ensures { result ≡ of_workers fault }
{
    match fault {
        WorkersFault::Memory => CheckFault::NotLoaded(LoadFault::OutOfMemory),
        WorkersFault::Thread => CheckFault::NoThread,
    }
}
