//! The board, as workers share it.

use crate::naming::Naming;
use crate::results::PackageResult;
use board::Core;
use std::sync::atomic::{AtomicBool, Ordering};
use std::sync::{Condvar, Mutex};
use workers::PieceFault;

/// The board that workers share.
#[derive(Drop)]
pub struct Board<'k, 'a, B: Naming> {
    pub core: Mutex<Core<'k, PackageResult<'a, B>>>,
    /// Woken whenever something was delivered or given back.
    pub ready: Condvar,
    /// Memory was refused to a worker.
    pub lacks_memory: AtomicBool,
}

impl<'k, 'a, B: Naming> Board<'k, 'a, B> {
    /// Notes why a package is given back.
    pub fn note(&self, fault: PieceFault) {
        match fault {
            PieceFault::Memory => self.lacks_memory.store(true, Ordering::SeqCst),
            PieceFault::Thread => {}
        }
    }
}
