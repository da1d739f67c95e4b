//! Paths that something is known of.

ghost use Rattle.std.specs.Prelude.{◌≡◌, ◌&&◌, ◌||◌, ℕ, List, OnOk, false, bytes_eq};
ghost use Rattle.test_packages.specs.KnownPaths.{knows};

use first_values::FirstValues;
use std::alloc::{AllocError, Global};

/// Some paths.
#[derive(Drop)]
pub struct KnownPaths<'a> {
    paths: FirstValues<'a, ()>,
}

impl<'a> KnownPaths<'a> {
    /// No path.
    pub fn new(alloc: Global) -> Self
        ensures { (path : List ℕ) → knows result path ≡ false }
    {
        KnownPaths {
            paths: FirstValues::new(alloc),
        }
    }

    /// Whether the path is one of them.
    pub fn has(&self, path: &str) -> bool
        ensures { result ≡ knows self.now path.now }
    {
        self.paths.has(path)
    }

    /// Takes the path in, if this is so.
    ///
    /// # Errors
    ///
    /// Memory was refused.
    pub fn insert_if(&mut self, is: bool, path: &'a str) -> Result<(), AllocError>
        ensures { OnOk result ((other : List ℕ) → knows self.new other
            ≡ (knows self.old other || (is && bytes_eq path.now other))) }
    {
        if !is {
            return Ok(());
        }
        self.paths.insert(path, ())
    }
}
