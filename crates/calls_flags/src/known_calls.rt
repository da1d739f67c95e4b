//! What is known of the functions of a package and of its imports.

ghost use Rattle.calls_flags.specs.KnownCalls.{known_calls};

use called_parameters::{Called, ImportedCalls};
use credits::Calls;
use tracked_rows::Callee;

/// What is known of functions: of the package's own, and of its imports'.
#[derive(Clone, Copy)]
pub struct KnownCalls<'c, 'a> {
    pub own: &'c Called<'a>,
    pub imported: &'c ImportedCalls<'a, 'c>,
}

impl Calls for KnownCalls<'_, '_> {
    ghost are_called = { known_calls };

    fn calls(&self, callee: Callee<'_>, position: usize) -> bool {
        match callee.path {
            Some(path) => self.imported.has(path, callee.name, position),
            None => self.own.has(callee.name, position),
        }
    }
}
