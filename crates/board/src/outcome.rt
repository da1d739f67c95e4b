//! What comes of a package.

ghost use Rattle.std.specs.Prelude.{◌≡◌, ℕ, List, Option, IfOk};
ghost use Rattle.imports.specs.Ranks.{Package};

use std::alloc::AllocError;

/// What comes of a package, which a worker delivers. Contracts speak of three ghost members. The first two are the
/// packages and their ranks, which the type names; so a board never gets what came of a package of another list. The
/// third is the place of the package.
pub trait Outcome: Drop {
    ghost packages: { List Package };

    ghost rank: { ℕ → Option ℕ };

    ghost place_of: { Self → ℕ };

    /// The place of the package in the list of packages.
    fn place(&self) -> usize
        ensures { result ≡ place_of self.now };

    /// The same, held once more.
    ///
    /// # Errors
    ///
    /// Memory was refused.
    fn again(&self) -> Result<Self, AllocError>
        ensures { IfOk result (λ same. same ≡ self.now) };
}
