//! What a use of a name means, and why names cannot be resolved.

ghost use Rattle.std.specs.Prelude.{◌≡◌};
ghost use Rattle.names.specs.declared.meanings.NameFault.TheVariants.{Memory};

use std::alloc::AllocError;
use tree::{DeclKeyword, Identifier};

/// What a use of a name means.
#[derive(Clone, Copy)]
pub enum NameMeaning<'a> {
    /// A local: its number, and whether it is a constant, a variable or a type. The number is the offset of the name
    /// that declares it; in a clause of a type switch, that of the clause's keyword.
    Local(u32, DeclKeyword),
    /// An import, by its path.
    Import(&'a str),
    /// A function of the package.
    Function,
    /// A constant, a variable or a type of the package.
    PackageLevel,
    /// What is declared nowhere in the package: a name of the universe.
    Universe,
}

/// Why names cannot be resolved.
#[derive(Clone, Copy)]
pub enum NameFault<'a> {
    /// Two functions of the package have one name: the number of the file where the second one stands, and its name
    /// there.
    TwoFunctions(usize, &'a Identifier),
    /// Memory was refused.
    Memory,
}

impl<'a> From<AllocError> for NameFault<'a> {
    ghost from_gives = { λ _ result. result ≡ Memory };

    fn from(_e: AllocError) -> NameFault<'a> {
        NameFault::Memory
    }
}
