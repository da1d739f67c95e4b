//! Which packages may have a function that gives a cancel function, and of which packages a name says something.

ghost use Rattle.std.specs.Prelude.{◌≡◌, ℕ, Bool, List, OnOk, None};
ghost use Rattle.meaning.specs.OuterBlocks.{or_else};
ghost use Rattle.first_values.specs.ValuesByName.{only_at};
ghost use Rattle.files_to_walk.specs.Signs.{is_told, may_give, signs_by_path};

use first_values::FirstValues;
use std::alloc::{AllocError, Global};

/// Some packages, told by their paths.
pub trait Among {
    ghost among: { Self → List ℕ → Bool };

    /// Whether the package of that path is one of them.
    fn has(&self, path: &str) -> bool
        ensures { result ≡ among self.now path.now };
}

/// What is known of a package before one looks for one of its functions.
#[derive(Clone, Copy)]
pub struct Signs {
    /// Whether one of them may give a cancel function: false only where none does.
    pub gives: bool,
    /// Whether one of them has a parameter or a result that is tracked, or anything is declared of the package.
    pub is_told: bool,
}

/// The signs of packages of which something is known.
#[derive(Drop)]
pub struct KnownSigns<'a> {
    packages: FirstValues<'a, Signs>,
}

impl<'a> KnownSigns<'a> {
    /// Nothing is known.
    pub fn new(alloc: Global) -> Self
        ensures { (path : List ℕ) → signs_by_path result path ≡ None }
    {
        KnownSigns {
            packages: FirstValues::new(alloc),
        }
    }

    /// Keeps the signs of the package of that path, unless they are known.
    ///
    /// # Errors
    ///
    /// Memory was refused.
    pub fn insert(&mut self, path: &'a str, signs: Signs) -> Result<(), AllocError>
        ensures { OnOk result ((other : List ℕ) → signs_by_path self.new other
            ≡ or_else (signs_by_path self.old other) (only_at path.now signs other)) }
    {
        self.packages.insert(path, signs)
    }

    /// Whether a name of the package of that path says something, as far as its functions are known.
    pub fn is_told(&self, path: &str) -> bool
        ensures { result ≡ is_told self.now path.now }
    {
        match self.packages.get(path) {
            Some(signs) => signs.is_told,
            None => false,
        }
    }
}

/// Those that may have a function that gives a cancel function.
impl Among for KnownSigns<'_> {
    ghost among = { may_give };

    fn has(&self, path: &str) -> bool {
        match self.packages.get(path) {
            Some(signs) => signs.gives,
            None => false,
        }
    }
}
