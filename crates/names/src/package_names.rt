//! The names of packages by their paths.

ghost use Rattle.std.specs.Prelude.{◌≡◌, ℕ, List, OnOk, OnErr, option_map, None};
ghost use Rattle.first_values.specs.ValuesByName.{only_at};
ghost use Rattle.meaning.specs.OuterBlocks.{or_else};
ghost use Rattle.names.specs.Answers.{names_by_path};

use first_values::FirstValues;
use std::alloc::{AllocError, Global};

/// For the path of each package that was given, the name in the package clause of its first file.
#[derive(Drop)]
pub struct PackageNames<'a> {
    names: FirstValues<'a, &'a str>,
}

impl<'a> PackageNames<'a> {
    /// No package.
    pub fn new(alloc: Global) -> Self
        ensures { (path : List ℕ) → names_by_path result path ≡ None }
    {
        PackageNames {
            names: FirstValues::new(alloc),
        }
    }

    /// Gives the package of that path its name, unless it has one.
    ///
    /// # Errors
    ///
    /// Memory was refused; nothing has changed then.
    pub fn insert(&mut self, path: &'a str, name: &'a str) -> Result<(), AllocError>
        ensures ok { OnOk result ((p : List ℕ) → names_by_path self.new p ≡ or_else (names_by_path self.old p)
            (only_at path.now name.now p)) }
        ensures err { OnErr result ((p : List ℕ) → names_by_path self.new p ≡ names_by_path self.old p) }
    {
        self.names.insert(path, name)
    }

    /// The name of the package of that path, if it was given.
    pub fn get(&self, path: &str) -> Option<&'a str>
        ensures { option_map (λ name. name.now) result ≡ names_by_path self.now path.now }
    {
        self.names.get(path).copied()
    }
}
