//! What is declared of packages outside those that are judged.

use crate::order::paths_of;
use std::alloc::{AllocError, Global};
use table_json::Function;

/// What is declared of one function.
#[derive(Debug, Drop, PartialEq)]
pub struct DeclaredFunction {
    /// Its facts, as a table has them.
    pub facts: Function,
    /// How many results it has. The positions of what it gives are below.
    pub results: u32,
}

/// What is declared of one package.
#[derive(Debug, Drop, PartialEq)]
pub struct DeclaredPackage {
    /// Its import path, which is none of those that are reserved.
    pub path: String,
    /// Its functions, in the order of their names.
    pub functions: Vec<DeclaredFunction>,
}

/// What is declared of packages.
#[derive(Debug, Drop, PartialEq)]
pub struct DeclaredPackages {
    /// The packages, in the order of their text. No two of them have one path.
    pub packages: Vec<DeclaredPackage>,
}

impl DeclaredPackages {
    ghost use Rattle.std.specs.Prelude.{◌≡◌, IfOk, map, option_map};
    ghost use Rattle.declared_json.specs.DeclaredPackages.{function_of, packages_of, path_of, table_at};

    /// What is declared of the functions of the package of this path, if anything is declared of that package.
    pub fn table_of(&self, path: &str) -> Option<&[DeclaredFunction]>
        ensures { option_map (λ functions. map function_of functions.now) result
            ≡ table_at path.now (packages_of self.now) }
    {
        for entry in &self.packages {
            if entry.path.as_str() == path {
                return Some(entry.functions.as_slice());
            }
        }
        None
    }

    /// The paths of the packages, in the order of their text.
    ///
    /// # Errors
    ///
    /// Memory was refused.
    pub fn paths(&self, alloc: Global) -> Result<Vec<&str>, AllocError>
        ensures { IfOk result (λ paths. map (λ path. path.now) paths.items ≡ map path_of (packages_of self.now)) }
    {
        paths_of(alloc, &self.packages)
    }
}
