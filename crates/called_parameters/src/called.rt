//! Which parameters functions are known to have called when they return.

ghost use Rattle.std.specs.Prelude.{◌≡◌, ◌||◌, ℕ, List, OnOk, OnErr, false, None};
ghost use Rattle.called_parameters.specs.Called.{is_called, is_parameter, called_by_path, flags_by_path};
ghost use Rattle.first_values.specs.ValuesByName.{only_at};
ghost use Rattle.meaning.specs.OuterBlocks.{or_else};

use first_values::FirstValues;
use indexmap::IndexSet;
use std::alloc::{AllocError, Global};

/// A parameter of a function of a package: the function's name and the parameter's position from 0. A receiver has no
/// position.
#[derive(Clone, Copy, PartialEq, Eq, Hash)]
pub struct FunctionParameter<'a> {
    pub name: &'a str,
    pub position: usize,
}

/// The parameters that the functions of a package are known to have called when they return.
#[derive(Drop)]
pub struct Called<'a> {
    parameters: IndexSet<FunctionParameter<'a>>,
}

impl<'a> Called<'a> {
    /// No parameter.
    pub fn new(alloc: Global) -> Self
        ensures { (name : List ℕ) (k : ℕ) → is_called result name k ≡ false }
    {
        Called {
            parameters: IndexSet::new(alloc),
        }
    }

    /// Whether the function of that name is known to call its parameter at that position.
    pub fn has(&self, name: &str, position: usize) -> bool
        ensures { result ≡ is_called self.now name.now position }
    {
        self.parameters
            .contains(&FunctionParameter { name, position })
    }

    /// Adds a parameter.
    ///
    /// # Errors
    ///
    /// Memory was refused; nothing has changed then.
    pub fn add(&mut self, parameter: FunctionParameter<'a>) -> Result<(), AllocError>
        ensures ok { OnOk result ((name : List ℕ) (k : ℕ) → is_called self.new name k
            ≡ (is_called self.old name k || is_parameter name k parameter.entry)) }
        ensures err { OnErr result ((name : List ℕ) (k : ℕ) → is_called self.new name k
            ≡ is_called self.old name k) }
    {
        self.parameters.insert(parameter)?;
        Ok(())
    }
}

/// What is known of the functions of imports, given or declared, by the paths of their packages.
#[derive(Drop)]
pub struct ImportedCalls<'a, 't> {
    packages: FirstValues<'a, &'t Called<'a>>,
}

impl<'a, 't> ImportedCalls<'a, 't> {
    /// No package.
    pub fn new(alloc: Global) -> Self
        ensures { (path : List ℕ) → called_by_path result path ≡ None }
    {
        ImportedCalls {
            packages: FirstValues::new(alloc),
        }
    }

    /// Whether the function of that name in the package of that path is known to call its parameter at that position.
    pub fn has(&self, path: &str, name: &str, position: usize) -> bool
        ensures { result ≡ flags_by_path self.now path.now name.now position }
    {
        match self.packages.get(path) {
            Some(called) => called.has(name, position),
            None => false,
        }
    }

    /// Keeps what is known of the package of that path, unless something is.
    ///
    /// # Errors
    ///
    /// Memory was refused; nothing has changed then.
    pub fn insert(&mut self, path: &'a str, called: &'t Called<'a>) -> Result<(), AllocError>
        ensures ok { OnOk result ((p : List ℕ) → called_by_path self.new p ≡ or_else (called_by_path self.old p)
            (only_at path.now called.now p)) }
        ensures err { OnErr result ((p : List ℕ) → called_by_path self.new p ≡ called_by_path self.old p) }
    {
        self.packages.insert(path, called)
    }
}
