//! The facts of a package's functions, and those of its imports.

ghost use Rattle.std.specs.Prelude.{◌≡◌, ℕ, List, OnOk, OnErr, is_some, option_map, None};
ghost use Rattle.first_values.specs.ValuesByName.{only_at};
ghost use Rattle.meaning.specs.OuterBlocks.{or_else};
ghost use Rattle.facts.specs.FactViews.{facts_view, facts_by_name, facts_by_path, table_by_path};

use crate::facts::FunctionFacts;
use first_values::FirstValues;
use std::alloc::{AllocError, Global};

/// The facts of a package's functions, by name.
#[derive(Drop)]
pub struct Table<'a> {
    functions: FirstValues<'a, FunctionFacts>,
}

impl<'a> Table<'a> {
    /// No function.
    pub fn new(alloc: Global) -> Self
        ensures { (name : List ℕ) → facts_by_name result name ≡ None }
    {
        Table {
            functions: FirstValues::new(alloc),
        }
    }

    /// Whether there are facts of a function of that name.
    pub fn has(&self, name: &str) -> bool
        ensures { result ≡ is_some (facts_by_name self.now name.now) }
    {
        self.functions.has(name)
    }

    /// Keeps the facts of the function of that name, unless there are some.
    ///
    /// # Errors
    ///
    /// Memory was refused; nothing has changed then.
    pub fn insert(&mut self, name: &'a str, facts: FunctionFacts) -> Result<(), AllocError>
        ensures ok { OnOk result ((n : List ℕ) → facts_by_name self.new n ≡ or_else (facts_by_name self.old n)
            (only_at name.now (facts_view facts) n)) }
        ensures err { OnErr result ((n : List ℕ) → facts_by_name self.new n ≡ facts_by_name self.old n) }
    {
        self.functions.insert(name, facts)
    }

    /// The facts of the function of that name.
    pub fn facts(&self, name: &str) -> Option<&FunctionFacts>
        ensures { option_map (λ f. facts_view f.now) result ≡ facts_by_name self.now name.now }
    {
        self.functions.get(name)
    }
}

/// The tables of imports, given or declared, by path.
#[derive(Drop)]
pub struct Imported<'a, 't> {
    packages: FirstValues<'a, &'t Table<'a>>,
}

impl<'a, 't> Imported<'a, 't> {
    /// No package.
    pub fn new(alloc: Global) -> Self
        ensures { (path : List ℕ) → table_by_path result path ≡ None }
    {
        Imported {
            packages: FirstValues::new(alloc),
        }
    }

    /// The facts of the function of that name in the package of that path.
    pub fn facts(&self, path: &str, name: &str) -> Option<&FunctionFacts>
        ensures { option_map (λ f. facts_view f.now) result ≡ facts_by_path self.now path.now name.now }
    {
        match self.packages.get(path) {
            Some(table) => table.facts(name),
            None => None,
        }
    }

    /// Keeps the table of the package of that path, unless there is one.
    ///
    /// # Errors
    ///
    /// Memory was refused; nothing has changed then.
    pub fn insert(&mut self, path: &'a str, table: &'t Table<'a>) -> Result<(), AllocError>
        ensures ok { OnOk result ((p : List ℕ) → table_by_path self.new p ≡ or_else (table_by_path self.old p)
            (only_at path.now table.now p)) }
        ensures err { OnErr result ((p : List ℕ) → table_by_path self.new p ≡ table_by_path self.old p) }
    {
        self.packages.insert(path, table)
    }
}
