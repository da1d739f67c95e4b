//! The tables of packages of which something is declared.

ghost use Rattle.std.specs.Prelude.{◌≡◌, ℕ, List, IfOk, OnOk, map, option_map};
ghost use Rattle.std.specs.List.{list_any};
ghost use Rattle.declared_tables.specs.DeclaredTables.{declared_tables, declared_view, table_of, table_view};
ghost use Rattle.declared_tables.specs.MarkedGivers.{AllMarkGivers, AreMarked, MarksGivers, is_giver};
ghost use Rattle.first_values.specs.ValuesByName.{only_at, value_of};
ghost use Rattle.meaning.specs.OuterBlocks.{or_else};
ghost use Rattle.declared_json.specs.DeclaredPackages.{function_of, package_of, packages_of};

use crate::functions::add_function;
use called_parameters::Called;
use declared_json::{DeclaredFunction, DeclaredPackage, DeclaredPackages};
use facts::Table;
use first_values::FirstValues;
use std::alloc::{AllocError, Global};

/// What is known of the functions of a package.
#[derive(Drop)]
pub struct PackageTable<'a> {
    /// What their signatures say.
    pub signatures: Table<'a>,
    /// Which of their parameters they are known to call.
    pub called: Called<'a>,
    /// Whether one of them may give a cancel function: false only where none does.
    pub gives: bool,
    /// Whether one of them has a parameter or a result that is tracked, or anything is declared of the package.
    pub is_told: bool,
}

/// Whether the function is declared to give a cancel function, of whatever type.
fn is_giver(function: &DeclaredFunction) -> bool
    ensures { result ≡ is_giver (function_of function.now) }
{
    0 < function.facts.gives.len() || 0 < function.facts.causes.len()
}

fn any_is_giver(functions: &[DeclaredFunction]) -> bool
    ensures { result ≡ list_any is_giver (map function_of functions.now) }
{
    for function in functions {
        if is_giver(function) {
            return true;
        }
    }
    false
}

/// What is declared of these functions. Of several of one name the first counts.
fn table_of<'a>(
    alloc: Global,
    functions: &'a [DeclaredFunction],
) -> Result<PackageTable<'a>, AllocError>
    ensures table { IfOk result (λ table. table_view table ≡ table_of (map function_of functions.now)) }
    ensures marks { IfOk result MarksGivers }
{
    let mut signatures = Table::new(alloc);
    let mut called = Called::new(alloc);
    for function in functions {
        add_function(alloc, function, &mut signatures, &mut called)?;
    }
    Ok(PackageTable {
        signatures,
        called,
        gives: any_is_giver(functions),
        is_told: true,
    })
}

/// Adds what is declared of a package, unless something is of its path.
fn add_package<'a>(
    alloc: Global,
    outside: &'a DeclaredPackage,
    packages: &mut FirstValues<'a, PackageTable<'a>>,
) -> Result<(), AllocError>
    ensures table { OnOk result ((path : List ℕ) → option_map table_view (value_of packages.new path)
        ≡ or_else (option_map table_view (value_of packages.old path))
        (only_at (package_of outside.now).path (table_of (package_of outside.now).functions) path)) }
    ensures marks { OnOk result (AreMarked packages.old → AreMarked packages.new) }
{
    let table = table_of(alloc, &outside.functions)?;
    packages.insert(outside.path.as_str(), table)?;
    Ok(())
}

/// What is declared of packages, by their paths. Of several of one path the first counts.
#[derive(Drop)]
pub struct DeclaredTables<'a> {
    packages: FirstValues<'a, PackageTable<'a>>,
}

impl<'a> DeclaredTables<'a> {
    /// The tables of the packages of which something is declared.
    ///
    /// # Errors
    ///
    /// Memory was refused.
    pub fn of(alloc: Global, outside: &'a DeclaredPackages) -> Result<Self, AllocError>
        ensures tables { IfOk result (λ kept. (path : List ℕ)
            → declared_view kept path ≡ declared_tables (packages_of outside.now) path) }
        ensures marks { IfOk result AllMarkGivers }
    {
        let mut packages = FirstValues::new(alloc);
        for one in &outside.packages {
            add_package(alloc, one, &mut packages)?;
        }
        Ok(DeclaredTables { packages })
    }

    /// What is declared of the package of that path, if anything is.
    pub fn get(&self, path: &str) -> Option<&PackageTable<'a>>
        ensures { option_map (λ table. table.now) result ≡ value_of self.now.packages path.now }
    {
        self.packages.get(path)
    }
}
