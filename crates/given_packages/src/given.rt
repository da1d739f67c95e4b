//! The given packages, and what is known of them before one is judged.

ghost use Rattle.std.specs.Prelude.{◌≡◌, List, IfOk};
ghost use Rattle.given_packages.specs.Given.{TellsGiven};
ghost use Rattle.declared_tables.specs.DeclaredTables.{declared_tables};
ghost use Rattle.imports.specs.Ranks.{IsOrder};
ghost use Rattle.imports.specs.Settling.{given_imports};
ghost use Rattle.imports.specs.Views.{packages_view, rank_of, ranked_of, rows_view};
ghost use Rattle.whole_packages.specs.LoadedViews.{HaveDistinctPaths, TellPackages};
ghost use Rattle.meaning_reports.specs.Loaded.{LoadedPackage as MeantPackage};
ghost use Rattle.declared_json.specs.DeclaredPackages.{packages_of};

use crate::counted::counted_packages;
use crate::faulty::faulty_packages;
use crate::package_names::names_of_packages;
use declared_json::DeclaredPackages;
use declared_tables::DeclaredTables;
use imports::given::given_imports;
use imports::{ImportList, Order, first_places, order};
use indexmap::IndexMap;
use names::PackageNames;
use std::alloc::{AllocError, Global};
use whole_packages::{LoadedPackage, Marked, import_lists, unranked};

/// The given packages, and what is known of them before one is judged.
#[derive(Drop)]
pub struct Given<'a> {
    pub packages: &'a [LoadedPackage],
    /// For each of them the paths that it imports.
    pub lists: Vec<ImportList<'a>>,
    /// For each of them the places of those that it imports.
    pub imports: Vec<Vec<usize>>,
    pub order: Order,
    /// For each path the place of its first package.
    pub places: IndexMap<&'a str, usize>,
    /// Which of them have no rank.
    pub unranked: Vec<bool>,
    /// Which of them have a fault as a whole.
    pub faulty: Vec<bool>,
    /// Which of them count as given for those that import them.
    pub counted: Vec<bool>,
    pub names: PackageNames<'a>,
    /// What is declared of packages that are not given.
    pub declared: DeclaredTables<'a>,
}

/// Packages of different paths, with what is known of them before one is judged, and what is declared of others.
///
/// # Errors
///
/// Memory was refused.
pub fn given_packages<'a>(
    alloc: Global,
    packages: &'a [LoadedPackage],
    outside: &'a DeclaredPackages,
) -> Result<Given<'a>, AllocError>
    ensures packages { IfOk result (λ given. given.packages.now ≡ packages.now) }
    ensures given { IfOk result (λ given. (ps : List MeantPackage) → TellPackages ps packages.now
        → HaveDistinctPaths ps → TellsGiven (declared_tables (packages_of outside.now)) ps given) }
    ensures rows { IfOk result (λ given. rows_view given.imports.items
        ≡ given_imports (packages_view given.lists.items)) }
    ensures order { IfOk result (λ given. IsOrder (packages_view given.lists.items) (rank_of given.order)
        (ranked_of given.order)) }
{
    let lists = import_lists(alloc, packages)?;
    let order = order(alloc, &lists)?;
    let places = first_places(alloc, &lists)?;
    let unranked = unranked(alloc, &order, packages.len())?;
    let names = names_of_packages(alloc, packages)?;
    let imports = given_imports(alloc, &lists)?;
    let marked = Marked {
        places: &places,
        marks: &unranked,
    };
    let faulty = faulty_packages(alloc, packages, marked)?;
    let counted = counted_packages(alloc, packages)?;
    let declared = DeclaredTables::of(alloc, outside)?;
    Ok(Given {
        packages,
        lists,
        imports,
        order,
        places,
        unranked,
        faulty,
        counted,
        names,
        declared,
    })
}
