//! The packages around one that is judged by itself.

ghost use Rattle.std.specs.Prelude.{◌≡◌, ℕ, List, IfOk, OnOk, Some, map, slice_get};
ghost use Rattle.declared_tables.specs.DeclaredTables.{declared_view};
ghost use Rattle.declared_tables.specs.MarkedGivers.{AllMarkGivers};
ghost use Rattle.imports.specs.Ranks.{HasRank};
ghost use Rattle.imports.specs.Views.{package_view, packages_view};
ghost use Rattle.meaning.specs.OuterBlocks.{or_else};
ghost use Rattle.meaning_reports.specs.Loaded.{LoadedPackage as MeantPackage, Tables, import_list};
ghost use Rattle.names.specs.Answers.{names_by_path};
ghost use Rattle.given_packages.specs.Neighbours.{nearby_view, TellsNearby};
ghost use Rattle.given_packages.specs.ToldNeighbours.{item_of, name_if, name_told, AreImportsOf, KeepsImported};
ghost use Rattle.given_packages.specs.declared.told_neighbours.ImportedPackage.{ImportedPackage};

use crate::nearby::Neighbours;
use declared_tables::DeclaredTables;
use imports::{ImportList, first_places};
use indexmap::IndexMap;
use names::PackageNames;
use std::alloc::{AllocError, Global};

/// What is told of a given package that one imports which is judged by itself, beside what is known of its functions.
#[derive(Clone, Copy)]
pub struct ImportedPackage<'a> {
    pub path: &'a str,
    /// The name in its package clause, if it has a file with a tree and counts as given.
    pub name: Option<&'a str>,
    /// Whether it counts as given.
    pub is_counted: bool,
}

/// The given packages that one imports which is judged by itself.
#[derive(Drop)]
pub struct ToldNeighbours<'a> {
    places: IndexMap<&'a str, usize>,
    counted: Vec<bool>,
    names: PackageNames<'a>,
}

fn list_of<'a>(alloc: Global, one: &ImportedPackage<'a>) -> ImportList<'a>
    ensures { package_view result ≡ item_of one.now }
{
    ImportList {
        path: one.path,
        imports: Vec::new(alloc),
    }
}

fn lists_of<'a>(
    alloc: Global,
    imported: &[ImportedPackage<'a>],
) -> Result<Vec<ImportList<'a>>, AllocError>
    ensures { IfOk result (λ lists. packages_view lists.items ≡ map item_of imported.now) }
{
    let mut lists = Vec::new(alloc);
    for one in imported {
        lists.push(list_of(alloc, one))?;
    }
    Ok(lists)
}

fn marks_of(alloc: Global, imported: &[ImportedPackage<'_>]) -> Result<Vec<bool>, AllocError>
    ensures { IfOk result (λ marks. marks.items ≡ map (λ one. one.is_counted) imported.now) }
{
    let mut marks = Vec::new(alloc);
    for one in imported {
        marks.push(one.is_counted)?;
    }
    Ok(marks)
}

/// Adds the name of a package, if it has one.
fn add_name<'a>(one: &ImportedPackage<'a>, names: &mut PackageNames<'a>) -> Result<(), AllocError>
    ensures { OnOk result ((path : List ℕ) → names_by_path names.new path
        ≡ or_else (names_by_path names.old path) (name_if one.now path)) }
{
    if let Some(name) = one.name {
        names.insert(one.path, name)?;
    }
    Ok(())
}

fn names_of<'a>(
    alloc: Global,
    imported: &[ImportedPackage<'a>],
) -> Result<PackageNames<'a>, AllocError>
    ensures { IfOk result (λ names. (path : List ℕ) → names_by_path names path ≡ name_told imported.now path) }
{
    let mut names = PackageNames::new(alloc);
    for one in imported {
        add_name(one, &mut names)?;
    }
    Ok(names)
}

impl<'a> ToldNeighbours<'a> {
    /// Keeps what is told of imports. Of several of one path the first counts.
    ///
    /// # Errors
    ///
    /// Memory was refused.
    pub fn of(alloc: Global, imported: &[ImportedPackage<'a>]) -> Result<Self, AllocError>
        ensures { IfOk result (KeepsImported imported.now) }
    {
        let lists = lists_of(alloc, imported)?;
        let places = first_places(alloc, &lists)?;
        let counted = marks_of(alloc, imported)?;
        let names = names_of(alloc, imported)?;
        Ok(ToldNeighbours {
            places,
            counted,
            names,
        })
    }

    /// These as the packages around the one that imports them, where this is declared of others. Each of them has a
    /// rank, since it was judged before.
    pub fn beside<'k>(&'k self, declared: &'k DeclaredTables<'a>) -> Neighbours<'k, 'a>
        ensures { (tables : Tables) (ps : List MeantPackage) (i : ℕ) (p : MeantPackage)
            (imported : List ImportedPackage) → KeepsImported imported self.now → slice_get ps i ≡ Some p
            → HasRank (import_list ps) i → AreImportsOf ps p imported
            → ((path : List ℕ) → declared_view declared.now path ≡ tables path) → AllMarkGivers declared.now
            → TellsNearby tables ps p (nearby_view result) }
    {
        Neighbours {
            places: &self.places,
            unranked: &[],
            counted: &self.counted,
            names: &self.names,
            declared,
        }
    }
}
