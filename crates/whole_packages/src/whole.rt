//! The faults of a package as a whole.

ghost use Rattle.std.specs.Prelude.{◌≡◌, ◌↔◌, ◌++◌, ◌<◌, ℕ, List, IfOk, OnOk, Contains, None, Some, true, length, map, option_map, slice_get};
ghost use Rattle.imports.specs.Views.{at_path, rank_of};
ghost use Rattle.whole_packages.specs.LoadedViews.{numbered_view, TellsPackage};
ghost use Rattle.whole_packages.specs.WholeEntries.{is_faulty, is_marked, is_set, second_at, second_entries, second_view, whole_entries, PicksUnranked};
ghost use Rattle.meaning.specs.TwoFunctions.{second_function};
ghost use Rattle.report.specs.Entries.{Entry, entry_of};
ghost use Rattle.tree.specs.View.{file_syntax};
ghost use Rattle.meaning_reports.specs.Loaded.{LoadedPackage as MeantPackage, trees_of};
ghost use Rattle.meaning_reports.specs.WholeFaults.{IsWholeFault};

use crate::failures::add_failures;
use crate::import_entries::{Marked, add_imports};
use crate::loaded_package::LoadedPackage;
use crate::numbered::{NumberedTree, numbered_trees};
use imports::Order;
use report::{Diagnostic, DiagnosticCode};
use std::alloc::{AllocError, Global};
use tree::Identifier;

/// The first function whose name an earlier one has: the number of its tree among the package's trees, and its name
/// there.
#[derive(Clone, Copy)]
pub struct Second<'a> {
    pub tree: usize,
    pub name: &'a Identifier,
}

fn add_second_at<'a>(
    trees: &[NumberedTree<'a>],
    second: Second<'a>,
    diagnostics: &mut Vec<Diagnostic<'a>>,
) -> Result<(), AllocError>
    ensures { OnOk result (map entry_of diagnostics.new.items ≡ map entry_of diagnostics.old.items ++ second_at
        (slice_get (map numbered_view trees.now) second.entry.tree) (second_view second.entry)) }
{
    match trees.get(second.tree) {
        Some(numbered) => {
            diagnostics.push(Diagnostic {
                file: numbered.file,
                offset: second.name.span.start,
                code: DiagnosticCode::TwoFunctions,
                name: second.name.text.as_str(),
            })?;
            Ok(())
        }
        None => Ok(()),
    }
}

fn add_second<'a>(
    trees: &[NumberedTree<'a>],
    second: Option<Second<'a>>,
    diagnostics: &mut Vec<Diagnostic<'a>>,
) -> Result<(), AllocError>
    ensures { OnOk result (map entry_of diagnostics.new.items ≡ map entry_of diagnostics.old.items ++ second_entries
        (map numbered_view trees.now) (option_map second_view second.entry)) }
{
    match second {
        Some(second) => add_second_at(trees, second, diagnostics),
        None => Ok(()),
    }
}

/// Which of so many packages have no rank.
///
/// # Errors
///
/// Memory was refused.
pub fn unranked(alloc: Global, order: &Order, count: usize) -> Result<Vec<bool>, AllocError>
    ensures count { IfOk result (λ marks. length marks.items ≡ count) }
    ensures marks { IfOk result (λ marks. (j : ℕ) → (is_set (slice_get marks.items j) ≡ true)
        ↔ ((j < count) × (rank_of order.now j ≡ None))) }
{
    let mut marks = Vec::new(alloc);
    for place in 0..count {
        marks.push(order.rank(place).is_none())?;
    }
    Ok(marks)
}

/// The faults of the package at that place as a whole, in no order: files without a tree, two functions of one name,
/// and imports of given packages that have no rank. Told are the second function of a name, if there is one, and the
/// given packages that have no rank.
///
/// # Errors
///
/// Memory was refused.
pub fn whole_faults<'a>(
    alloc: Global,
    loaded: &'a LoadedPackage,
    second: Option<Second<'a>>,
    unranked: Marked<'_, '_>,
) -> Result<Vec<Diagnostic<'a>>, AllocError>
    ensures entries { IfOk result (λ faults. map entry_of faults.items
        ≡ whole_entries (at_path unranked.entry.places.now) unranked.entry.marks.now
        (option_map second_view second.entry) loaded.now) }
    ensures faults { IfOk result (λ faults. (ps : List MeantPackage) (i : ℕ) (p : MeantPackage)
        → slice_get ps i ≡ Some p → TellsPackage p loaded.now
        → option_map second_view second.entry ≡ second_function (trees_of p)
        → PicksUnranked ps p (is_marked (at_path unranked.entry.places.now) unranked.entry.marks.now)
        → (x : Entry) → Contains (map entry_of faults.items) x ↔ IsWholeFault ps i x) }
{
    let trees = numbered_trees(alloc, loaded)?;
    let mut diagnostics = Vec::new(alloc);
    add_failures(&loaded.readings, &mut diagnostics)?;
    add_second(&trees, second, &mut diagnostics)?;
    add_imports(
        &unranked,
        DiagnosticCode::ImportHasNoRank,
        &trees,
        &mut diagnostics,
    )?;
    Ok(diagnostics)
}

/// Whether the package has a fault as a whole. Told are the second function of a name, if there is one, and the given
/// packages that have no rank.
///
/// # Errors
///
/// Memory was refused.
pub fn has_whole_fault(
    alloc: Global,
    loaded: &LoadedPackage,
    second: Option<Second<'_>>,
    unranked: Marked<'_, '_>,
) -> Result<bool, AllocError>
    ensures { IfOk result (λ has.
        option_map second_view second.entry ≡ second_function (map file_syntax loaded.now.trees.items)
        → has ≡ is_faulty (at_path unranked.entry.places.now) unranked.entry.marks.now loaded.now) }
{
    let faults = whole_faults(alloc, loaded, second, unranked)?;
    Ok(!faults.is_empty())
}
