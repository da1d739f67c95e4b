//! All packages, one after another.

ghost use Rattle.std.specs.Prelude.{◌≡◌, ℕ, List, Option, IfOk, OnOk, Some, filter_map, slice_get};
ghost use Rattle.all_packages.specs.Reports.{AreAllCertified, AreReportsBy};
ghost use Rattle.one_package.specs.Certified.{CertificatesFollow};
ghost use Rattle.one_package.specs.Judgments.{TellsSources, said_view};
ghost use Rattle.all_packages.specs.Progress.{judged_in, slots_in, AreRight, AreRankedJudged, AreAllJudged, IsNext, IsReady};
ghost use Rattle.given_packages.specs.Given.{TellsGiven};
ghost use Rattle.one_package.specs.Results.{results_by_path, AreImported};
ghost use Rattle.one_package.specs.declared.judged.Judged.{Judged};
ghost use Rattle.declared_tables.specs.DeclaredTables.{declared_tables};
ghost use Rattle.gathering.specs.Results.{FollowsFrom};
ghost use Rattle.imports.specs.Ranks.{IsOrder};
ghost use Rattle.imports.specs.Views.{package_view};
ghost use Rattle.declared_json.specs.DeclaredPackages.{packages_of};
ghost use Rattle.whole_packages.specs.LoadedViews.{HaveDistinctPaths, TellPackages, TellsPackage};
ghost use Rattle.meaning_reports.specs.Loaded.{LoadedPackage as MeantPackage, Tables, import_list, imported_paths};

use crate::known_imports::known_imports;
use crate::progress::Progress;
use declared_json::DeclaredPackages;
use given_packages::{Given, given_packages};
use imports::ImportList;
use one_package::{Alone, FileRules, Hands, Judged, Judges, judge_package};
use std::alloc::{AllocError, Global};
use whole_packages::LoadedPackage;

/// A package, what it imports, and the places of those that were given.
#[derive(Clone, Copy)]
struct Importer<'g, 'a> {
    loaded: &'a LoadedPackage,
    list: &'g ImportList<'a>,
    places: &'g [usize],
}

/// Judges a package by what was judged before.
fn judge_one<'a, R: FileRules, H: Hands>(
    alloc: Global,
    given: &Given<'a>,
    importer: Importer<'_, 'a>,
    progress: &Progress<'a>,
    by: &Judges<'_, R, H>,
) -> Result<Judged<'a>, H::Fault>
    ensures told { IfOk result (TellsSources importer.entry.loaded.now) }
    ensures follows { IfOk result (λ judged. (declared : Tables) (ps : List MeantPackage) (i : ℕ) (p : MeantPackage)
        → TellsGiven declared ps given.now → slice_get ps i ≡ Some p → TellsPackage p importer.entry.loaded.now
        → (package_view importer.entry.list.now).imports ≡ imported_paths p
        → AreImported ps i (filter_map (judged_in progress.now) importer.entry.places.now)
        → FollowsFrom (R.rules by.now.rules.now declared) ps i p
        (results_by_path ps (filter_map (judged_in progress.now) importer.entry.places.now)) (said_view judged)) }
    ensures certified { IfOk result (λ judged. (declared : Tables) (ps : List MeantPackage) (i : ℕ) (p : MeantPackage)
        → TellsGiven declared ps given.now → slice_get ps i ≡ Some p → TellsPackage p importer.entry.loaded.now
        → (package_view importer.entry.list.now).imports ≡ imported_paths p
        → AreImported ps i (filter_map (judged_in progress.now) importer.entry.places.now)
        → CertificatesFollow (R.rules by.now.rules.now declared) (R.certificates by.now.rules.now) ps i p
        (results_by_path ps (filter_map (judged_in progress.now) importer.entry.places.now)) judged) }
{
    let imports = known_imports(
        alloc,
        given,
        &importer.list.imports,
        progress,
        importer.places,
    )?;
    judge_package(alloc, given, importer.loaded, &imports, by)
}

/// Judges the package of that place, unless it was judged.
fn judge_next<'a, R: FileRules, H: Hands>(
    alloc: Global,
    given: &Given<'a>,
    place: usize,
    progress: &mut Progress<'a>,
    by: &Judges<'_, R, H>,
) -> Result<(), H::Fault>
    ensures { OnOk result ((declared : Tables) (ps : List MeantPackage) → TellsGiven declared ps given.now
        → HaveDistinctPaths ps
        → IsReady ps (slots_in progress.old) place
        → AreRight (R.rules by.now.rules.now declared) (R.certificates by.now.rules.now) ps given.now.packages.now
        (slots_in progress.old)
        → IsNext (R.rules by.now.rules.now declared) (R.certificates by.now.rules.now) ps given.now.packages.now
        (slots_in progress.old) (slots_in progress.new) place) }
{
    by.rules.are_determined();
    let (Some(loaded), Some(list), Some(places)) = (
        given.packages.get(place),
        given.lists.get(place),
        given.imports.get(place),
    ) else {
        return Ok(());
    };
    if progress.at(place).is_some() {
        return Ok(());
    }
    let importer = Importer {
        loaded,
        list,
        places: places.as_slice(),
    };
    let judged = judge_one(alloc, given, importer, progress, by)?;
    progress.keep(place, judged);
    Ok(())
}

/// Judges the packages that have ranks, in the order of these.
fn judge_ranked<'a, R: FileRules, H: Hands>(
    alloc: Global,
    given: &Given<'a>,
    ranked: &[usize],
    progress: &mut Progress<'a>,
    by: &Judges<'_, R, H>,
) -> Result<(), H::Fault>
    ensures { OnOk result ((declared : Tables) (ps : List MeantPackage) → TellsGiven declared ps given.now
        → HaveDistinctPaths ps
        → (rank : ℕ → Option ℕ) → IsOrder (import_list ps) rank ranked.now
        → AreRight (R.rules by.now.rules.now declared) (R.certificates by.now.rules.now) ps given.now.packages.now
        (slots_in progress.old)
        → AreRankedJudged (R.rules by.now.rules.now declared) (R.certificates by.now.rules.now) ps
        given.now.packages.now ranked.now (slots_in progress.new)) }
{
    for place in ranked {
        judge_next(alloc, given, *place, progress, by)?;
    }
    Ok(())
}

/// Judges the packages that are left, where those that have ranks were judged.
fn judge_rest<'a, R: FileRules, H: Hands>(
    alloc: Global,
    given: &Given<'a>,
    progress: &mut Progress<'a>,
    by: &Judges<'_, R, H>,
) -> Result<(), H::Fault>
    ensures { OnOk result ((declared : Tables) (ps : List MeantPackage) → TellsGiven declared ps given.now
        → HaveDistinctPaths ps
        → (rank : ℕ → Option ℕ) (ranked : List ℕ) → IsOrder (import_list ps) rank ranked
        → AreRankedJudged (R.rules by.now.rules.now declared) (R.certificates by.now.rules.now) ps
        given.now.packages.now ranked (slots_in progress.old)
        → AreAllJudged (R.rules by.now.rules.now declared) (R.certificates by.now.rules.now) ps given.now.packages.now
        (slots_in progress.new)) }
{
    for place in 0..given.packages.len() {
        judge_next(alloc, given, place, progress, by)?;
    }
    Ok(())
}

/// Judges all packages that were not judged: what each imports before it.
fn judge_all<'a, R: FileRules, H: Hands>(
    alloc: Global,
    given: &Given<'a>,
    progress: Progress<'a>,
    by: &Judges<'_, R, H>,
) -> Result<Progress<'a>, H::Fault>
    ensures { IfOk result (λ all. (declared : Tables) (ps : List MeantPackage)
        → TellsGiven declared ps given.now → HaveDistinctPaths ps
        → AreRight (R.rules by.now.rules.now declared) (R.certificates by.now.rules.now) ps given.now.packages.now
        (slots_in progress.entry)
        → AreAllJudged (R.rules by.now.rules.now declared) (R.certificates by.now.rules.now) ps given.now.packages.now
        (slots_in all)) }
{
    let mut all = progress;
    judge_ranked(alloc, given, given.order.ranked(), &mut all, by)?;
    judge_rest(alloc, given, &mut all, by)?;
    Ok(all)
}

/// Judges the packages that were not judged, and tells what is said of all, in their order: what is to be said of
/// each, what is known of its functions, and the certificates of its bodies, if the rules make some. Who judged the
/// others does not matter, if what is said of each is right.
///
/// # Errors
///
/// Memory was refused, or what else keeps these hands from it.
pub fn judge_left<'a, R: FileRules, H: Hands>(
    alloc: Global,
    given: &Given<'a>,
    progress: Progress<'a>,
    by: &Judges<'_, R, H>,
) -> Result<Vec<Judged<'a>>, H::Fault>
    ensures reports { IfOk result (λ found. (declared : Tables) (ps : List MeantPackage)
        → TellsGiven declared ps given.now → HaveDistinctPaths ps
        → AreRight (R.rules by.now.rules.now declared) (R.certificates by.now.rules.now) ps given.now.packages.now
        (slots_in progress.entry)
        → AreReportsBy (R.rules by.now.rules.now declared) ps given.now.packages.now found.items) }
    ensures certified { IfOk result (λ found. (declared : Tables) (ps : List MeantPackage)
        → TellsGiven declared ps given.now → HaveDistinctPaths ps
        → AreRight (R.rules by.now.rules.now declared) (R.certificates by.now.rules.now) ps given.now.packages.now
        (slots_in progress.entry)
        → AreAllCertified (R.rules by.now.rules.now declared) (R.certificates by.now.rules.now) ps found.items) }
{
    let all = judge_all(alloc, given, progress, by)?;
    by.rules.are_determined();
    Ok(all.into_judged(alloc)?)
}

/// Judges packages of different paths, and their files by these rules, where this is declared of packages that are not
/// given: what is to be said of each, in their order, what is known of its functions, and the certificates of its
/// bodies, if the rules make some. This thread does all of it.
///
/// # Errors
///
/// Memory was refused.
pub fn check_by_rules<'a, R: FileRules>(
    alloc: Global,
    packages: &'a [LoadedPackage],
    outside: &'a DeclaredPackages,
    rules: &R,
) -> Result<Vec<Judged<'a>>, AllocError>
    ensures reports { IfOk result (λ found. (ps : List MeantPackage) → TellPackages ps packages.now
        → HaveDistinctPaths ps
        → AreReportsBy (R.rules rules.now (declared_tables (packages_of outside.now))) ps packages.now found.items) }
    ensures certified { IfOk result (λ found. (ps : List MeantPackage) → TellPackages ps packages.now
        → HaveDistinctPaths ps
        → AreAllCertified (R.rules rules.now (declared_tables (packages_of outside.now))) (R.certificates rules.now) ps
        found.items) }
{
    let given = given_packages(alloc, packages, outside)?;
    let none = Progress::new(alloc, packages.len())?;
    let by = Judges {
        rules,
        hands: &Alone,
    };
    judge_left(alloc, &given, none, &by)
}
