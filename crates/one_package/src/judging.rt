//! A package is judged by what is known of its imports.

ghost use Rattle.std.specs.Prelude.{◌≡◌, ℕ, List, IfOk, Some, slice_get};
ghost use Rattle.gathering.specs.Results.{FollowsFrom, FollowsFromTold};
ghost use Rattle.meaning_reports.specs.Loaded.{LoadedPackage as MeantPackage, Tables, imported_paths};
ghost use Rattle.one_package.specs.Certified.{CertificatesFollow, CertificatesFollowTold};
ghost use Rattle.given_packages.specs.Given.{TellsGiven};
ghost use Rattle.one_package.specs.Judgments.{said_view, TellsAround, TellsSources};
ghost use Rattle.given_packages.specs.Neighbours.{nearby_in, nearby_view, TellsNearby};
ghost use Rattle.one_package.specs.Results.{results_by_path, tables_told, tellings_by_path, AreImported, AreMarkedTables, AreTold, HaveTheirTables, KnowsAll, KnowsImports, ToldImports};
ghost use Rattle.one_package.specs.declared.judged.Judged.{Judged};
ghost use Rattle.whole_packages.specs.LoadedViews.{TellsPackage};

use crate::file_rules::{FileRules, Judges};
use crate::hands::Hands;
use crate::judged::{Around, Judged, judge};
use crate::known_imports::KnownImports;
use given_packages::{Given, Neighbours};
use std::alloc::Global;
use whole_packages::{LoadedPackage, Marked};

/// What is known around a package, where this is known of its imports and of their functions.
pub fn around_beside<'k, 't, 'a>(
    near: Neighbours<'k, 'a>,
    imports: &'k KnownImports<'a, 't>,
) -> Around<'k, 'a>
    ensures known { (declared : Tables) (ps : List MeantPackage) (tables : Tables) (p : MeantPackage)
        (told : ToldImports) → TellsNearby declared ps p (nearby_view near.entry)
        → KnowsAll (nearby_view near.entry) (imported_paths p) told imports.now
        → HaveTheirTables (nearby_view near.entry) p tables told → AreMarkedTables (tables_told told)
        → TellsAround ps tables p result }
    ensures not_yes { result.not_yes.now ≡ imports.now.not_yes }
{
    Around {
        names: near.names,
        signatures: &imports.signatures,
        calls: &imports.calls,
        signs: &imports.signs,
        unranked: Marked {
            places: near.places,
            marks: near.unranked,
        },
        counted: Marked {
            places: near.places,
            marks: near.counted,
        },
        not_yes: &imports.not_yes,
    }
}

/// What is known around one of the given packages.
pub fn around<'k, 't, 'a>(given: &'k Given<'a>, imports: &'k KnownImports<'a, 't>) -> Around<'k, 'a>
    ensures known { (declared : Tables) (ps : List MeantPackage) (tables : Tables) (p : MeantPackage)
        (told : ToldImports) → TellsGiven declared ps given.now
        → KnowsAll (nearby_in given.now) (imported_paths p) told imports.now
        → HaveTheirTables (nearby_in given.now) p tables told → AreMarkedTables (tables_told told)
        → TellsAround ps tables p result }
    ensures not_yes { result.not_yes.now ≡ imports.now.not_yes }
{
    around_beside(given.neighbours(), imports)
}

/// Judges a package by what is told of its imports, whoever found that, and by what is declared of those that are not
/// given. Of those without a rank nothing need be told.
///
/// # Errors
///
/// Memory was refused, or what else keeps these hands from it.
pub fn judge_beside<'a, R: FileRules, H: Hands>(
    alloc: Global,
    near: Neighbours<'_, 'a>,
    loaded: &'a LoadedPackage,
    imports: &KnownImports<'a, '_>,
    by: &Judges<'_, R, H>,
) -> Result<Judged<'a>, H::Fault>
    ensures told { IfOk result (TellsSources loaded.now) }
    ensures follows { IfOk result (λ judged. (declared : Tables) (ps : List MeantPackage) (i : ℕ) (p : MeantPackage)
        (told : ToldImports) → TellsNearby declared ps p (nearby_view near.entry) → slice_get ps i ≡ Some p
        → TellsPackage p loaded.now
        → KnowsAll (nearby_view near.entry) (imported_paths p) told imports.now → AreTold ps i told
        → FollowsFromTold (R.rules by.now.rules.now declared) ps i p (tellings_by_path ps told) (said_view judged)) }
    ensures certified { IfOk result (λ judged. (declared : Tables) (ps : List MeantPackage) (i : ℕ) (p : MeantPackage)
        (told : ToldImports) → TellsNearby declared ps p (nearby_view near.entry) → slice_get ps i ≡ Some p
        → TellsPackage p loaded.now
        → KnowsAll (nearby_view near.entry) (imported_paths p) told imports.now → AreTold ps i told
        → CertificatesFollowTold (R.rules by.now.rules.now declared) (R.certificates by.now.rules.now) ps i p
        (tellings_by_path ps told) judged) }
{
    by.rules.are_determined();
    judge(alloc, loaded, around_beside(near, &*imports), by)
}

/// Judges a given package by what is known of its imports, whoever found that, and by what is declared of those that
/// were not given. Of those without a rank nothing need be known.
///
/// # Errors
///
/// Memory was refused, or what else keeps these hands from it.
pub fn judge_package<'a, R: FileRules, H: Hands>(
    alloc: Global,
    given: &Given<'a>,
    loaded: &'a LoadedPackage,
    imports: &KnownImports<'a, '_>,
    by: &Judges<'_, R, H>,
) -> Result<Judged<'a>, H::Fault>
    ensures told { IfOk result (TellsSources loaded.now) }
    ensures follows { IfOk result (λ judged. (declared : Tables) (ps : List MeantPackage) (i : ℕ) (p : MeantPackage)
        (js : List Judged) → TellsGiven declared ps given.now → slice_get ps i ≡ Some p → TellsPackage p loaded.now
        → KnowsImports given.now (imported_paths p) js imports.now → AreImported ps i js
        → FollowsFrom (R.rules by.now.rules.now declared) ps i p (results_by_path ps js) (said_view judged)) }
    ensures certified { IfOk result (λ judged. (declared : Tables) (ps : List MeantPackage) (i : ℕ) (p : MeantPackage)
        (js : List Judged) → TellsGiven declared ps given.now → slice_get ps i ≡ Some p → TellsPackage p loaded.now
        → KnowsImports given.now (imported_paths p) js imports.now → AreImported ps i js
        → CertificatesFollow (R.rules by.now.rules.now declared) (R.certificates by.now.rules.now) ps i p
        (results_by_path ps js) judged) }
{
    judge_beside(alloc, given.neighbours(), loaded, imports, by)
}
