//! A package that is judged by itself.

ghost use Rattle.std.specs.Prelude.{◌≡◌, ℕ, IfOk, List, Some, slice_get};
ghost use Rattle.explanations.specs.Plain.{judged_view, plain_view};
ghost use Rattle.explanations.specs.Units.{NotesFollow};
ghost use Rattle.gathering.specs.Results.{FollowsFromTold};
ghost use Rattle.meaning_reports.specs.Loaded.{LoadedPackage as MeantPackage, Tables, imported_paths};
ghost use Rattle.meaning_reports.specs.PackageReports.{by_paths};
ghost use Rattle.one_package.specs.Judgments.{said_view};
ghost use Rattle.given_packages.specs.Neighbours.{nearby_view, TellsNearby};
ghost use Rattle.one_package.specs.Results.{tellings_by_path, AreTold, KnowsAll, ToldImports};
ghost use Rattle.whole_packages.specs.LoadedViews.{TellsPackage};

use crate::explained::explained_report;
use crate::found::unit_reasons;
use crate::notes::Elsewhere;
use given_packages::Neighbours;
use one_package::{Judged, KnownImports, around_beside};
use report::ExplainedPackage;
use std::alloc::{AllocError, Global};
use whole_packages::LoadedPackage;

/// A package that was judged by itself, with the notes of each of its diagnostics, by what it was judged by: what is
/// around it, and what is known of its imports. What is said of it stays as it is. An import that is not yes has no
/// note, since nothing is known of its findings.
///
/// # Errors
///
/// Memory was refused.
pub fn explain_unit<'a>(
    alloc: Global,
    loaded: &'a LoadedPackage,
    near: Neighbours<'_, 'a>,
    known: &KnownImports<'a, '_>,
    judged: &Judged<'a>,
) -> Result<ExplainedPackage<'a>, AllocError>
    ensures plain { IfOk result (λ explained. plain_view explained ≡ judged_view judged.now) }
    ensures notes { IfOk result (λ explained. (declared : Tables) (ps : List MeantPackage) (i : ℕ) (p : MeantPackage)
        (told : ToldImports) → TellsNearby declared ps p (nearby_view near.entry) → slice_get ps i ≡ Some p
        → TellsPackage p loaded.now
        → KnowsAll (nearby_view near.entry) (imported_paths p) told known.now → AreTold ps i told
        → FollowsFromTold (by_paths declared) ps i p (tellings_by_path ps told) (said_view judged.now)
        → NotesFollow declared ps i p (tellings_by_path ps told) explained) }
{
    let report = &judged.report;
    let around = around_beside(near, &*known);
    let reasons = unit_reasons(alloc, loaded, around, &report.diagnostics)?;
    let elsewhere = Elsewhere {
        loaded: Some(loaded),
        all: None,
    };
    explained_report(alloc, report, reasons, elsewhere)
}
