//! All packages, one after another.

ghost use Rattle.std.specs.Prelude.{◌≡◌, IfOk, List, Some, map, slice_get};
ghost use Rattle.all_packages.specs.Reports.{AreReports};
ghost use Rattle.declared_json.specs.DeclaredPackages.{packages_of};
ghost use Rattle.declared_tables.specs.DeclaredTables.{declared_tables};
ghost use Rattle.explanations.specs.Explained.{AreExplained, HaveTheirNotes};
ghost use Rattle.explanations.specs.Plain.{judged_view, plain_view, report_view};
ghost use Rattle.explanations.specs.Right.{AreJudgedBy};
ghost use Rattle.meaning_reports.specs.Loaded.{LoadedPackage as MeantPackage, Tables};
ghost use Rattle.meaning_reports.specs.PackageReports.{AreFindingsBy, by_paths};
ghost use Rattle.given_packages.specs.Given.{TellsGiven};
ghost use Rattle.report.specs.Entries.{entry_of};
ghost use Rattle.whole_packages.specs.LoadedViews.{HaveDistinctPaths, TellPackages};

use crate::explained::explained_report;
use crate::found::package_reasons;
use crate::notes::{AllJudged, Elsewhere};
use declared_json::DeclaredPackages;
use given_packages::given_packages;
use one_package::Judged;
use report::{ExplainedPackage, PackageReport};
use std::alloc::{AllocError, Global};
use whole_packages::LoadedPackage;

/// The package at that place, of which this is the report, with the notes of each diagnostic.
fn explained_package<'a>(
    alloc: Global,
    all: AllJudged<'_, 'a>,
    place: usize,
    report: &PackageReport<'a>,
) -> Result<ExplainedPackage<'a>, AllocError>
    ensures plain { IfOk result (λ explained. plain_view explained ≡ report_view report.now) }
    ensures notes { IfOk result (λ explained. (declared : Tables) (ps : List MeantPackage) (tables : Tables)
        (p : MeantPackage) → TellsGiven declared ps all.entry.given.now → HaveDistinctPaths ps
        → AreJudgedBy declared ps tables all.entry.judged.now → slice_get ps place ≡ Some p
        → AreFindingsBy (by_paths declared) ps tables place (map entry_of report.now.diagnostics.items)
        → HaveTheirNotes ps tables place p explained.sources.now explained.diagnostics.items) }
{
    let reasons = package_reasons(alloc, all, place, &report.diagnostics)?;
    let elsewhere = Elsewhere {
        loaded: all.given.packages.get(place),
        all: Some(all),
    };
    explained_report(alloc, report, reasons, elsewhere)
}

/// Each package with the notes of each of its diagnostics, where the packages were judged so, and that is declared of
/// others. What is said of them stays as it is. Where it is right, the notes of a diagnostic of a path tell a shortest
/// way to its fault.
///
/// # Errors
///
/// Memory was refused.
pub fn explain<'a>(
    alloc: Global,
    packages: &'a [LoadedPackage],
    outside: &'a DeclaredPackages,
    judged: &[Judged<'a>],
) -> Result<Vec<ExplainedPackage<'a>>, AllocError>
    ensures plain { IfOk result (λ explained. map plain_view explained.items ≡ map judged_view judged.now) }
    ensures notes { IfOk result (λ explained. (ps : List MeantPackage) → TellPackages ps packages.now
        → HaveDistinctPaths ps → AreReports (declared_tables (packages_of outside.now)) ps packages.now judged.now
        → AreExplained (declared_tables (packages_of outside.now)) ps explained.items) }
{
    let given = given_packages(alloc, packages, outside)?;
    let all = AllJudged {
        given: &given,
        judged,
    };
    let mut explained: Vec<ExplainedPackage<'a>> = Vec::new(alloc);
    for (place, one) in judged.iter().enumerate() {
        explained.push(explained_package(alloc, all, place, &one.report)?)?;
    }
    Ok(explained)
}
