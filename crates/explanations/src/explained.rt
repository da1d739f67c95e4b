//! One report, with the notes of each of its diagnostics.

ghost use Rattle.std.specs.Prelude.{◌≡◌, ℕ, IfOk, List, map};
ghost use Rattle.explanations.specs.Explained.{HaveTheirNotes};
ghost use Rattle.explanations.specs.PackageReasons.{ArePackageReasons};
ghost use Rattle.explanations.specs.Plain.{plain_view, report_view};
ghost use Rattle.meaning_reports.specs.Loaded.{LoadedPackage as MeantPackage, Tables};
ghost use Rattle.meaning_reports.specs.PackageReports.{AreFindingsBy, by_paths};
ghost use Rattle.meaning_reports.specs.WholeFaults.{HasNoWholeFault};
ghost use Rattle.report.specs.Entries.{entry_of};

use crate::copies::copied;
use crate::notes::{Elsewhere, Explaining, Reasons};
use report::{ExplainedPackage, PackageReport};
use std::alloc::{AllocError, Global};

/// The package of this report with the notes of each of its diagnostics, by these reasons.
///
/// # Errors
///
/// Memory was refused.
pub fn explained_report<'a>(
    alloc: Global,
    report: &PackageReport<'a>,
    reasons: Reasons<'a>,
    elsewhere: Elsewhere<'_, 'a>,
) -> Result<ExplainedPackage<'a>, AllocError>
    ensures plain { IfOk result (λ explained. plain_view explained ≡ report_view report.now) }
    ensures notes { IfOk result (λ explained. (declared : Tables) (ps : List MeantPackage) (tables : Tables) (i : ℕ)
        (p : MeantPackage) → AreFindingsBy (by_paths declared) ps tables i (map entry_of report.now.diagnostics.items)
        → (HasNoWholeFault ps i → ArePackageReasons ps tables i p report.now.diagnostics.items reasons.entry)
        → HaveTheirNotes ps tables i p explained.sources.now explained.diagnostics.items) }
{
    let explaining = Explaining {
        elsewhere,
        sources: report.sources,
        reasons,
    };
    let diagnostics = explaining.explained(alloc, &report.diagnostics)?;
    let keeping = copied(alloc, &report.keeping)?;
    Ok(ExplainedPackage {
        path: report.path,
        sources: report.sources,
        keeping,
        diagnostics,
    })
}
