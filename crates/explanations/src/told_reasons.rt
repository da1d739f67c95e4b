//! By what the diagnostics of a package that was told of are explained.

ghost use Rattle.std.specs.Prelude.{◌≡◌, ℕ, false, IfOk, List, Some, map, slice_get, true};
ghost use Rattle.explanations.specs.Found.{any_of_path};
ghost use Rattle.explanations.specs.KeptUses.{any_of_use, uses_view, HaveReasons};
ghost use Rattle.explanations.specs.PackageReasons.{ArePackageReasons};
ghost use Rattle.explanations.specs.ToldViews.{ways_view};
ghost use Rattle.explanations.specs.Ways.{ArePackageWays};
ghost use Rattle.meaning_reports.specs.Loaded.{LoadedPackage as MeantPackage, Tables, means_in};
ghost use Rattle.meaning_reports.specs.WholeFaults.{HasNoWholeFault};
ghost use Rattle.names.specs.Answers.{declared_at};
ghost use Rattle.one_package.specs.Judgments.{TellsAround};
ghost use Rattle.one_package.specs.ToldPackages.{IsToldPackage};
ghost use Rattle.report.specs.declared.diagnostics.Diagnostic.{Diagnostic as KeptDiagnostic};
ghost use Rattle.whole_packages.specs.LoadedViews.{TellsPackage};

use crate::asked::any_asked;
use crate::notes::Reasons;
use crate::told_uses::{FileUses, package_uses};
use crate::told_ways::package_ways;
use crate::way_of::any_of_path;
use body_ways::ToldFault;
use names::Names;
use one_package::{Around, ToldPackage};
use report::Diagnostic;
use std::alloc::{AllocError, Global};
use whole_packages::LoadedPackage;

/// A package that was told of once more, and what is known around it.
#[derive(Clone, Copy)]
pub struct Telling<'t, 'a> {
    pub loaded: &'a LoadedPackage,
    /// What its names mean.
    pub names: &'t Names<'a>,
    pub told: &'t ToldPackage<'a>,
    pub around: Around<'t, 'a>,
}

/// Nothing is explained by anything in files.
pub fn no_reasons<'a>(alloc: Global) -> Reasons<'a>
    ensures { (ps : List MeantPackage) (tables : Tables) (i : ℕ) (p : MeantPackage) (ds : List KeptDiagnostic)
        → any_of_path ds ≡ false → any_of_use ds ≡ false → ArePackageReasons ps tables i p ds result }
{
    Reasons {
        ways: Vec::new(alloc),
        uses: Vec::new(alloc),
    }
}

/// The faults of the paths of a package that was told of, if one of these diagnostics tells of one.
fn ways_for<'a>(
    alloc: Global,
    told: &ToldPackage<'a>,
    around: Around<'_, 'a>,
    diagnostics: &[Diagnostic<'a>],
) -> Result<Vec<Vec<ToldFault<'a>>>, AllocError>
    ensures { IfOk result (λ ways. (ps : List MeantPackage) (tables : Tables) (i : ℕ) (p : MeantPackage)
        → any_of_path diagnostics.now ≡ true
        → slice_get ps i ≡ Some p → TellsAround ps tables p around.entry → HasNoWholeFault ps i
        → IsToldPackage ps tables p false told.now
        → ArePackageWays ps tables i (ways_view ways.items)) }
{
    if any_of_path(diagnostics) {
        package_ways(alloc, told, around)
    } else {
        Ok(Vec::new(alloc))
    }
}

/// Why uses in the files of a package that was told of are told, if one of these diagnostics tells of one.
fn uses_for<'a>(
    alloc: Global,
    telling: Telling<'_, 'a>,
    diagnostics: &[Diagnostic<'a>],
) -> Result<Vec<FileUses<'a>>, AllocError>
    ensures { IfOk result (λ uses. (ps : List MeantPackage) (tables : Tables) (p : MeantPackage)
        → TellsPackage p telling.entry.loaded.now → TellsAround ps tables p telling.entry.around
        → ((file at : ℕ) → declared_at telling.entry.names.now file at ≡ means_in ps p file at)
        → IsToldPackage ps tables p false telling.entry.told.now
        → HaveReasons ps tables p diagnostics.now (map uses_view uses.items)) }
{
    if any_asked(diagnostics) {
        package_uses(alloc, telling, diagnostics)
    } else {
        Ok(Vec::new(alloc))
    }
}

/// By what these diagnostics of a package that was told of are explained.
///
/// # Errors
///
/// Memory was refused.
pub fn told_reasons<'a>(
    alloc: Global,
    telling: Telling<'_, 'a>,
    diagnostics: &[Diagnostic<'a>],
) -> Result<Reasons<'a>, AllocError>
    ensures { IfOk result (λ reasons. (ps : List MeantPackage) (tables : Tables) (i : ℕ) (p : MeantPackage)
        → slice_get ps i ≡ Some p → TellsPackage p telling.entry.loaded.now
        → TellsAround ps tables p telling.entry.around → HasNoWholeFault ps i
        → ((file at : ℕ) → declared_at telling.entry.names.now file at ≡ means_in ps p file at)
        → IsToldPackage ps tables p false telling.entry.told.now
        → ArePackageReasons ps tables i p diagnostics.now reasons) }
{
    let ways = ways_for(alloc, telling.told, telling.around, diagnostics)?;
    let uses = uses_for(alloc, telling, diagnostics)?;
    Ok(Reasons { ways, uses })
}
