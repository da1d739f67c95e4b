//! By what the diagnostics of a package are explained: the package is told of once more.

ghost use Rattle.std.specs.Prelude.{◌≡◌, ◌||◌, ℕ, IfOk, List, Some, slice_get};
ghost use Rattle.explanations.specs.Found.{any_of_path};
ghost use Rattle.explanations.specs.KeptUses.{any_of_use};
ghost use Rattle.explanations.specs.PackageReasons.{ArePackageReasons};
ghost use Rattle.explanations.specs.Right.{AreJudgedBy};
ghost use Rattle.meaning_reports.specs.Loaded.{LoadedPackage as MeantPackage, Tables};
ghost use Rattle.meaning_reports.specs.WholeFaults.{HasNoWholeFault};
ghost use Rattle.given_packages.specs.Given.{TellsGiven};
ghost use Rattle.one_package.specs.Judgments.{TellsAround};
ghost use Rattle.whole_packages.specs.LoadedViews.{HaveDistinctPaths, TellsPackage};

use crate::asked::any_asked;
use crate::known::known_imports;
use crate::notes::{AllJudged, Reasons};
use crate::told_reasons::{Telling, no_reasons, told_reasons};
use crate::way_of::any_of_path;
use names::names_of;
use one_package::{Alone, Around, Tellers, around, tell_package};
use report::Diagnostic;
use std::alloc::{AllocError, Global};
use whole_packages::LoadedPackage;

/// Whether one of these diagnostics is explained by something in files.
fn asks_for_files(diagnostics: &[Diagnostic<'_>]) -> bool
    ensures { result ≡ (any_of_path diagnostics.now || any_of_use diagnostics.now) }
{
    any_of_path(diagnostics) || any_asked(diagnostics)
}

/// By what these diagnostics of a package are explained that has no fault as a whole: it is told of once more, of the
/// files in which something may be found.
///
/// # Errors
///
/// Memory was refused.
fn reasons_around<'a>(
    alloc: Global,
    loaded: &'a LoadedPackage,
    around: Around<'_, 'a>,
    diagnostics: &[Diagnostic<'a>],
) -> Result<Reasons<'a>, AllocError>
    ensures { IfOk result (λ reasons. (ps : List MeantPackage) (tables : Tables) (i : ℕ) (p : MeantPackage)
        → slice_get ps i ≡ Some p → TellsPackage p loaded.now → TellsAround ps tables p around.entry
        → HasNoWholeFault ps i
        → ArePackageReasons ps tables i p diagnostics.now reasons) }
{
    let names = names_of(alloc, &loaded.trees, around.names)?;
    let tellers = Tellers {
        hands: &Alone,
        tells_all: false,
    };
    let told = tell_package(alloc, loaded, &names, around, &tellers)?;
    let telling = Telling {
        loaded,
        names: &names,
        told: &told,
        around,
    };
    told_reasons(alloc, telling, diagnostics)
}

/// By what these diagnostics of a package that was judged by itself are explained, where this is known around it.
///
/// # Errors
///
/// Memory was refused.
pub fn unit_reasons<'a>(
    alloc: Global,
    loaded: &'a LoadedPackage,
    around: Around<'_, 'a>,
    diagnostics: &[Diagnostic<'a>],
) -> Result<Reasons<'a>, AllocError>
    ensures { IfOk result (λ reasons. (ps : List MeantPackage) (tables : Tables) (i : ℕ) (p : MeantPackage)
        → slice_get ps i ≡ Some p → TellsPackage p loaded.now → TellsAround ps tables p around.entry
        → HasNoWholeFault ps i
        → ArePackageReasons ps tables i p diagnostics.now reasons) }
{
    if !asks_for_files(diagnostics) {
        return Ok(no_reasons(alloc));
    }
    reasons_around(alloc, loaded, around, diagnostics)
}

/// By what these diagnostics of the package at that place are explained.
///
/// # Errors
///
/// Memory was refused.
pub fn package_reasons<'a>(
    alloc: Global,
    all: AllJudged<'_, 'a>,
    place: usize,
    diagnostics: &[Diagnostic<'a>],
) -> Result<Reasons<'a>, AllocError>
    ensures { IfOk result (λ reasons. (declared : Tables) (ps : List MeantPackage) (tables : Tables) (p : MeantPackage)
        → TellsGiven declared ps all.entry.given.now → HaveDistinctPaths ps
        → AreJudgedBy declared ps tables all.entry.judged.now
        → slice_get ps place ≡ Some p → HasNoWholeFault ps place
        → ArePackageReasons ps tables place p diagnostics.now reasons) }
{
    if !asks_for_files(diagnostics) {
        return Ok(no_reasons(alloc));
    }
    let (Some(loaded), Some(list), Some(places)) = (
        all.given.packages.get(place),
        all.given.lists.get(place),
        all.given.imports.get(place),
    ) else {
        return Ok(no_reasons(alloc));
    };
    let imports = known_imports(alloc, all.given, &list.imports, all.judged, places)?;
    reasons_around(alloc, loaded, around(all.given, &imports), diagnostics)
}
