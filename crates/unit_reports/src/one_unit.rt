//! The report of one package that is given by the bytes of its files, and judged by itself.

ghost use Rattle.std.specs.Prelude.{◌≡◌, [], ◌∷◌, IfErr, IfOk};
ghost use Rattle.declared_json.specs.DeclaredPackages.{packages_of};
ghost use Rattle.unit_reports.specs.OneUnit.{fault_of, IsReportOfUnit, IsUnitReportFault};
ghost use Rattle.unit_reports.specs.Units.{IsUnitFault, IsUnitReport};
ghost use Rattle.whole_packages.specs.declared.loaded_package.LoadedPackage.{LoadedPackage as KeptPackage};

use crate::units::{ImportedUnit, UnitReport, unit_report_of};
use declared_json::DeclaredPackages;
use load::{GivenPackage, Leave, LoadFault, Loaded, load_beside};
use std::alloc::{AllocError, Global};
use told_reports::UnitForm;
use vetx_tables::KeptFault;
use whole_packages::LoadedPackage;

/// Why a package that is judged by itself has no report.
#[derive(Debug, Drop)]
pub enum UnitReportFault {
    /// It is not loaded.
    NotLoaded(LoadFault),
    /// A number of one of its functions is not below 2^32, which none of a file of at most 1 MiB is.
    TooLarge,
    /// It is loaded, and memory was refused when it was judged.
    OutOfMemory,
}

/// Why a package that is loaded has none.
fn fault_of(fault: KeptFault) -> UnitReportFault
    ensures { result ≡ fault_of fault }
{
    match fault {
        KeptFault::TooLarge => UnitReportFault::TooLarge,
        KeptFault::OutOfMemory => UnitReportFault::OutOfMemory,
    }
}

/// This package as all that are loaded.
fn only(alloc: Global, given: GivenPackage) -> Result<Vec<GivenPackage>, AllocError>
    ensures { IfOk result (λ all. all.items ≡ given ∷ []) }
{
    let mut all = Vec::new(alloc);
    all.push(given)?;
    Ok(all)
}

/// The report of the only one of these packages.
fn only_report(
    alloc: Global,
    packages: &[LoadedPackage],
    told: &[ImportedUnit<'_>],
    outside: &DeclaredPackages,
    form: UnitForm<'_>,
) -> Result<UnitReport, KeptFault>
    ensures report { IfOk result (λ report. (kept : KeptPackage) → packages.now ≡ kept ∷ []
        → IsUnitReport form.entry (packages_of outside.now) told.now kept report) }
    ensures fault { IfErr result (λ fault. (kept : KeptPackage) → packages.now ≡ kept ∷ []
        → IsUnitFault (packages_of outside.now) told.now kept fault) }
{
    match packages.first() {
        Some(one) => unit_report_of(alloc, one, told, outside, form),
        None => Err(KeptFault::OutOfMemory),
    }
}

/// The same, where `L` says what becomes of them then.
fn unit_report_loaded<L: Leave>(
    alloc: Global,
    loaded: Loaded,
    told: &[ImportedUnit<'_>],
    form: UnitForm<'_>,
) -> Result<UnitReport, KeptFault>
    ensures report { IfOk result (λ report. (kept : KeptPackage) → loaded.packages.items ≡ kept ∷ []
        → IsUnitReport form.entry (packages_of loaded.outside) told.now kept report) }
    ensures fault { IfErr result (λ fault. (kept : KeptPackage) → loaded.packages.items ≡ kept ∷ []
        → IsUnitFault (packages_of loaded.outside) told.now kept fault) }
{
    let report = only_report(alloc, &loaded.packages, told, &loaded.outside, form);
    L::leave(loaded);
    report
}

/// The report of this package by what was kept of those that it imports, in this form, where that is declared of
/// others; and what is to be kept of it in turn. What is told of packages that it does not import plays no part. What
/// becomes of the package, once it was judged, `L` says.
///
/// # Errors
///
/// The package is not loaded: it has more than 4,294,967,295 files, or something is declared of it. After these faults,
/// a number of one of its functions is not below 2^32; or memory was refused.
pub fn report_of_unit<L: Leave>(
    alloc: Global,
    given: GivenPackage,
    told: &[ImportedUnit<'_>],
    outside: DeclaredPackages,
    form: UnitForm<'_>,
) -> Result<UnitReport, UnitReportFault>
    ensures report { IfOk result (IsReportOfUnit form.entry (packages_of outside) told.now given) }
    ensures fault { IfErr result (IsUnitReportFault (packages_of outside) told.now given) }
{
    let all = match only(alloc, given) {
        Ok(all) => all,
        Err(_) => return Err(UnitReportFault::OutOfMemory),
    };
    let loaded = match load_beside(alloc, all, outside) {
        Ok(loaded) => loaded,
        Err(fault) => return Err(UnitReportFault::NotLoaded(fault)),
    };
    match unit_report_loaded::<L>(alloc, loaded, told, form) {
        Ok(report) => Ok(report),
        Err(fault) => Err(fault_of(fault)),
    }
}
