//! The report of a unit, and what is to be kept of it.

ghost use Rattle.std.specs.Prelude.{◌≡◌, IfErr, IfOk, map, string_bytes};
ghost use Rattle.unit_reports.specs.declared.one_unit.UnitReportFault.{UnitReportFault};
ghost use Rattle.unit_config.specs.UnitValues.{unit_of};
ghost use Rattle.vet_units.specs.JudgedUnits.{is_not_given, not_given, AreCounted, IsFormOf, IsShapeOf, IsJudgedSo};
ghost use Rattle.vet_units.specs.UnitRuns.{IsJudgingFault, IsToldAs};

use crate::unit_input::{UnitInput, number_of};
use baseline_json::BaselineFinding;
use command_line::{ReportWords, UnitFlags};
use folders::{Fault, escaped};
use inputs::{edition_or, fault_of_load, fixes_in, telling_of};
use load::Leave;
use report::Format;
use std::alloc::{AllocError, Global};
use std::slice::from_ref;
use suggested_fixes::Fix;
use tree::Edition;
use unit_config::Unit;
use unit_reading::{ToldImport, counts_in, without_suffix};
use unit_reports::{ImportedUnit, UnitForm, UnitReportFault, UnitShape, report_of_unit};
use vetx_json::Vetx;

/// The text of a unit's report, and what is to be kept of it; and for notes the fields in which a yes keeps cancel
/// functions, the imports that count as not given, and whether facts of its own package are passed over.
#[derive(Drop)]
pub struct JudgedUnit {
    pub text: Vec<u8>,
    pub kept: Vetx,
    pub keeping: Vec<String>,
    pub not_given: Vec<String>,
    pub passes_over: bool,
}

/// What the unit is told of the packages that it imports, in this module.
fn imports_in<'k>(
    alloc: Global,
    told: &'k [ToldImport<'k>],
    module_path: &str,
) -> Result<Vec<ImportedUnit<'k>>, AllocError>
    ensures { IfOk result (λ imports. AreCounted module_path.now told.now imports.items) }
{
    let mut imports = Vec::new(alloc);
    for one in told {
        if counts_in(module_path, one) {
            imports.push(ImportedUnit {
                path: one.kept.path.as_str(),
                vetx: &one.kept,
            })?;
        }
    }
    Ok(imports)
}

/// Whether the imported package counts as not given, in this module: by the second edition where it has a fault as a
/// whole.
fn is_not_given(module_path: &str, told: &ToldImport<'_>) -> bool
    ensures { result ≡ is_not_given module_path.now told.now }
{
    counts_in(module_path, told)
        && told.kept.has_whole_fault
        && told.kept.edition == number_of(Edition::Second)
}

/// The paths of imported packages that count as not given, in this module.
fn not_given(
    alloc: Global,
    told: &[ToldImport<'_>],
    module_path: &str,
) -> Result<Vec<String>, AllocError>
    ensures { IfOk result (λ paths. map string_bytes paths.items ≡ not_given module_path.now told.now) }
{
    let mut paths = Vec::new(alloc);
    for one in told {
        if is_not_given(module_path, one) {
            paths.push(String::from_str(alloc, one.kept.path.as_str())?)?;
        }
    }
    Ok(paths)
}

/// In which form the unit of this name is told, where these findings of an earlier run are accepted, and this may be
/// changed in its files.
fn form_of<'n>(
    flags: &UnitFlags<'_>,
    id: &'n str,
    known: &'n [BaselineFinding],
    fixes: &'n [Fix],
) -> UnitForm<'n>
    ensures { IsFormOf flags.now id.now known.now result }
{
    let words = ReportWords {
        format: Format::Text,
        accepted: flags.accepted,
        quiet: flags.quiet,
    };
    let edition = edition_or(Edition::Second, flags.edition);
    UnitForm {
        telling: telling_of(edition, words, true, known, &[], fixes),
        with_reasons: flags.with_reasons,
        shape: shape_of(flags, id),
    }
}

fn shape_of<'n>(flags: &UnitFlags<'_>, id: &'n str) -> UnitShape<'n>
    ensures { IsShapeOf flags.now id.now result }
{
    if flags.is_json {
        UnitShape::Json(id)
    } else {
        UnitShape::Text(flags.lines)
    }
}

/// Why the package of this path has no report, as the program tells it.
fn fault_of_package(alloc: Global, path: &str, why: UnitReportFault) -> Fault
    ensures { IsToldAs path.now why result }
{
    match why {
        UnitReportFault::NotLoaded(why) => fault_of_load(why),
        UnitReportFault::TooLarge => too_large(alloc, path),
        UnitReportFault::OutOfMemory => Fault::OutOfMemory,
    }
}

/// The fault of a function of the package of this path that is too large to be kept.
fn too_large(alloc: Global, path: &str) -> Fault
    ensures { IsToldAs path.now UnitReportFault.TooLarge result }
{
    match escaped(alloc, path) {
        Ok(path) => Fault::FunctionTooLarge(path),
        Err(_) => Fault::OutOfMemory,
    }
}

/// Judges the package of the unit by what was read for it. What is to be kept of it does not depend on how its report
/// is told, nor on whether anything is printed.
///
/// # Errors
///
/// Something is declared of the package itself; a number of one of its functions is not below 2^32; or memory was
/// refused.
pub fn judge_unit<L: Leave>(
    alloc: Global,
    flags: &UnitFlags<'_>,
    unit: &Unit,
    input: UnitInput<'_>,
) -> Result<JudgedUnit, Fault>
    ensures judged { IfOk result (IsJudgedSo flags.now (unit_of unit.now) input.entry) }
    ensures fault { IfErr result (IsJudgingFault (unit_of unit.now) input.entry) }
{
    let UnitInput {
        facts: _facts,
        outside,
        digest,
        baseline,
        told,
        module_path,
        given,
        passes_over,
    } = input;
    let imports = imports_in(alloc, &told, module_path.as_str())?;
    let path = String::from_str(alloc, without_suffix(unit.path.as_str()))?;
    let fixes = fixes_in(alloc, from_ref(&given))?;
    let form = form_of(flags, unit.id.as_str(), &baseline.findings, &fixes);
    let report = match report_of_unit::<L>(alloc, given, &imports, outside, form) {
        Ok(report) => report,
        Err(fault) => return Err(fault_of_package(alloc, path.as_str(), fault)),
    };
    let not_given = not_given(alloc, &told, module_path.as_str())?;
    Ok(JudgedUnit {
        text: report.text,
        kept: Vetx {
            edition: number_of(edition_or(Edition::Second, flags.edition)),
            facts: digest,
            path,
            name: report.name,
            module_path,
            has_whole_fault: report.has_whole_fault,
            is_yes: report.is_yes,
            functions: report.functions,
        },
        keeping: report.keeping,
        not_given,
        passes_over,
    })
}
