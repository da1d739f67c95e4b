//! One package.

ghost use Rattle.std.specs.Prelude.{◌≡◌, ◌↔◌, ℕ, Bool, List, [], IfOk, Some, map, slice_get, Contains, string_bytes};
ghost use Rattle.std.specs.List.{AllPairs};
ghost use Rattle.one_package.specs.Certified.{certificates_in, HasCertificates};
ghost use Rattle.one_package.specs.Judgments.{IsJudgment, IsWholeOnly, PicksNotYes, TellsAround, TellsSources};
ghost use Rattle.one_package.specs.ToldPackages.{IsMarked, IsToldPackage, IsFoundPackage};
ghost use Rattle.meaning_reports.specs.PackageReports.{AreFieldsToTell};
ghost use Rattle.called_parameters.specs.Called.{is_called};
ghost use Rattle.certificate_json.specs.Certificates.{body_of};
ghost use Rattle.whole_packages.specs.LoadedViews.{TellsPackage};
ghost use Rattle.report.specs.Entries.{Entry, Precedes, entry_of, texts_of};
ghost use Rattle.meaning_reports.specs.Loaded.{LoadedPackage as MeantPackage, Tables};
ghost use Rattle.meaning_reports.specs.WholeFaults.{HasNoWholeFault};

use crate::dots::add_left_out;
use crate::file_rules::{FileRules, FoundFiles, Judges};
use crate::grounds::{Grounds, find_grounds};
use crate::hands::Hands;
use crate::known_imports::NotYes;
use crate::needed::Needed;
use crate::told_package::{Tellers, ToldPackage};
use called_parameters::{Called, ImportedCalls};
use certificate_json::Body;
use declared_tables::PackageTable;
use facts::{Imported, Table};
use files_to_walk::KnownSigns;
use findings::fields_to_tell;
use names::PackageNames;
use report::{Diagnostic, DiagnosticCode, PackageReport, in_order};
use std::alloc::{AllocError, Global};
use whole_packages::{LoadedPackage, Marked, add_imports, numbered_trees};

/// What is known of the packages around the one that is judged.
#[derive(Clone, Copy)]
pub struct Around<'k, 'a> {
    /// The names of the given packages.
    pub names: &'k PackageNames<'a>,
    /// What the signatures of its imports' functions say.
    pub signatures: &'k Imported<'a, 'k>,
    /// Which of their parameters its imports' functions are known to call.
    pub calls: &'k ImportedCalls<'a, 'k>,
    /// What else is known of the functions of its imports.
    pub signs: &'k KnownSigns<'a>,
    /// The given packages that have no rank.
    pub unranked: Marked<'k, 'a>,
    /// Those that count as given.
    pub counted: Marked<'k, 'a>,
    /// Its imports that are not yes.
    pub not_yes: &'k NotYes<'a>,
}

/// What is to be said of a package, in no order, and which of their parameters its functions are known to call.
#[derive(Drop)]
struct FoundPackage<'a> {
    diagnostics: Vec<Diagnostic<'a>>,
    called: Called<'a>,
    certificates: Vec<Body>,
}

/// What is said of a package, and what is known of its functions.
#[derive(Drop)]
pub struct Judged<'a> {
    pub report: PackageReport<'a>,
    pub table: PackageTable<'a>,
    /// Certificates of its bodies, by rules that make some.
    pub certificates: Vec<Body>,
}

/// The report of a package of which this was found, and whose verdict tells of these fields.
fn report_of<'a>(
    loaded: &'a LoadedPackage,
    found: Vec<Diagnostic<'a>>,
    keeping: Vec<&'a str>,
) -> PackageReport<'a>
    ensures path { result.path.now ≡ string_bytes loaded.now.path }
    ensures sources { result.sources.now ≡ loaded.now.sources.items }
    ensures keeping { result.keeping.items ≡ keeping.entry.items }
    ensures sorted { AllPairs Precedes (map entry_of result.diagnostics.items) }
    ensures same { (x : Entry)
        → Contains (map entry_of result.diagnostics.items) x ↔ Contains (map entry_of found.entry.items) x }
{
    PackageReport {
        path: loaded.path.as_str(),
        sources: &loaded.sources,
        keeping,
        diagnostics: in_order(found),
    }
}

/// The fields of which the verdict of a package tells, of which this was told and found: of none where there is
/// something to say of it.
fn told_fields<'a>(
    alloc: Global,
    told: &ToldPackage<'a>,
    found: &[Diagnostic<'a>],
) -> Result<Vec<&'a str>, AllocError>
    ensures { IfOk result (λ fields. (ps : List MeantPackage) (tables : Tables) (p : MeantPackage) (all : Bool)
        → IsToldPackage ps tables p all told.now
        → AreFieldsToTell ps tables p (map entry_of found.now) (texts_of fields.items)) }
{
    if found.is_empty() {
        fields_to_tell(alloc, &told.files)
    } else {
        Ok(Vec::new(alloc))
    }
}

/// A package of which nothing is to be said but these faults, and of whose functions nothing is known.
fn whole_only<'a>(
    alloc: Global,
    loaded: &'a LoadedPackage,
    faults: Vec<Diagnostic<'a>>,
) -> Judged<'a>
    ensures only { IsWholeOnly (map entry_of faults.entry.items) result }
    ensures told { TellsSources loaded.now result }
    ensures certified { certificates_in result ≡ [] }
{
    Judged {
        report: report_of(loaded, faults, Vec::new(alloc)),
        table: PackageTable {
            signatures: Table::new(alloc),
            called: Called::new(alloc),
            gives: false,
            is_told: false,
        },
        certificates: Vec::new(alloc),
    }
}

/// Finds what is to be said of a package that has no fault as a whole and was told of, and which of their parameters
/// its functions are known to call.
fn find_in_package<'a, R: FileRules, H: Hands>(
    alloc: Global,
    loaded: &'a LoadedPackage,
    told: &ToldPackage<'a>,
    around: Around<'_, 'a>,
    by: &Judges<'_, R, H>,
) -> Result<FoundPackage<'a>, H::Fault>
    ensures found { IfOk result (λ found. (declared : Tables) (ps : List MeantPackage) (tables : Tables) (i : ℕ)
        (p : MeantPackage) → slice_get ps i ≡ Some p → TellsPackage p loaded.now → TellsAround ps tables p around.entry
        → PicksNotYes (R.rules by.now.rules.now declared) ps tables i around.entry
        → IsToldPackage ps tables p (R.tells_all by.now.rules.now) told.now
        → HasNoWholeFault ps i
        → IsFoundPackage (R.rules by.now.rules.now declared) ps tables i p found) }
    ensures certified { IfOk result (λ found. (ps : List MeantPackage) (tables : Tables) (i : ℕ) (p : MeantPackage)
        → slice_get ps i ≡ Some p → TellsPackage p loaded.now → TellsAround ps tables p around.entry
        → IsToldPackage ps tables p (R.tells_all by.now.rules.now) told.now
        → HasNoWholeFault ps i
        → R.certificates by.now.rules.now ps tables p (is_called found.called)
        (map body_of found.certificates.items)) }
{
    let FoundFiles {
        mut diagnostics,
        called,
        certificates,
    } = by.rules.find(alloc, by.hands, loaded, told, around)?;
    let trees = numbered_trees(alloc, loaded)?;
    let needed = Needed {
        edition: loaded.edition,
        around,
        files: &told.files,
    };
    add_imports(
        &needed,
        DiagnosticCode::ImportIsNotYes,
        &trees,
        &mut diagnostics,
    )?;
    add_left_out(around, &trees, &mut diagnostics)?;
    Ok(FoundPackage {
        diagnostics,
        called,
        certificates,
    })
}

/// Judges a package that has no fault as a whole and was told of.
fn judge_told<'a, R: FileRules, H: Hands>(
    alloc: Global,
    loaded: &'a LoadedPackage,
    told: ToldPackage<'a>,
    around: Around<'_, 'a>,
    by: &Judges<'_, R, H>,
) -> Result<Judged<'a>, H::Fault>
    ensures told { IfOk result (λ judged. IsMarked told.entry → TellsSources loaded.now judged) }
    ensures judged { IfOk result (λ judged. (declared : Tables) (ps : List MeantPackage) (tables : Tables)
        (i : ℕ) (p : MeantPackage) → slice_get ps i ≡ Some p → TellsPackage p loaded.now
        → TellsAround ps tables p around.entry
        → PicksNotYes (R.rules by.now.rules.now declared) ps tables i around.entry
        → HasNoWholeFault ps i → IsToldPackage ps tables p (R.tells_all by.now.rules.now) told.entry
        → IsJudgment (R.rules by.now.rules.now declared) ps tables i p judged) }
    ensures certified { IfOk result (λ judged. (ps : List MeantPackage) (tables : Tables) (i : ℕ) (p : MeantPackage)
        → slice_get ps i ≡ Some p → TellsPackage p loaded.now → TellsAround ps tables p around.entry
        → HasNoWholeFault ps i → IsToldPackage ps tables p (R.tells_all by.now.rules.now) told.entry
        → HasCertificates (R.certificates by.now.rules.now) ps tables i p judged) }
{
    let FoundPackage {
        diagnostics,
        called,
        certificates,
    } = find_in_package(alloc, loaded, &told, around, by)?;
    let keeping = told_fields(alloc, &told, &diagnostics)?;
    let ToldPackage {
        signatures,
        gives,
        is_told,
        ..
    } = told;
    Ok(Judged {
        report: report_of(loaded, diagnostics, keeping),
        table: PackageTable {
            signatures,
            called,
            gives,
            is_told,
        },
        certificates,
    })
}

/// Judges a package.
///
/// # Errors
///
/// Memory was refused, or what else keeps these hands from it.
pub fn judge<'a, R: FileRules, H: Hands>(
    alloc: Global,
    loaded: &'a LoadedPackage,
    around: Around<'_, 'a>,
    by: &Judges<'_, R, H>,
) -> Result<Judged<'a>, H::Fault>
    ensures told { IfOk result (TellsSources loaded.now) }
    ensures judged { IfOk result (λ judged. (declared : Tables) (ps : List MeantPackage) (tables : Tables)
        (i : ℕ) (p : MeantPackage) → slice_get ps i ≡ Some p → TellsPackage p loaded.now
        → TellsAround ps tables p around.entry
        → (HasNoWholeFault ps i → PicksNotYes (R.rules by.now.rules.now declared) ps tables i around.entry)
        → IsJudgment (R.rules by.now.rules.now declared) ps tables i p judged) }
    ensures certified { IfOk result (λ judged. (ps : List MeantPackage) (tables : Tables) (i : ℕ) (p : MeantPackage)
        → slice_get ps i ≡ Some p → TellsPackage p loaded.now → TellsAround ps tables p around.entry
        → HasCertificates (R.certificates by.now.rules.now) ps tables i p judged) }
{
    let tellers = Tellers {
        hands: by.hands,
        tells_all: by.rules.tells_all(),
    };
    match find_grounds(alloc, loaded, around, &tellers)? {
        Grounds::WholeFaults(faults) => Ok(whole_only(alloc, loaded, faults)),
        Grounds::Told(told) => judge_told(alloc, loaded, told, around, by),
    }
}
