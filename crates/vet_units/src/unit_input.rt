//! What is read for a unit.

ghost use Rattle.std.specs.Prelude.{◌≡◌, Contains, IfErr, IfOk, map, string_bytes};
ghost use Rattle.command_line.specs.Words.{edition_number};
ghost use Rattle.folders.specs.ReadFaults.{IsReadFaultOf};
ghost use Rattle.folders.specs.UnitFiles.{picked_files};
ghost use Rattle.unit_config.specs.UnitValues.{unit_of};
ghost use Rattle.load.specs.MeantPaths.{meant_of};
ghost use Rattle.vet_units.specs.UnitsRead.{digest_for, edition_of_unit, knows_library, means, meant_path_of, AreFilesFor, AreMeantBy, IsInputFaultOf, IsInputOf, IsPackageOf};

use crate::digests::facts_digest;
use crate::flag_files::FlagFiles;
use command_line::UnitFlags;
use declared_json::DeclaredPackages;
use folders::{Fault, ReadFile, module_above, picked_files, read_files};
use inputs::{BaselineRead, edition_or, known_beside_paths};
use library_facts::declared_among;
use load::{GivenPackage, MeantImport};
use std::alloc::{AllocError, Global};
use std::rt::Files;
use tree::Edition;
use unit_config::Unit;
use unit_reading::{JudgedBy, ToldImport, read_told, without_suffix};

/// What was read for a unit: the file of declared facts, if one is named, what is known of other packages, and the
/// digest of that; the findings of an earlier run; what is kept of imported packages; the path of its module; and
/// its package.
#[derive(Drop)]
pub struct UnitInput<'u> {
    pub facts: Option<ReadFile<'u>>,
    pub outside: DeclaredPackages,
    /// Empty where no file of declared facts is named, and nothing is known of Go's library.
    pub digest: String,
    pub baseline: BaselineRead<'u>,
    pub told: Vec<ToldImport<'u>>,
    /// Empty where the unit is in no module.
    pub module_path: String,
    pub given: GivenPackage,
    /// Whether something is declared of the package itself that is passed over.
    pub passes_over: bool,
}

/// Reads what the unit names, by these flags, of whose files this was read: what is kept of imported packages; the path
/// of its module; and its files. Unless an edition is asked for, the package is judged by the second one.
///
/// # Errors
///
/// One of these can't be read; nothing is kept in the file of an imported package, or another package is, or one that
/// was judged otherwise; or memory was refused. It is the first of these.
pub fn read_unit_input<'u, R: Files + AllocGlobal>(
    rt: &R,
    flags: &UnitFlags<'_>,
    unit: &'u Unit,
    files: FlagFiles<'u>,
) -> Result<UnitInput<'u>, Fault>
    requires { AreFilesFor flags.now files }
    ensures read { IfOk result (IsInputOf flags.now (unit_of unit.now)) }
    ensures fault { IfErr result (IsInputFaultOf flags.now (unit_of unit.now)) }
{
    let FlagFiles {
        facts,
        declared,
        baseline,
    } = files;
    let digest = digest_for(rt.alloc(), flags, &facts)?;
    let edition = edition_or(Edition::Second, flags.edition);
    let by = JudgedBy {
        edition: number_of(edition),
        digest: digest.as_str(),
    };
    let told = read_told(rt, unit, by)?;
    let module_path = module_above(rt, unit.folder.as_str())?;
    let given = read_package(rt, flags, edition, unit)?;
    let own = without_suffix(unit.path.as_str());
    let passes_over = is_passed_over(rt.alloc(), edition, &declared, own)?;
    let outside = known_beside_paths(rt.alloc(), edition, flags.without_library, declared, &[own])?;
    Ok(UnitInput {
        facts,
        outside,
        digest,
        baseline,
        told,
        module_path,
        given,
        passes_over,
    })
}

/// Whether something is declared of the package of this path that is passed over where it is judged.
fn is_passed_over(
    alloc: Global,
    edition: Edition,
    declared: &DeclaredPackages,
    own: &str,
) -> Result<bool, AllocError> {
    match edition {
        Edition::First => Ok(false),
        Edition::Second => Ok(!declared_among(alloc, declared, &[own])?.is_empty()),
    }
}

/// Whether something is known of Go's library.
fn knows_library(edition: Edition, without_library: bool) -> bool
    ensures { result ≡ knows_library edition without_library }
{
    match edition {
        Edition::First => false,
        Edition::Second => !without_library,
    }
}

/// The digest of the facts beside which the unit is judged, by these flags.
fn digest_for(
    alloc: Global,
    flags: &UnitFlags<'_>,
    file: &Option<ReadFile<'_>>,
) -> Result<String, AllocError>
    ensures { IfOk result (λ text. string_bytes text ≡ digest_for flags.now file.now) }
{
    let edition = edition_or(Edition::Second, flags.edition);
    facts_digest(alloc, knows_library(edition, flags.without_library), file)
}

/// The number of an edition.
pub fn number_of(edition: Edition) -> u32
    ensures { result ≡ edition_number edition }
{
    match edition {
        Edition::First => 1,
        Edition::Second => 2,
    }
}

/// What the import path means to the files of the unit.
fn meant_by<'u>(unit: &'u Unit, path: &'u str) -> &'u str
    ensures { result.now ≡ means (unit_of unit.now) path.now }
{
    match unit.imports.get(path) {
        Some(meant) => without_suffix(meant),
        None => path,
    }
}

/// The same of one path, with memory of its own.
fn meant_import(alloc: Global, unit: &Unit, path: &str) -> Result<MeantImport, AllocError>
    ensures { IfOk result (λ import. meant_of import ≡ meant_path_of (unit_of unit.now) path.now) }
{
    Ok(MeantImport {
        written: String::from_str(alloc, path)?,
        meant: String::from_str(alloc, meant_by(unit, path))?,
    })
}

/// What the import paths mean of which the go command says something.
fn meant_imports(alloc: Global, unit: &Unit) -> Result<Vec<MeantImport>, AllocError>
    ensures { IfOk result (λ imports. AreMeantBy (unit_of unit.now) (map meant_of imports.items)) }
{
    let paths = unit.imports.keys(alloc)?;
    let mut imports = Vec::new(alloc);
    for path in &paths {
        imports.push(meant_import(alloc, unit, *path)?)?;
    }
    Ok(imports)
}

/// The package of the unit with its files, to be judged by this edition, and what the paths of their imports mean.
fn read_package<R: Files + AllocGlobal>(
    rt: &R,
    flags: &UnitFlags<'_>,
    edition: Edition,
    unit: &Unit,
) -> Result<GivenPackage, Fault>
    ensures read { edition ≡ edition_of_unit flags.now → IfOk result (IsPackageOf flags.now (unit_of unit.now)) }
    ensures fault { IfErr result (IsReadFaultOf
        (Contains (picked_files flags.now.with_tests (unit_of unit.now).folder (unit_of unit.now).files))) }
{
    let files = picked_files(
        rt.alloc(),
        unit.folder.as_str(),
        &unit.files,
        flags.with_tests,
    )?;
    let sources = read_files(rt, files)?;
    let path = without_suffix(unit.path.as_str());
    Ok(GivenPackage {
        path: String::from_str(rt.alloc(), path)?,
        edition,
        sources,
        imports: meant_imports(rt.alloc(), unit)?,
    })
}
