//! What is kept of the packages that a unit imports.

ghost use Rattle.std.specs.Prelude.{◌≡◌, ◌++◌, ℕ, List, IfErr, IfOk, OnOk, option_to_list};
ghost use Rattle.folders.specs.ReadFiles.{bytes_read, name_read};
ghost use Rattle.unit_config.specs.UnitValues.{unit_of};
ghost use Rattle.vetx_json.specs.KeptUnits.{vetx_of, IsInOrder};
ghost use Rattle.vetx_json.specs.VetxTexts.{IsVetxFault, IsVetxText};
ghost use Rattle.unit_reading.specs.ToldImports.{AreTold, IsKeptIn, IsReadOf, IsTextFault, IsToldFault, IsVetxBytesFault};

use folders::{Fault, ReadFile, escaped, read_file};
use std::alloc::{AllocError, Global};
use std::rt::Files;
use test_packages::without_suffix;
use unit_config::Unit;
use vetx_json::{Vetx, VetxFault, from_json};

/// An import of a unit, the file that tells of the package which it means, and what is kept in that.
#[derive(Drop)]
pub struct ToldImport<'u> {
    /// The import path as the files of the unit write it.
    pub import: &'u str,
    pub file: ReadFile<'u>,
    pub kept: Vetx,
}

/// How each imported package has to have been judged: by the edition of this number, beside declared facts with this
/// digest, or beside none, where that is empty.
#[derive(Clone, Copy)]
pub struct JudgedBy<'d> {
    pub edition: u32,
    pub digest: &'d str,
}

/// What is kept of the packages that the unit imports: of each import of whose package a file tells, in the order of
/// their bytes, each once.
///
/// # Errors
///
/// A file can't be read; it keeps nothing, or keeps another package, or one that was judged otherwise; or memory was
/// refused. It is the first of these.
pub fn read_told<'u, R: Files + AllocGlobal>(
    rt: &R,
    unit: &'u Unit,
    by: JudgedBy<'_>,
) -> Result<Vec<ToldImport<'u>>, Fault>
    ensures told { IfOk result (λ told. AreTold by.entry.edition by.entry.digest.now (unit_of unit.now) told.items) }
    ensures fault { IfErr result (IsToldFault by.entry.edition by.entry.digest.now (unit_of unit.now)) }
{
    let imports = unit.imports.keys(rt.alloc())?;
    let mut told = Vec::new(rt.alloc());
    for import in &imports {
        keep_told(&mut told, told_of(rt, unit, *import, by)?)?;
    }
    Ok(told)
}

/// Adds what is kept of an import, if something is.
fn keep_told<'u>(
    all: &mut Vec<ToldImport<'u>>,
    told: Option<ToldImport<'u>>,
) -> Result<(), AllocError>
    ensures { OnOk result (all.new.items ≡ all.old.items ++ option_to_list told.entry) }
{
    if let Some(told) = told {
        all.push(told)?;
    }
    Ok(())
}

/// What is kept of the package that the import means, where a file tells of it.
fn told_of<'u, R: Files + AllocGlobal>(
    rt: &R,
    unit: &'u Unit,
    import: &'u str,
    by: JudgedBy<'_>,
) -> Result<Option<ToldImport<'u>>, Fault>
    ensures told { IfOk result (IsReadOf by.entry.edition by.entry.digest.now (unit_of unit.now) import.now) }
    ensures fault { IfErr result (IsToldFault by.entry.edition by.entry.digest.now (unit_of unit.now)) }
{
    let Some(path) = unit.imports.get(import) else {
        return Ok(None);
    };
    let Some(name) = unit.told.get(path) else {
        return Ok(None);
    };
    let file = read_file(rt, name)?;
    let kept = kept_in(rt.alloc(), without_suffix(path), &file, by)?;
    Ok(Some(ToldImport { import, file, kept }))
}

/// What is kept in the file, of the package of this path.
fn kept_in(alloc: Global, path: &str, file: &ReadFile<'_>, by: JudgedBy<'_>) -> Result<Vetx, Fault>
    ensures kept { IfOk result
        (λ kept. IsKeptIn path.now by.entry.edition by.entry.digest.now (bytes_read file.now) (vetx_of kept)) }
    ensures fault { IfErr result
        (IsVetxBytesFault path.now by.entry.edition by.entry.digest.now (name_read file.now) (bytes_read file.now)) }
{
    let kept = vetx_in(alloc, file.name(), file.bytes())?;
    if kept.path.as_str() != path {
        return Err(Fault::VetxOfAnotherPackage(escaped(alloc, file.name())?));
    }
    if kept.edition != by.edition {
        return Err(Fault::VetxOfAnotherEdition(escaped(alloc, file.name())?));
    }
    if kept.facts.as_str() != by.digest {
        return Err(Fault::VetxOfOtherFacts(escaped(alloc, file.name())?));
    }
    Ok(kept)
}

/// What is kept in these bytes of the file of this name.
fn vetx_in(alloc: Global, name: &str, bytes: &[u8]) -> Result<Vetx, Fault>
    ensures kept { IfOk result (λ kept. IsVetxText bytes.now (vetx_of kept)) }
    ensures in_order { IfOk result (λ kept. IsInOrder (vetx_of kept)) }
    ensures fault { IfErr result (IsTextFault name.now bytes.now) }
{
    match str::from_utf8(bytes) {
        Ok(text) => match from_json(alloc, text) {
            Ok(kept) => Ok(kept),
            Err(fault) => Err(fault_of_vetx(alloc, name, fault)),
        },
        Err(_) => Err(Fault::VetxNotJson(escaped(alloc, name)?)),
    }
}

/// Why nothing is kept in the file of this name, as the program tells it.
fn fault_of_vetx(alloc: Global, name: &str, fault: VetxFault) -> Fault
    ensures { (bytes : List ℕ) → IsVetxFault bytes fault → IsTextFault name.now bytes result }
{
    let Ok(name) = escaped(alloc, name) else {
        return Fault::OutOfMemory;
    };
    match fault {
        VetxFault::NotJson => Fault::VetxNotJson(name),
        VetxFault::WrongShape => Fault::VetxWrongShape(name),
        VetxFault::WrongVersion => Fault::VetxWrongVersion(name),
        VetxFault::OutOfMemory => Fault::OutOfMemory,
    }
}
