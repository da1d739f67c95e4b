//! The report of a package that is judged by itself, by what was kept of those that it imports.

ghost use Rattle.std.specs.Prelude.{◌≡◌, true, false, List, IfErr, IfOk, map, option_map, slice_get, string_bytes};
ghost use Rattle.std.specs.List.{AllZip};
ghost use Rattle.declared_json.specs.DeclaredPackages.{packages_of, PackageEntry};
ghost use Rattle.declared_tables.specs.DeclaredTables.{declared_tables};
ghost use Rattle.imports.specs.Views.{packages_view, text_views};
ghost use Rattle.unit_reports.specs.Units.{counts_so, name_if_any, name_or_empty, IsUnitFault, IsUnitReport};
ghost use Rattle.unit_reports.specs.UnitParts.{first_imports, is_named, named_among, package_in, told_by_read, IsGivenAlone, IsReadAs, IsReadOf, IsToldUnit, SaysByNear, SaysByRead};
ghost use Rattle.meaning_reports.specs.Loaded.{name_in};
ghost use Rattle.given_packages.specs.Neighbours.{nearby_view};
ghost use Rattle.one_package.specs.Results.{KnowsAll};
ghost use Rattle.tree.specs.View.{file_syntax};
ghost use Rattle.vetx_json.specs.KeptUnits.{vetx_of};
ghost use Rattle.whole_packages.specs.WholeEntries.{is_set};

use accepting::{explained_package, plain_package};
use declared_json::DeclaredPackages;
use declared_tables::{DeclaredTables, PackageTable};
use explanations::explain_unit;
use given_packages::{Given, ImportedPackage, Neighbours, ToldNeighbours, given_packages};
use imports::ImportList;
use one_package::{Alone, ByPaths, Judged, Judges, KnownImports, is_yes, judge_beside};
use std::alloc::{AllocError, Global};
use std::slice::from_ref;
use told_reports::{UnitForm, unit_text};
use tree::File;
use vetx_json::{KeptFunction, Vetx};
use vetx_tables::{KeptFault, kept_functions, table_again};
use whole_packages::LoadedPackage;

/// The number of the second edition.
const SECOND: u32 = 2;

/// What a package that is judged by itself is told of one that it imports: what was kept of that when it was judged.
#[derive(Clone, Copy)]
pub struct ImportedUnit<'a> {
    /// The path by which it is imported.
    pub path: &'a str,
    pub vetx: &'a Vetx,
}

/// The report of a package that is judged by itself, and what is to be kept of it for those that import it.
#[derive(Drop)]
pub struct UnitReport {
    pub text: Vec<u8>,
    /// Whether nothing is to be said of it.
    pub is_yes: bool,
    /// Whether it has a fault as a whole.
    pub has_whole_fault: bool,
    /// The name in its package clause; empty where no file has a tree.
    pub name: String,
    /// Its functions, in the order of their names.
    pub functions: Vec<KeptFunction>,
    /// The fields in which it keeps cancel functions, if it is yes: for notes alone.
    pub keeping: Vec<String>,
}

/// What is told of an imported package, with the table that is made of it.
#[derive(Drop)]
struct ReadImport<'a> {
    imported: ImportedPackage<'a>,
    table: PackageTable<'a>,
    is_yes: bool,
}

/// The paths that a package imports, and what is told of those of them that are given.
#[derive(Drop)]
struct ReadImports<'a> {
    paths: Vec<&'a str>,
    read: Vec<ReadImport<'a>>,
}

/// A package that was judged by itself, and its findings in some form.
#[derive(Drop)]
struct ToldUnit<'a> {
    judged: Judged<'a>,
    text: Vec<u8>,
}

/// The name, if it is not empty.
fn name_if_any(name: &str) -> Option<&str>
    ensures { option_map (λ found. found.now) result ≡ name_if_any name.now }
{
    if name.is_empty() { None } else { Some(name) }
}

/// Whether the package counts as given of which this was kept: by the second edition only without a fault as a whole.
fn counts(vetx: &Vetx) -> bool
    ensures { result ≡ counts_so (vetx_of vetx.now) }
{
    !(vetx.has_whole_fault && vetx.edition == SECOND)
}

/// Reads what was kept of an imported package that counts as given.
fn read_counted<'a>(alloc: Global, one: &ImportedUnit<'a>) -> Result<ReadImport<'a>, AllocError>
    ensures { IfOk result (IsReadAs true one.now) }
{
    let vetx = one.vetx;
    Ok(ReadImport {
        imported: ImportedPackage {
            path: one.path,
            name: name_if_any(&vetx.name),
            is_counted: true,
        },
        table: table_again(alloc, &vetx.functions)?,
        is_yes: vetx.is_yes,
    })
}

/// Reads what was kept of an imported package that counts as not given: nothing is known of its functions.
fn read_passed_over<'a>(alloc: Global, one: &ImportedUnit<'a>) -> Result<ReadImport<'a>, AllocError>
    ensures { IfOk result (IsReadAs false one.now) }
{
    Ok(ReadImport {
        imported: ImportedPackage {
            path: one.path,
            name: None,
            is_counted: false,
        },
        table: table_again(alloc, &[])?,
        is_yes: one.vetx.is_yes,
    })
}

/// Reads what was kept of an imported package.
fn read_import<'a>(alloc: Global, one: &ImportedUnit<'a>) -> Result<ReadImport<'a>, AllocError>
    ensures { IfOk result (IsReadOf one.now) }
{
    if counts(one.vetx) {
        read_counted(alloc, one)
    } else {
        read_passed_over(alloc, one)
    }
}

fn is_named(paths: &[&str], path: &str) -> bool
    ensures { result ≡ is_named (text_views paths.now) path.now }
{
    for one in paths {
        if *one == path {
            return true;
        }
    }
    false
}

/// Reads what was kept of the packages of these paths.
fn read_imports<'a>(
    alloc: Global,
    told: &[ImportedUnit<'a>],
    paths: &[&'a str],
) -> Result<Vec<ReadImport<'a>>, AllocError>
    ensures { IfOk result (λ read. AllZip IsReadOf (named_among (text_views paths.now) told.now) read.items) }
{
    let mut read = Vec::new(alloc);
    for one in told {
        if is_named(paths, one.path) {
            read.push(read_import(alloc, one)?)?;
        }
    }
    Ok(read)
}

fn packages_in<'a>(
    alloc: Global,
    read: &[ReadImport<'a>],
) -> Result<Vec<ImportedPackage<'a>>, AllocError>
    ensures { IfOk result (λ packages. packages.items ≡ map package_in read.now) }
{
    let mut packages = Vec::new(alloc);
    for one in read {
        packages.push(one.imported)?;
    }
    Ok(packages)
}

/// What is known of the packages of these paths by what was read of them, and by what is declared of others.
fn known_imports<'a, 'k>(
    alloc: Global,
    near: Neighbours<'k, 'a>,
    paths: &[&'a str],
    read: &'k [ReadImport<'a>],
) -> Result<KnownImports<'a, 'k>, AllocError>
    ensures { IfOk result (KnowsAll (nearby_view near.entry) (text_views paths.now) (told_by_read read.now)) }
{
    let mut known = KnownImports::new(alloc);
    for one in read {
        known.add_told(one.imported.path, &one.table, one.is_yes)?;
    }
    known.add_others(near, paths)?;
    Ok(known)
}

/// The paths that the first of these packages imports.
fn paths_in<'a>(alloc: Global, lists: &[ImportList<'a>]) -> Result<Vec<&'a str>, AllocError>
    ensures { IfOk result (λ paths. text_views paths.items ≡ first_imports (packages_view lists.now)) }
{
    let mut paths = Vec::new(alloc);
    if let Some(list) = lists.first() {
        paths.extend_from_slice(&list.imports)?;
    }
    Ok(paths)
}

/// Whether the first of these is marked.
fn is_first_marked(marks: &[bool]) -> bool
    ensures { result ≡ is_set (slice_get marks.now 0) }
{
    match marks.first() {
        Some(mark) => *mark,
        None => false,
    }
}

/// Judges a package by what is near it, and by what is known of its imports, and tells its findings in this form.
fn judge_near<'a>(
    alloc: Global,
    loaded: &'a LoadedPackage,
    near: Neighbours<'_, 'a>,
    known: &KnownImports<'a, '_>,
    form: UnitForm<'_>,
) -> Result<ToldUnit<'a>, AllocError>
    ensures { IfOk result (SaysByNear form.entry loaded.now (nearby_view near.entry) known.now) }
{
    let by = Judges {
        rules: &ByPaths,
        hands: &Alone,
    };
    let judged = judge_beside(alloc, near, loaded, known, &by)?;
    if form.with_reasons {
        let explained = explain_unit(alloc, loaded, near, known, &judged)?;
        let found = explained_package(alloc, explained)?;
        let text = unit_text(alloc, form, found)?;
        Ok(ToldUnit { judged, text })
    } else {
        let found = plain_package(alloc, &judged.report)?;
        let text = unit_text(alloc, form, found)?;
        Ok(ToldUnit { judged, text })
    }
}

/// Judges a package by what was read of its imports, where this is declared of others.
fn judge_by_read<'a>(
    alloc: Global,
    loaded: &'a LoadedPackage,
    imports: &ReadImports<'a>,
    declared: &DeclaredTables<'a>,
    form: UnitForm<'_>,
) -> Result<ToldUnit<'a>, AllocError>
    ensures { IfOk result (SaysByRead form.entry loaded.now imports.now declared.now) }
{
    let imported = packages_in(alloc, &imports.read)?;
    let around = ToldNeighbours::of(alloc, &imported)?;
    let near = around.beside(declared);
    let known = known_imports(alloc, near, &imports.paths, &imports.read)?;
    judge_near(alloc, loaded, near, &known, form)
}

/// The name in the package clause of the first of these files; the empty text where there is none.
fn name_of(alloc: Global, trees: &[File]) -> Result<String, AllocError>
    ensures { IfOk result (λ name. string_bytes name ≡ name_or_empty (name_in (map file_syntax trees.now))) }
{
    match trees.first() {
        Some(tree) => String::from_str(alloc, tree.package_name.text.as_str()),
        None => Ok(String::new(alloc)),
    }
}

/// What is read of the packages that the first of these imports.
fn read_unit<'a>(
    alloc: Global,
    told: &[ImportedUnit<'a>],
    lists: &[ImportList<'a>],
) -> Result<ReadImports<'a>, AllocError>
    ensures paths { IfOk result (λ imports. text_views imports.paths.items ≡ first_imports (packages_view lists.now)) }
    ensures read { IfOk result (λ imports.
        AllZip IsReadOf (named_among (text_views imports.paths.items) told.now) imports.read.items) }
{
    let paths = paths_in(alloc, lists)?;
    let read = read_imports(alloc, told, &paths)?;
    Ok(ReadImports { paths, read })
}

/// These texts, each with memory of its own.
fn own_texts(alloc: Global, texts: &[&str]) -> Result<Vec<String>, AllocError> {
    let mut own = Vec::new(alloc);
    for text in texts {
        own.push(String::from_str(alloc, text)?)?;
    }
    Ok(own)
}

/// Judges a package by what was kept of those that it imports, beside what is known of it as given alone.
fn judge_given<'a>(
    alloc: Global,
    loaded: &'a LoadedPackage,
    told: &[ImportedUnit<'a>],
    given: &Given<'a>,
    form: UnitForm<'_>,
) -> Result<ToldUnit<'a>, AllocError>
    ensures { IfOk result (λ unit. (outside : List PackageEntry)
        → IsGivenAlone (declared_tables outside) loaded.now given.now
        → IsToldUnit form.entry outside told.now loaded.now unit) }
{
    let imports = read_unit(alloc, told, &given.lists)?;
    judge_by_read(alloc, loaded, &imports, &given.declared, form)
}

/// The report of this package by what was kept of those that it imports, in this form, where that is declared of
/// others; and what is to be kept of it in turn. What is told of packages that it does not import plays no part.
///
/// # Errors
///
/// A number of one of its functions is not below 2^32, or memory was refused.
pub fn unit_report_of<'a>(
    alloc: Global,
    loaded: &'a LoadedPackage,
    told: &[ImportedUnit<'a>],
    outside: &'a DeclaredPackages,
    form: UnitForm<'_>,
) -> Result<UnitReport, KeptFault>
    ensures report { IfOk result (IsUnitReport form.entry (packages_of outside.now) told.now loaded.now) }
    ensures fault { IfErr result (IsUnitFault (packages_of outside.now) told.now loaded.now) }
{
    let given = given_packages(alloc, from_ref(loaded), outside)?;
    let unit = judge_given(alloc, loaded, told, &given, form)?;
    let has_whole_fault = is_first_marked(&given.faulty);
    let is_yes = is_yes(&unit.judged.report);
    let name = name_of(alloc, &loaded.trees)?;
    let keeping = own_texts(alloc, &unit.judged.report.keeping)?;
    let functions = kept_functions(alloc, loaded, &unit.judged)?;
    Ok(UnitReport {
        text: unit.text,
        is_yes,
        has_whole_fault,
        name,
        functions,
        keeping,
    })
}
