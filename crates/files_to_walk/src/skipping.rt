//! Which files of a package are walked: those in which something may be found.

ghost use Rattle.std.specs.Prelude.{◌≡◌, ℕ, true, false, List, IfOk, Some, map, slice_get};
ghost use Rattle.std.specs.List.{list_any};
ghost use Rattle.std.specs.Str.{bytes_eq};
ghost use Rattle.meaning.specs.FunctionFacts.{errgroup_path};
ghost use Rattle.meaning.specs.OuterBlocks.{is_first_path, specs_of};
ghost use Rattle.meaning_reports.specs.Loaded.{LoadedPackage as MeantPackage, Tables, imported_signatures, imports_of, signatures_of};
ghost use Rattle.meaning_reports.specs.WholeFaults.{HasNoWholeFault};
ghost use Rattle.files_to_walk.specs.Signs.{may_give};
ghost use Rattle.files_to_walk.specs.Skipping.{AreQuiet, IsQuiet, IsQuietIn, NamesNoMaker};
ghost use Rattle.silent_files.specs.SilentPackages.{GiveNone};
ghost use Rattle.silent_files.specs.WalkedFiles.{is_walked, SkipsSilent};
ghost use Rattle.tree.specs.View.{file_syntax, import_spec_syntax, import_syntax};
ghost use Rattle.whole_packages.specs.LoadedViews.{TellsPackage};

use crate::signs::{Among, KnownSigns};
use crate::words::{may_name_telling, names_recover};
use lexer::Source;
use names::{CONTEXT, ERRGROUP};
use std::alloc::{AllocError, Global};
use tree::{File, ImportDecl, ImportSpec};
use whole_packages::LoadedPackage;

/// `context` and `errgroup`.
struct Tracked;

impl Among for Tracked {
    ghost among = { λ all. is_first_path };

    fn has(&self, path: &str) -> bool {
        path == CONTEXT || path == ERRGROUP
    }
}

/// `errgroup`.
struct Groups;

impl Among for Groups {
    ghost among = { λ all path. bytes_eq path errgroup_path };

    fn has(&self, path: &str) -> bool {
        path == ERRGROUP
    }
}

fn any_among<A: Among>(packages: &A, specs: &[ImportSpec]) -> bool
    ensures { result ≡ list_any (λ s. A.among packages.now s.path) (map import_spec_syntax specs.now) }
{
    for spec in specs {
        if packages.has(spec.path.as_str()) {
            return true;
        }
    }
    false
}

fn any_import<A: Among>(packages: &A, declarations: &[ImportDecl]) -> bool
    ensures { result ≡ list_any (λ s. A.among packages.now s.path) (specs_of (map import_syntax declarations.now)) }
{
    for declaration in declarations {
        if any_among(packages, &declaration.specs) {
            return true;
        }
    }
    false
}

/// Whether a file imports one of these packages.
fn imports_one<A: Among>(packages: &A, tree: &File) -> bool
    ensures { result ≡ list_any (λ s. A.among packages.now s.path) (imports_of (file_syntax tree.now)) }
{
    any_import(packages, &tree.imports)
}

/// Whether a file of that text may name a maker of cancel functions, or a type of these.
fn may_name_makers(tree: &File, source: &Source) -> bool
    ensures { result ≡ false → NamesNoMaker (file_syntax tree.now) source.now.bytes.items }
{
    imports_one(&Tracked, tree) && may_name_telling(source)
}

/// Whether nothing is to be found in a file of that text, as far as no function of its package gives a cancel function.
fn is_quiet(
    alloc: Global,
    tree: &File,
    source: &Source,
    known: &KnownSigns<'_>,
) -> Result<bool, AllocError>
    ensures { IfOk result (λ is. is ≡ true
        → IsQuiet (may_give known.now) (file_syntax tree.now) source.now.bytes.items) }
{
    if imports_one(&Groups, tree) {
        return Ok(false);
    }
    if imports_one(known, tree) {
        return Ok(false);
    }
    if may_name_makers(tree, source) {
        return Ok(false);
    }
    let recovers = names_recover(alloc, source)?;
    Ok(!recovers)
}

/// Whether the file of that number has to be walked: where its text isn't there, it has.
fn must_walk(
    alloc: Global,
    tree: &File,
    sources: &[Source],
    number: usize,
    known: &KnownSigns<'_>,
) -> Result<bool, AllocError>
    ensures { IfOk result (λ must. must ≡ false
        → IsQuietIn (may_give known.now) (file_syntax tree.now) (slice_get sources.now number)) }
{
    match sources.get(number) {
        Some(source) => {
            let quiet = is_quiet(alloc, tree, source, known)?;
            Ok(!quiet)
        }
        None => Ok(true),
    }
}

/// For each of these files of these texts, whether it has to be walked.
fn marks_of(
    alloc: Global,
    trees: &[File],
    sources: &[Source],
    known: &KnownSigns<'_>,
) -> Result<Vec<bool>, AllocError>
    ensures { IfOk result (λ marks. AreQuiet (may_give known.now) (map file_syntax trees.now) sources.now
        marks.items) }
{
    let mut marks = Vec::new(alloc);
    for (number, tree) in trees.iter().enumerate() {
        marks.push(must_walk(alloc, tree, sources, number, known)?)?;
    }
    Ok(marks)
}

/// A mark for each file of a package, by its number: whether it is walked. No marks, where all are.
///
/// # Errors
///
/// Memory was refused.
pub fn walked_files(
    alloc: Global,
    loaded: &LoadedPackage,
    known: &KnownSigns<'_>,
    all: bool,
) -> Result<Vec<bool>, AllocError>
    ensures skip { IfOk result (λ walked. (ps : List MeantPackage) (tables : Tables) (i : ℕ) (p : MeantPackage)
        → slice_get ps i ≡ Some p → TellsPackage p loaded.now → HasNoWholeFault ps i
        → (all ≡ false → GiveNone (signatures_of ps p))
        → ((path : List ℕ) → may_give known.now path ≡ false → GiveNone (imported_signatures p tables path))
        → SkipsSilent ps tables p (is_walked walked.items)) }
    ensures all { IfOk result (λ walked. all ≡ true → (n : ℕ) → is_walked walked.items n ≡ true) }
{
    if all {
        return Ok(Vec::new(alloc));
    }
    marks_of(alloc, &loaded.trees, &loaded.sources, known)
}
