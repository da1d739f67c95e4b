//! Where a reader is to look for the other part of a finding: in a package that is imported, or at another function.

ghost use Rattle.std.specs.Prelude.{◌≡◌, ◌==◌, IfOk, map, option_map};
ghost use Rattle.explanations.specs.Found.{shown};
ghost use Rattle.explanations.specs.Pointers.{finding_note, first_in, first_note, first_spot, is_meant, is_of_ring, ring_note, spot_view};
ghost use Rattle.tree.specs.View.{function_syntax, top_level_syntax};
ghost use Rattle.whole_packages.specs.LoadedViews.{kept_trees, numbered_view};

use names::can_be_meant;
use reasons::Pointer;
use report::{Diagnostic, DiagnosticCode, Note, NoteText, PackageReport};
use std::alloc::{AllocError, Global};
use tree::{Func, TopLevelDecl};
use whole_packages::{LoadedPackage, NumberedTree, numbered_trees};

/// The first finding of a package, at its place.
pub fn first_finding<'a>(report: &PackageReport<'a>) -> Option<Note<'a>>
    ensures { option_map shown result ≡ finding_note report.now }
{
    match report.diagnostics.first() {
        Some(first) => Some(Note {
            sources: report.sources,
            file: first.file,
            offset: first.offset,
            text: NoteText::Finding(first.code, first.name),
        }),
        None => None,
    }
}

/// Whether it tells of an import that has no rank, in a package that has none.
fn is_of_ring(diagnostic: Diagnostic<'_>) -> bool
    ensures { result ≡ is_of_ring diagnostic.entry }
{
    diagnostic.code.rank() == DiagnosticCode::ImportHasNoRank.rank()
}

/// The first import of a package that has no rank, where the package has none either.
pub fn on_the_ring<'a>(report: &PackageReport<'a>) -> Option<Note<'a>>
    ensures { option_map shown result ≡ ring_note report.now }
{
    for diagnostic in &report.diagnostics {
        if is_of_ring(*diagnostic) {
            return Some(Note {
                sources: report.sources,
                file: diagnostic.file,
                offset: diagnostic.offset,
                text: NoteText::Words(Pointer::OnTheRing.text()),
            });
        }
    }
    None
}

/// A place in the files of a package.
#[derive(Clone, Copy)]
struct Spot {
    file: usize,
    offset: u32,
}

/// Whether the name means this function.
fn is_meant(function: &Func, name: &str) -> bool
    ensures { result ≡ is_meant name.now (function_syntax function.now) }
{
    can_be_meant(function) && function.name.text.as_str() == name
}

/// The offset of the first function of that name among these declarations.
fn first_in(declarations: &[TopLevelDecl], name: &str) -> Option<u32>
    ensures { result ≡ first_in name.now (map top_level_syntax declarations.now) }
{
    for declaration in declarations {
        if let TopLevelDecl::Func(function) = declaration {
            if is_meant(function, name) {
                return Some(function.name.span.start);
            }
        }
    }
    None
}

/// The first function of that name in these files.
fn first_spot(trees: &[NumberedTree<'_>], name: &str) -> Option<Spot>
    ensures { option_map spot_view result ≡ first_spot name.now (map numbered_view trees.now) }
{
    for numbered in trees {
        if let Some(offset) = first_in(&numbered.tree.declarations, name) {
            return Some(Spot {
                file: numbered.file,
                offset,
            });
        }
    }
    None
}

/// The first function of that name in the package, in the order of its files and their texts.
///
/// # Errors
///
/// Memory was refused.
pub fn first_of_name<'a>(
    alloc: Global,
    loaded: &'a LoadedPackage,
    name: &str,
) -> Result<Option<Note<'a>>, AllocError>
    ensures { IfOk result (λ note. option_map shown note
        ≡ first_note loaded.now.sources.items name.now (kept_trees loaded.now)) }
{
    let trees = numbered_trees(alloc, loaded)?;
    match first_spot(&trees, name) {
        Some(spot) => Ok(Some(Note {
            sources: &loaded.sources,
            file: spot.file,
            offset: spot.offset,
            text: NoteText::Words(Pointer::FirstOfName.text()),
        })),
        None => Ok(None),
    }
}
