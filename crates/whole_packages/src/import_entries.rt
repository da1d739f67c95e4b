//! What is to be said of imports.

ghost use Rattle.std.specs.Prelude.{◌≡◌, ◌++◌, ℕ, Bool, List, IfOk, OnOk, flat_map, map, slice_get};
ghost use Rattle.imports.specs.Views.{at_path};
ghost use Rattle.whole_packages.specs.LoadedViews.{numbered_view};
ghost use Rattle.whole_packages.specs.WholeEntries.{is_marked, is_set, spec_entries, tree_entries};
ghost use Rattle.meaning.specs.OuterBlocks.{specs_of};
ghost use Rattle.report.specs.Entries.{entry_of};
ghost use Rattle.tree.specs.View.{file_syntax, import_syntax, import_spec_syntax};

use crate::numbered::NumberedTree;
use indexmap::IndexMap;
use report::{Diagnostic, DiagnosticCode};
use std::alloc::AllocError;
use tree::{ImportDecl, ImportSpec};

/// Some packages, told by their paths.
pub trait Picks {
    ghost picked: { Self → List ℕ → Bool };

    /// Whether the package of that path is one of them.
    ///
    /// # Errors
    ///
    /// Memory was refused.
    fn picks(&self, path: &str) -> Result<bool, AllocError>
        ensures { IfOk result (λ picks. picks ≡ picked self.now path.now) };
}

/// Some of the given packages: for each path the place of its package, and whether the package of a place is one of
/// them.
#[derive(Clone, Copy)]
pub struct Marked<'m, 'a> {
    pub places: &'m IndexMap<&'a str, usize>,
    pub marks: &'m [bool],
}

fn is_set(marks: &[bool], place: usize) -> bool
    ensures { result ≡ is_set (slice_get marks.now place) }
{
    match marks.get(place) {
        Some(mark) => *mark,
        None => false,
    }
}

impl Picks for Marked<'_, '_> {
    ghost picked = { λ marked. is_marked (at_path marked.places.now) marked.marks.now };

    fn picks(&self, path: &str) -> Result<bool, AllocError> {
        match self.places.get(path) {
            Some(place) => Ok(is_set(self.marks, *place)),
            None => Ok(false),
        }
    }
}

fn add_spec<'a, P: Picks>(
    picked: &P,
    code: DiagnosticCode,
    file: usize,
    spec: &'a ImportSpec,
    diagnostics: &mut Vec<Diagnostic<'a>>,
) -> Result<(), AllocError>
    ensures { OnOk result (map entry_of diagnostics.new.items ≡ map entry_of diagnostics.old.items ++ spec_entries
        (P.picked picked.now) code file (import_spec_syntax spec.now)) }
{
    if picked.picks(spec.path.as_str())? {
        diagnostics.push(Diagnostic {
            file,
            offset: spec.path_span.start,
            code,
            name: spec.path.as_str(),
        })?;
    }
    Ok(())
}

fn add_specs<'a, P: Picks>(
    picked: &P,
    code: DiagnosticCode,
    file: usize,
    specs: &'a [ImportSpec],
    diagnostics: &mut Vec<Diagnostic<'a>>,
) -> Result<(), AllocError>
    ensures { OnOk result (map entry_of diagnostics.new.items ≡ map entry_of diagnostics.old.items ++ flat_map
        (spec_entries (P.picked picked.now) code file)
        (map import_spec_syntax specs.now)) }
{
    for spec in specs {
        add_spec(picked, code, file, spec, diagnostics)?;
    }
    Ok(())
}

fn add_declarations<'a, P: Picks>(
    picked: &P,
    code: DiagnosticCode,
    file: usize,
    declarations: &'a [ImportDecl],
    diagnostics: &mut Vec<Diagnostic<'a>>,
) -> Result<(), AllocError>
    ensures { OnOk result (map entry_of diagnostics.new.items ≡ map entry_of diagnostics.old.items ++ flat_map
        (spec_entries (P.picked picked.now) code file)
        (specs_of (map import_syntax declarations.now))) }
{
    for declaration in declarations {
        add_specs(picked, code, file, &declaration.specs, diagnostics)?;
    }
    Ok(())
}

/// Adds for each import of one of the picked packages, in these files, a diagnostic of that code at its path.
pub fn add_imports<'a, P: Picks>(
    picked: &P,
    code: DiagnosticCode,
    trees: &[NumberedTree<'a>],
    diagnostics: &mut Vec<Diagnostic<'a>>,
) -> Result<(), AllocError>
    ensures { OnOk result (map entry_of diagnostics.new.items ≡ map entry_of diagnostics.old.items ++ flat_map
        (tree_entries (P.picked picked.now) code)
        (map numbered_view trees.now)) }
{
    for numbered in trees {
        add_declarations(
            picked,
            code,
            numbered.file,
            &numbered.tree.imports,
            diagnostics,
        )?;
    }
    Ok(())
}
