//! What is to be said of imports with a dot.

ghost use Rattle.std.specs.Prelude.{◌≡◌, ◌++◌, OnOk, flat_map, map};
ghost use Rattle.std.specs.Str.{bytes_eq};
ghost use Rattle.whole_packages.specs.LoadedViews.{numbered_view};
ghost use Rattle.whole_packages.specs.WholeEntries.{dot_if, spec_dots, tree_dots};
ghost use Rattle.meaning.specs.Grammar.{dot_text};
ghost use Rattle.meaning.specs.OuterBlocks.{specs_of};
ghost use Rattle.report.specs.Entries.{entry_of};
ghost use Rattle.tree.specs.View.{identifier_syntax, import_syntax, import_spec_syntax};

use crate::failures::NO_NAME;
use crate::import_entries::Picks;
use crate::numbered::NumberedTree;
use report::{Diagnostic, DiagnosticCode, TreeFault};
use std::alloc::AllocError;
use tree::{Identifier, ImportDecl, ImportSpec};

/// The name that an import with a dot has.
const DOT: &str = ".";

/// Whether the import of that name is one with a dot.
fn is_dot(name: &Identifier) -> bool
    ensures { result ≡ bytes_eq (identifier_syntax name.now).text dot_text }
{
    name.text.as_str() == DOT
}

/// Adds that the import with this dot is left out, if its package is one of those that were picked.
fn add_dot<'a>(
    picks: bool,
    file: usize,
    dot: &Identifier,
    diagnostics: &mut Vec<Diagnostic<'a>>,
) -> Result<(), AllocError>
    ensures { OnOk result (map entry_of diagnostics.new.items ≡ map entry_of diagnostics.old.items
        ++ dot_if picks file (identifier_syntax dot.now)) }
{
    if picks {
        diagnostics.push(Diagnostic {
            file,
            offset: dot.span.start,
            code: DiagnosticCode::LeftOut(TreeFault::DotImport),
            name: NO_NAME,
        })?;
    }
    Ok(())
}

/// Of other imports nothing is asked.
fn add_spec<'a, P: Picks>(
    picked: &P,
    file: usize,
    spec: &ImportSpec,
    diagnostics: &mut Vec<Diagnostic<'a>>,
) -> Result<(), AllocError>
    ensures { OnOk result (map entry_of diagnostics.new.items ≡ map entry_of diagnostics.old.items ++ spec_dots
        (P.picked picked.now) file (import_spec_syntax spec.now)) }
{
    match &spec.name {
        Some(name) => {
            if is_dot(name) {
                let picks = picked.picks(spec.path.as_str())?;
                add_dot(picks, file, name, diagnostics)?;
            }
            Ok(())
        }
        None => Ok(()),
    }
}

fn add_specs<'a, P: Picks>(
    picked: &P,
    file: usize,
    specs: &[ImportSpec],
    diagnostics: &mut Vec<Diagnostic<'a>>,
) -> Result<(), AllocError>
    ensures { OnOk result (map entry_of diagnostics.new.items ≡ map entry_of diagnostics.old.items ++ flat_map
        (spec_dots (P.picked picked.now) file)
        (map import_spec_syntax specs.now)) }
{
    for spec in specs {
        add_spec(picked, file, spec, diagnostics)?;
    }
    Ok(())
}

fn add_declarations<'a, P: Picks>(
    picked: &P,
    file: usize,
    declarations: &[ImportDecl],
    diagnostics: &mut Vec<Diagnostic<'a>>,
) -> Result<(), AllocError>
    ensures { OnOk result (map entry_of diagnostics.new.items ≡ map entry_of diagnostics.old.items ++ flat_map
        (spec_dots (P.picked picked.now) file)
        (specs_of (map import_syntax declarations.now))) }
{
    for declaration in declarations {
        add_specs(picked, file, &declaration.specs, diagnostics)?;
    }
    Ok(())
}

/// Adds for each import with a dot, in these files, of one of the picked packages that it is left out, at its dot.
///
/// # Errors
///
/// Memory was refused.
pub fn add_dots<'a, P: Picks>(
    picked: &P,
    trees: &[NumberedTree<'a>],
    diagnostics: &mut Vec<Diagnostic<'a>>,
) -> Result<(), AllocError>
    ensures { OnOk result (map entry_of diagnostics.new.items ≡ map entry_of diagnostics.old.items ++ flat_map
        (tree_dots (P.picked picked.now))
        (map numbered_view trees.now)) }
{
    for numbered in trees {
        add_declarations(picked, numbered.file, &numbered.tree.imports, diagnostics)?;
    }
    Ok(())
}
