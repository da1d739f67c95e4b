//! What each use in a file means.

ghost use Rattle.std.specs.Prelude.{◌≡◌, ℕ, List, IfOk, option_map, All};
ghost use Rattle.names.specs.Answers.{decl_view, at_name, text_at, names_by_path};
ghost use Rattle.names.specs.KeptMeanings.{kept_at};
ghost use Rattle.names.specs.Ordered.{AreLinks, AreRuns, FitsKey, locals_view};
ghost use Rattle.names.specs.Uses.{from_package, meant_at, IsUseOf};
ghost use Rattle.meaning.specs.Declarations.{local_or_around, import_or_around, innermost};
ghost use Rattle.scopes.specs.Views.{naming_view};
ghost use Rattle.tree.specs.View.{file_syntax};

use crate::imports::file_imports;
use crate::innermost::{innermost, links};
use crate::locals::{FirstLocals, first_locals, is_assigned};
use crate::meanings::NameMeaning;
use crate::order::{Run, ordered, runs};
use crate::package_names::PackageNames;
use crate::use_meanings::UseMeanings;
use indexmap::IndexMap;
use scopes::{LocalName, Naming, file_names};
use std::alloc::{AllocError, Global};
use tree::File;

/// The blocks around a use, from the innermost one out.
#[derive(Clone, Copy)]
struct Blocks<'b, 'a> {
    locals: &'b [LocalName<'a>],
    links: &'b [usize],
    runs: &'b IndexMap<&'a str, Run>,
    imports: &'b IndexMap<&'a str, &'a str>,
    block: &'b IndexMap<&'a str, bool>,
}

/// What the name means at the offset.
fn meaning<'a>(blocks: Blocks<'_, 'a>, name: &str, at: u32) -> NameMeaning<'a>
    requires links { AreLinks (locals_view blocks.locals.now) blocks.links.now }
    requires runs { AreRuns (locals_view blocks.locals.now) (at_name blocks.runs.now) }
    ensures { decl_view result ≡ local_or_around (innermost name.now at (locals_view blocks.entry.locals.now))
        (import_or_around (text_at blocks.entry.imports.now name.now) (from_package
        (at_name blocks.entry.block.now name.now))) }
{
    if let Some(local) = innermost(blocks.locals, blocks.links, blocks.runs, name, at) {
        return NameMeaning::Local(local.number, local.kind);
    }
    if let Some(path) = blocks.imports.get(name) {
        return NameMeaning::Import(*path);
    }
    match blocks.block.get(name) {
        Some(is_function) => {
            if *is_function {
                NameMeaning::Function
            } else {
                NameMeaning::PackageLevel
            }
        }
        None => NameMeaning::Universe,
    }
}

/// The name and the offset of a use; of a declaration by `:=` that only assigns, too.
fn use_of<'a>(locals: &FirstLocals<'a>, naming: &Naming<'a>) -> Option<(&'a str, u32)>
    requires fit { All FitsKey locals.now.entries }
    ensures { IsUseOf locals.now (naming_view naming.now) result }
{
    match naming {
        Naming::Use(name, at) => Some((*name, *at)),
        Naming::Declaration(local) => {
            if is_assigned(locals, local) {
                Some((local.name, local.number))
            } else {
                None
            }
        }
    }
}

/// By its offset, what each use in the file means. Of two uses at one offset the first counts: so the later is kept
/// before it.
///
/// # Errors
///
/// Memory was refused.
pub fn file_answers<'a>(
    alloc: Global,
    packages: &PackageNames<'a>,
    block: &IndexMap<&'a str, bool>,
    file: &'a File,
) -> Result<UseMeanings<'a>, AllocError>
    ensures { IfOk result (λ answers. (at : ℕ) → option_map decl_view (kept_at answers at) ≡ meant_at
        (at_name block.now) (names_by_path packages.now) (file_syntax file.now) at) }
{
    let namings = file_names(alloc, file)?;
    let firsts = first_locals(alloc, &namings)?;
    let locals = ordered(alloc, &firsts)?;
    let links = links(alloc, &locals)?;
    let runs = runs(alloc, &locals)?;
    let imports = file_imports(alloc, packages, file)?;
    let blocks = Blocks {
        locals: &locals,
        links: &links,
        runs: &runs,
        imports: &imports,
        block,
    };
    let mut answers = UseMeanings::new(alloc, namings.len(), file.span.end)?;
    let mut left = namings.len();
    while left > 0 {
        left -= 1;
        if let Some((name, at)) = use_of(&firsts, &namings[left]) {
            answers.keep(at, meaning(blocks, name, at))?;
        }
    }
    Ok(answers)
}
