//! What the imports of a file declare (the Go specification, "Import declarations").

ghost use Rattle.std.specs.Prelude.{◌≡◌, ℕ, List, [], ◌∷◌, OnOk, IfOk, map, option_map, string_bytes};
ghost use Rattle.meaning.specs.OuterBlocks.{last_element, import_name_of, is_first_path, import_among, import_meant, specs_of};
ghost use Rattle.names.specs.Answers.{names_by_path, text_at};
ghost use Rattle.names.specs.Maps.{AddsTexts, chosen_path, import_given};
ghost use Rattle.tree.specs.View.{identifier_syntax, import_spec_syntax, import_syntax, file_syntax};

use crate::first::keep_first_name;
use crate::package_names::PackageNames;
use indexmap::IndexMap;
use std::alloc::{AllocError, Global};
use tree::{BLANK, File, ImportDecl, ImportSpec};

/// The path of the package of contexts.
pub const CONTEXT: &str = "context";

/// The path of the package of groups.
pub const ERRGROUP: &str = "golang.org/x/sync/errgroup";

/// What follows the last slash of a path.
fn last_element(path: &str) -> &str
    ensures { result.now ≡ last_element path.now }
{
    match path.rfind('/') {
        Some(at) => &path[at + 1..],
        None => path,
    }
}

/// The name that an import declares: the one that is written, or that of the package.
fn import_name<'a>(packages: &PackageNames<'a>, spec: &'a ImportSpec) -> &'a str
    ensures { result.now ≡ import_name_of (names_by_path packages.now) (option_map identifier_syntax spec.now.name)
        (string_bytes spec.now.path) }
{
    match &spec.name {
        Some(name) => name.text.as_str(),
        None => match packages.get(spec.path.as_str()) {
            Some(name) => name,
            None => last_element(spec.path.as_str()),
        },
    }
}

/// Whether imports of that path come before others.
fn is_first_path(path: &str) -> bool
    ensures { result ≡ is_first_path path.now }
{
    path == CONTEXT || path == ERRGROUP
}

/// Adds what the import declares.
fn add_import<'a>(
    imports: &mut IndexMap<&'a str, &'a str>,
    packages: &PackageNames<'a>,
    spec: &'a ImportSpec,
) -> Result<(), AllocError>
    ensures { OnOk result (AddsTexts imports.old imports.new (import_given (import_name_of
        (names_by_path packages.now) (option_map identifier_syntax spec.now.name) (string_bytes spec.now.path))
        (string_bytes spec.now.path))) }
{
    let name = import_name(packages, spec);
    if name != BLANK {
        keep_first_name(imports, name, spec.path.as_str())?;
    }
    Ok(())
}

/// Whether imports of that path are looked at: those that come first alone, or any.
fn is_chosen(only_first: bool, path: &str) -> bool
    ensures { result ≡ chosen_path only_first path.now }
{
    !only_first || is_first_path(path)
}

/// Adds what the import declares, if its path is chosen.
fn add_chosen<'a>(
    imports: &mut IndexMap<&'a str, &'a str>,
    packages: &PackageNames<'a>,
    only_first: bool,
    spec: &'a ImportSpec,
) -> Result<(), AllocError>
    ensures { OnOk result (AddsTexts imports.old imports.new (λ name. import_among (chosen_path only_first)
        (names_by_path packages.now) name (import_spec_syntax spec.now ∷ []))) }
{
    if !is_chosen(only_first, spec.path.as_str()) {
        return Ok(());
    }
    add_import(imports, packages, spec)
}

fn add_imports<'a>(
    imports: &mut IndexMap<&'a str, &'a str>,
    packages: &PackageNames<'a>,
    only_first: bool,
    specs: &'a [ImportSpec],
) -> Result<(), AllocError>
    ensures { OnOk result (AddsTexts imports.old imports.new (λ name. import_among (chosen_path only_first)
        (names_by_path packages.now) name (map import_spec_syntax specs.now))) }
{
    for spec in specs {
        add_chosen(imports, packages, only_first, spec)?;
    }
    Ok(())
}

fn add_declarations<'a>(
    imports: &mut IndexMap<&'a str, &'a str>,
    packages: &PackageNames<'a>,
    only_first: bool,
    declarations: &'a [ImportDecl],
) -> Result<(), AllocError>
    ensures { OnOk result (AddsTexts imports.old imports.new (λ name. import_among (chosen_path only_first)
        (names_by_path packages.now) name (specs_of (map import_syntax declarations.now)))) }
{
    for declaration in declarations {
        add_imports(imports, packages, only_first, &declaration.specs)?;
    }
    Ok(())
}

/// By its name, the path of each import that can be meant in the file.
///
/// # Errors
///
/// Memory was refused.
pub fn file_imports<'a>(
    alloc: Global,
    packages: &PackageNames<'a>,
    file: &'a File,
) -> Result<IndexMap<&'a str, &'a str>, AllocError>
    ensures { IfOk result (λ imports. (name : List ℕ) → text_at imports name ≡ import_meant
        (names_by_path packages.now) (specs_of (file_syntax file.now).imports) name) }
{
    let mut imports = IndexMap::new(alloc);
    add_declarations(&mut imports, packages, true, &file.imports)?;
    add_declarations(&mut imports, packages, false, &file.imports)?;
    Ok(imports)
}
