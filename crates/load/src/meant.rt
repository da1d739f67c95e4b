//! The packages that imports are of.

ghost use Rattle.std.specs.Prelude.{◌≡◌, IfOk, OnOk, map};
ghost use Rattle.tree.specs.View.{file_syntax, import_spec_syntax, import_syntax};
ghost use Rattle.meaning_reports.specs.MeantImports.{meant_import, meant_imports, with_meant_imports};
ghost use Rattle.load.specs.MeantPaths.{mapped, meant_in, meant_of, meant_path};
ghost use Rattle.load.specs.Readings.{MeansImports};

use crate::source::Parsed;
use std::alloc::{AllocError, Global};
use std::mem;
use tree::{Edition, File, ImportDecl, ImportSpec};

/// A path that stands in the files of a package, and the path of the package that it means.
#[derive(Debug, Drop)]
pub struct MeantImport {
    pub written: String,
    pub meant: String,
}

/// What the first of these says of the path; else the path itself.
fn mapped<'a>(imports: &'a [MeantImport], path: &'a str) -> &'a str
    ensures { result.now ≡ mapped (map meant_of imports.now) path.now }
{
    for import in imports {
        if import.written.as_str() == path {
            return import.meant.as_str();
        }
    }
    path
}

/// The path that means the same in each edition.
fn meant_in<'a>(edition: Edition, path: &'a str) -> &'a str
    ensures { result.now ≡ meant_in edition path.now }
{
    match edition {
        Edition::First => path,
        Edition::Second => if path == "golang.org/x/net/context" {
            "context"
        } else {
            path
        },
    }
}

/// The path that is meant.
fn meant_path<'a>(edition: Edition, imports: &'a [MeantImport], path: &'a str) -> &'a str
    ensures { result.now ≡ meant_path edition (map meant_of imports.now) path.now }
{
    meant_in(edition, mapped(imports, path))
}

/// The import, of the path that is meant.
fn meant_import(
    alloc: Global,
    edition: Edition,
    imports: &[MeantImport],
    spec: ImportSpec,
) -> Result<ImportSpec, AllocError>
    ensures { IfOk result (λ meant. import_spec_syntax meant
        ≡ meant_import (meant_path edition (map meant_of imports.now)) (import_spec_syntax spec)) }
{
    let ImportSpec {
        name,
        path,
        path_span,
        span,
    } = spec;
    let path = String::from_str(alloc, meant_path(edition, imports, path.as_str()))?;
    Ok(ImportSpec {
        name,
        path,
        path_span,
        span,
    })
}

/// These imports, each of the path that is meant.
fn meant_specs(
    alloc: Global,
    edition: Edition,
    imports: &[MeantImport],
    specs: Vec<ImportSpec>,
) -> Result<Vec<ImportSpec>, AllocError>
    ensures { IfOk result (λ meant. map import_spec_syntax meant.items
        ≡ map (meant_import (meant_path edition (map meant_of imports.now))) (map import_spec_syntax specs.items)) }
{
    let mut meant = Vec::new(alloc);
    for spec in specs {
        meant.push(meant_import(alloc, edition, imports, spec)?)?;
    }
    Ok(meant)
}

/// The import declaration, with imports of the paths that are meant.
fn meant_declaration(
    alloc: Global,
    edition: Edition,
    imports: &[MeantImport],
    declaration: ImportDecl,
) -> Result<ImportDecl, AllocError>
    ensures { IfOk result (λ meant. import_syntax meant
        ≡ meant_imports (meant_path edition (map meant_of imports.now)) (import_syntax declaration)) }
{
    let ImportDecl {
        specs,
        is_grouped,
        span,
    } = declaration;
    let specs = meant_specs(alloc, edition, imports, specs)?;
    Ok(ImportDecl {
        specs,
        is_grouped,
        span,
    })
}

/// These import declarations, with imports of the paths that are meant.
fn meant_declarations(
    alloc: Global,
    edition: Edition,
    imports: &[MeantImport],
    declarations: Vec<ImportDecl>,
) -> Result<Vec<ImportDecl>, AllocError>
    ensures { IfOk result (λ meant. map import_syntax meant.items
        ≡ map (meant_imports (meant_path edition (map meant_of imports.now)))
        (map import_syntax declarations.items)) }
{
    let mut meant = Vec::new(alloc);
    for declaration in declarations {
        meant.push(meant_declaration(alloc, edition, imports, declaration)?)?;
    }
    Ok(meant)
}

/// Gives the file's imports the paths that are meant.
fn mean_imports(
    alloc: Global,
    edition: Edition,
    imports: &[MeantImport],
    file: &mut File,
) -> Result<(), AllocError>
    ensures { OnOk result (file_syntax file.new
        ≡ with_meant_imports (meant_path edition (map meant_of imports.now)) (file_syntax file.old)) }
{
    let declarations = mem::replace(&mut file.imports, Vec::new(alloc));
    file.imports = meant_declarations(alloc, edition, imports, declarations)?;
    Ok(())
}

/// What became of a file of a package in which this is said of import paths: the imports of its tree are of the paths
/// that are meant.
///
/// # Errors
///
/// Memory was refused.
pub fn with_meant_imports(
    alloc: Global,
    edition: Edition,
    imports: &[MeantImport],
    parsed: Parsed,
) -> Result<Parsed, AllocError>
    ensures { IfOk result (MeansImports (meant_path edition (map meant_of imports.now)) parsed) }
{
    match parsed {
        Ok(tree) => {
            let mut tree = tree;
            mean_imports(alloc, edition, imports, &mut tree)?;
            Ok(Ok(tree))
        }
        Err(reading) => Ok(Err(reading)),
    }
}
