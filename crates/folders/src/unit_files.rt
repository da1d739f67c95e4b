//! The files that are read for the names that the go command writes for a unit.

ghost use Rattle.std.specs.Prelude.{◌≡◌, IfOk, OnOk, ◌++◌, option_map, option_to_list, map, string_bytes};
ghost use Rattle.folders.specs.UnitFiles.{base_name, file_for, file_of, is_in, is_of_tests, made_of, picked_file, picked_files, IsFolderOf};

use crate::files::source_name;
use crate::listed::inside;
use std::alloc::{AllocError, Global};

/// What the name of a Go file ends in that cgo made of another.
const MADE_BY_CGO: &str = ".cgo1.go";

/// The files that are read for these names, which the go command writes for a unit of this folder: none of tests, where
/// that is not asked for; and in place of what cgo made of a file this file itself.
///
/// # Errors
///
/// Memory was refused.
pub fn picked_files(
    alloc: Global,
    folder: &str,
    names: &[String],
    with_tests: bool,
) -> Result<Vec<String>, AllocError>
    ensures { IfOk result (λ files.
        map string_bytes files.items ≡ picked_files with_tests folder.now (map string_bytes names.now)) }
{
    let mut files = Vec::new(alloc);
    for name in names {
        let file = picked_file(alloc, folder, name.as_str(), with_tests)?;
        keep_file(&mut files, file)?;
    }
    Ok(files)
}

/// Adds the file, if there is one.
fn keep_file(files: &mut Vec<String>, file: Option<String>) -> Result<(), AllocError>
    ensures { OnOk result (files.new.items ≡ files.old.items ++ option_to_list file) }
{
    if let Some(file) = file {
        files.push(file)?;
    }
    Ok(())
}

/// The file that is read for this name, if one is.
fn picked_file(
    alloc: Global,
    folder: &str,
    name: &str,
    with_tests: bool,
) -> Result<Option<String>, AllocError>
    ensures { IfOk result (λ file. option_map string_bytes file ≡ picked_file with_tests folder.now name.now) }
{
    match file_for(alloc, folder, name)? {
        Some(file) if with_tests || !is_of_tests(file.as_str()) => Ok(Some(file)),
        _ => Ok(None),
    }
}

/// The file that stands for the name, where one does.
fn file_for(alloc: Global, folder: &str, name: &str) -> Result<Option<String>, AllocError>
    ensures { IfOk result (λ file. option_map string_bytes file ≡ file_for folder.now name.now) }
{
    if is_in(folder, name) {
        return Ok(Some(String::from_str(alloc, name)?));
    }
    file_outside(alloc, folder, name)
}

/// The file that stands for a name outside of the folder, where one does.
fn file_outside(alloc: Global, folder: &str, name: &str) -> Result<Option<String>, AllocError>
    ensures { IfOk result (λ file.
        option_map string_bytes file ≡ file_of folder.now name.now (made_of (base_name name.now))) }
{
    let base = base_name(name);
    if let Some(front) = made_of(base) {
        let written = format!(in alloc; "{front}.go")?;
        return Ok(Some(source_name(alloc, folder, written.as_str())?));
    }
    if base.as_bytes().starts_with(b"_cgo_") {
        return Ok(None);
    }
    Ok(Some(String::from_str(alloc, name)?))
}

/// Whether the file lies in the folder, and not in one below it.
fn is_in(folder: &str, name: &str) -> bool
    ensures { result ≡ is_in folder.now name.now }
{
    match inside(folder, name) {
        Some(rest) => rest == base_name(name),
        None => false,
    }
}

/// What stands in a name behind its last slash.
fn base_name(name: &str) -> &str
    ensures { result.now ≡ base_name name.now }
{
    match name.rsplit_once('/') {
        Some((_, base)) => base,
        None => name,
    }
}

/// The folder of the file of this name: what stands before its last slash, or else the current folder.
pub fn folder_of(name: &str) -> &str
    ensures { IsFolderOf name.now result.now }
{
    match name.rsplit_once('/') {
        Some((folder, _)) => folder,
        None => ".",
    }
}

/// X, of a name X.cgo1.go.
fn made_of(name: &str) -> Option<&str>
    ensures { option_map (λ front. front.now) result ≡ made_of name.now }
{
    name.strip_suffix(MADE_BY_CGO)
}

fn is_of_tests(name: &str) -> bool
    ensures { result ≡ is_of_tests name.now }
{
    name.as_bytes().ends_with(b"_test.go")
}
