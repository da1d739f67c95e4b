//! Files that are given by their names, as a list of packages has them.

ghost use Rattle.std.specs.Prelude.{◌≡◌, Contains, IfErr, IfOk, map, option_map, string_bytes};
ghost use Rattle.folders.specs.ListedFiles.{behind, below, given_name, inside, is_relative, shown_name, AreFilesOf};
ghost use Rattle.folders.specs.Names.{IsPrintable};
ghost use Rattle.folders.specs.ReadFaults.{IsReadFaultOf};

use crate::fault::{self, Fault};
use crate::files::{in_order, read_bytes, slash_after, source_name};
use crate::names::{escaped, is_printable};
use lexer::Source;
use std::alloc::{AllocError, Global};
use std::rt::Files;

/// The name of a file that a list names in this folder: an absolute one stands as it is.
fn given_name(alloc: Global, folder: &str, name: &str) -> Result<String, AllocError>
    ensures { IfOk result (λ text. string_bytes text ≡ given_name folder.now name.now) }
{
    if name.starts_with("/") {
        String::from_str(alloc, name)
    } else {
        source_name(alloc, folder, name)
    }
}

/// What stands in the name behind this front.
fn behind<'n>(front: &str, name: &'n str) -> Option<&'n str>
    ensures { option_map (λ rest. rest.now) result ≡ behind front.now name.now }
{
    name.strip_prefix(front)
}

/// What stands in the name behind that of the folder and a slash.
pub(crate) fn inside<'n>(folder: &str, name: &'n str) -> Option<&'n str>
    ensures { option_map (λ rest. rest.now) result ≡ inside folder.now name.now }
{
    let inner = behind(folder, name)?;
    behind(slash_after(folder), inner)
}

/// Whether a file is found from a folder on by this name: it is not empty, and not absolute.
fn is_relative(name: &str) -> bool
    ensures { result ≡ is_relative name.now }
{
    !name.is_empty() && !name.starts_with("/")
}

/// The name from the folder on, where it lies below that, and else as it is.
fn below<'n>(folder: &str, name: &'n str) -> &'n str
    ensures { result.now ≡ below folder.now name.now }
{
    match inside(folder, name) {
        Some(rest) if is_relative(rest) => rest,
        _ => name,
    }
}

/// A file's name in a report: the one that a list gives it in this folder, from the current folder on where it lies
/// below that, and where it is known which folder that is.
///
/// # Errors
///
/// Memory was refused.
pub fn shown_name(
    alloc: Global,
    here: Option<&str>,
    folder: &str,
    name: &str,
) -> Result<String, AllocError>
    ensures { IfOk result
        (λ text. string_bytes text ≡ shown_name (option_map (λ h. h.now) here.entry) folder.now name.now) }
{
    let given = given_name(alloc, folder, name)?;
    match here {
        Some(here) => String::from_str(alloc, below(here, given.as_str())),
        None => Ok(given),
    }
}

/// The file of this name.
///
/// # Errors
///
/// It can't be read, it is no regular file, or no line could name it; or memory was refused.
fn read_named<R: Files + AllocGlobal>(rt: &R, name: String) -> Result<Source, Fault>
    ensures named { IfOk result (λ source. source.name ≡ name) }
    ensures printable { IfOk result (λ source. IsPrintable (string_bytes source.name)) }
    ensures fault { IfErr result (IsReadFaultOf (λ told. told ≡ string_bytes name)) }
{
    if !is_printable(name.as_str().as_bytes()) {
        return Err(Fault::CannotRead(escaped(rt.alloc(), name.as_str())?));
    }
    match read_bytes(rt, name.as_str()) {
        Ok(Some(bytes)) => Ok(Source { name, bytes }),
        Ok(None) => Err(Fault::CannotRead(name)),
        Err(error) => Err(fault::reading(&error, name)),
    }
}

/// The files of these names with their bytes, each once, in the order of the bytes of their names. The first that can't
/// be read ends it.
///
/// # Errors
///
/// A file can't be read, or memory was refused.
pub fn read_files<R: Files + AllocGlobal>(rt: &R, names: Vec<String>) -> Result<Vec<Source>, Fault>
    ensures files { IfOk result (λ sources. AreFilesOf (map string_bytes names.items) sources.items) }
    ensures fault { IfErr result (IsReadFaultOf (Contains (map string_bytes names.items))) }
{
    let names = in_order(names);
    let mut sources = Vec::new(rt.alloc());
    for name in &names {
        let name = String::from_str(rt.alloc(), name.as_str())?;
        sources.push(read_named(rt, name)?)?;
    }
    Ok(sources)
}
