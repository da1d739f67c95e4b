//! The Go files of a folder.

ghost use Rattle.std.specs.Prelude.{◌≡◌, ◌↔◌, ℕ, List, ◌++◌, Contains, OnOk, option_to_list, IfErr, IfOk, IfSome, map, string_bytes, string_cmp};
ghost use Rattle.std.specs.List.Sorted.{IsStrictlySortedBy};
ghost use Rattle.folders.specs.GoFiles.{is_go_file, slash_after, source_name, AreGoNames, AreSourcesOf, IsOfFolder};
ghost use Rattle.folders.specs.Names.{IsPrintable};
ghost use Rattle.folders.specs.ReadFaults.{IsReadFaultOf};

use crate::fault::{self, Fault};
use crate::names::{escaped, is_printable};
use lexer::{MOST_BYTES, Source};
use std::alloc::{AllocError, Global};
use std::fs;
use std::io::{self, BufRead, BufReader, Read};
use std::rt::Files;

/// Of a file no more bytes than this are read: one more than a text may have, which is enough to see that
/// it has too many.
const MOST_READ: u64 = MOST_BYTES as u64 + 1;

/// What a folder's listing ends each name with.
const NUL: u8 = 0;

/// Whether a file of this name is read: it ends in `.go`, and not in `_test.go`.
fn is_go_file(name: &[u8]) -> bool
    ensures { result ≡ is_go_file name.now }
{
    name.ends_with(b".go") && !name.ends_with(b"_test.go")
}

/// A file's name in a report: the folder, a slash unless the folder ends in one, and its own name.
pub(crate) fn source_name(alloc: Global, folder: &str, name: &str) -> Result<String, AllocError>
    ensures { IfOk result (λ text. string_bytes text ≡ source_name folder.now name.now) }
{
    let slash = slash_after(folder);
    format!(in alloc; "{folder}{slash}{name}")
}

/// What stands between a folder's name and its entry's.
pub(crate) fn slash_after(folder: &str) -> &'static str
    ensures { result.now ≡ slash_after folder.now }
{
    if folder.as_bytes().ends_with(b"/") {
        ""
    } else {
        "/"
    }
}

/// The Go files of a folder with their bytes, each once, in the order of the bytes of their names. The first that
/// can't be read ends it.
///
/// # Errors
///
/// The folder can't be listed, a file can't be read, or memory was refused.
pub fn read_folder<R: Files + AllocGlobal>(rt: &R, folder: &str) -> Result<Vec<Source>, Fault>
    ensures sources { IfOk result (λ sources. AreSourcesOf folder.now sources.items) }
    ensures fault { IfErr result (IsReadFaultOf (IsOfFolder folder.now)) }
{
    let names = go_names(rt, folder)?;
    let mut sources = Vec::new(rt.alloc());
    for name in &names {
        let name = source_name(rt.alloc(), folder, name.as_str())?;
        keep_source(&mut sources, read_source(rt, name)?)?;
    }
    Ok(sources)
}

/// Adds the source, if there is one.
fn keep_source(sources: &mut Vec<Source>, read: Option<Source>) -> Result<(), AllocError>
    ensures { OnOk result (sources.new.items ≡ sources.old.items ++ option_to_list read) }
{
    if let Some(source) = read {
        sources.push(source)?;
    }
    Ok(())
}

/// The names of the folder's Go files in the order of their bytes, each once. The folder's own name is printable then.
fn go_names<R: Files + AllocGlobal>(rt: &R, folder: &str) -> Result<Vec<String>, Fault>
    ensures ascend { IfOk result (λ names. IsStrictlySortedBy string_cmp names.items) }
    ensures go { IfOk result (λ names. AreGoNames names.items) }
    ensures folder { IfOk result (λ _. IsPrintable folder.now) }
    ensures fault { IfErr result (IsReadFaultOf (λ name. name ≡ folder.now)) }
{
    match list_names(rt, folder) {
        Ok(names) => Ok(in_order(names)),
        Err(error) => {
            let folder = escaped(rt.alloc(), folder)?;
            Err(fault::reading(&error, folder))
        }
    }
}

/// The names in the order of their bytes, each once. A listing may have one twice where the folder changes meanwhile.
pub(crate) fn in_order(names: Vec<String>) -> Vec<String>
    ensures ascend { IsStrictlySortedBy string_cmp result.items }
    ensures same { (name : List ℕ)
        → Contains (map string_bytes result.items) name ↔ Contains (map string_bytes names.items) name }
    ensures go { AreGoNames names.items → AreGoNames result.items }
{
    let mut ordered = names;
    ordered.sort_unstable();
    ordered.dedup();
    ordered
}

/// As `go_names`, in the order of the system.
fn list_names<R: Files + AllocGlobal>(rt: &R, folder: &str) -> io::Result<Vec<String>>
    ensures go { IfOk result (λ names. AreGoNames names.items) }
    ensures folder { IfOk result (λ _. IsPrintable folder.now) }
{
    if !is_printable(folder.as_bytes()) {
        return Err(io::Error::from(io::ErrorKind::InvalidFilename));
    }
    // With the slash the system follows a link to a folder.
    let path = source_name(rt.alloc(), folder, "")?;
    let entries = BufReader::new(rt.alloc(), rt.open_dir(path.as_str())?)?;
    let mut names = Vec::new(rt.alloc());
    for entry in entries.split(rt.alloc(), NUL) {
        keep_name(&mut names, rt.alloc(), entry?.as_slice())?;
    }
    Ok(names)
}

/// Adds the name if it is that of a Go file. Where it is one that is not UTF-8 or has a control code,
/// no line could name the file, and it is an error.
fn keep_name(names: &mut Vec<String>, alloc: Global, name: &[u8]) -> io::Result<()>
    ensures { AreGoNames names.old.items → AreGoNames names.new.items }
{
    if !is_go_file(name) {
        return Ok(());
    }
    match str::from_utf8(name) {
        Ok(text) if is_printable(name) => {
            names.push(String::from_str(alloc, text)?)?;
            Ok(())
        }
        _ => Err(io::Error::from(io::ErrorKind::InvalidFilename)),
    }
}

/// The file of this name, or `None` where it is a folder.
fn read_source<R: Files + AllocGlobal>(rt: &R, name: String) -> Result<Option<Source>, Fault>
    ensures source { IfOk result (λ read. IfSome read (λ source. source.name ≡ name)) }
    ensures fault { IfErr result (IsReadFaultOf (λ told. told ≡ string_bytes name)) }
{
    match read_bytes(rt, name.as_str()) {
        Ok(Some(bytes)) => Ok(Some(Source { name, bytes })),
        Ok(None) => Ok(None),
        Err(error) => Err(fault::reading(&error, name)),
    }
}

/// The bytes of a regular file, `None` for a folder. Other kinds are an error, and are not opened:
/// to open a pipe would wait for its writer.
pub(crate) fn read_bytes<R: Files + AllocGlobal>(
    rt: &R,
    name: &str,
) -> io::Result<Option<Vec<u8>>> {
    let kind = fs::metadata(rt, name)?;
    if kind.is_dir() {
        return Ok(None);
    }
    if !kind.is_file() {
        return Err(io::Error::from(io::ErrorKind::InvalidInput));
    }
    // Room for what the file has now, and for one byte more, by which its end is seen. A size that is wrong does no
    // harm: no more is taken in advance than may be read, and a file that grows meanwhile is read all the same.
    let mut bytes = Vec::new(rt.alloc());
    bytes.reserve_exact(kind.len().min(MOST_READ) as usize + 1)?;
    fs::open(rt, name)?.take(MOST_READ).read_to_end(&mut bytes)?;
    Ok(Some(bytes))
}
