//! The module that a folder belongs to.

ghost use Rattle.std.specs.Prelude.{◌≡◌, ◌≤◌, ◌<◌, ◌-◌, IfErr, IfOk, IfSome, IsTrue, length, option_map, string_bytes};
ghost use Rattle.std.specs.List.{after_first, before_first, position_or_len};
ghost use Rattle.folders.specs.CutLines.{stops};
ghost use Rattle.folders.specs.GoModules.{behind_word, first_word, is_between, is_quoted, is_relative, module_file, module_in, module_of, path_in, IsAbove, IsModuleFileOf, IsModulePath, IsSaidIn};
ghost use Rattle.folders.specs.ReadFaults.{IsReadFaultOf};
ghost use Rattle.folders.specs.ReadFiles.{bytes_read, name_read};

use crate::fault::{self, Fault};
use crate::files::source_name;
use crate::names::escaped;
use crate::whole_files::{ReadFile, read_file};
use std::fs;
use std::io::ErrorKind;
use std::rt::Files;

/// The file of a module, in its topmost folder.
const MODULE_FILE: &str = "go.mod";

/// The name by which a process calls the folder in which it runs.
const CURRENT_FOLDER: &str = ".";

/// The path of the module to which the folder belongs: the one that the nearest file `go.mod` says, there or above; or
/// an empty text, where there is none.
///
/// # Errors
///
/// That file can't be read, or its path is not UTF-8; or memory was refused.
pub fn module_above<R: Files + AllocGlobal>(rt: &R, folder: &str) -> Result<String, Fault>
    ensures module { IfOk result (λ path. IsModulePath folder.now (string_bytes path)) }
    ensures fault { IfErr result (IsReadFaultOf (IsModuleFileOf folder.now)) }
{
    let mut left = Some(folder);
    'places: while let Some(place) = left {
        if let Some(path) = module_at(rt, place)? {
            return Ok(path);
        }
        left = folder_above(place);
    }
    module_here(rt, folder)
}

/// The path that the file of the current folder says, where the name of this one is relative; else an empty text.
fn module_here<R: Files + AllocGlobal>(rt: &R, folder: &str) -> Result<String, Fault>
    ensures module { IfOk result (λ path. IsModulePath folder.now (string_bytes path)) }
    ensures fault { IfErr result (IsReadFaultOf (IsModuleFileOf folder.now)) }
{
    if !is_relative(folder) {
        return Ok(String::new(rt.alloc()));
    }
    match module_at(rt, CURRENT_FOLDER)? {
        Some(path) => Ok(path),
        None => Ok(String::new(rt.alloc())),
    }
}

/// Whether the name is that of a folder below the current one.
fn is_relative(folder: &str) -> bool
    ensures { result ≡ is_relative folder.now }
{
    !folder.as_bytes().starts_with(b"/")
}

/// The path that the file of this folder says, if the file is there.
fn module_at<R: Files + AllocGlobal>(rt: &R, place: &str) -> Result<Option<String>, Fault>
    ensures said { IfOk result (λ said. IfSome said (λ path. IsSaidIn place.now (string_bytes path))) }
    ensures fault { IfErr result (IsReadFaultOf (λ name. name ≡ module_file place.now)) }
{
    let name = source_name(rt.alloc(), place, MODULE_FILE)?;
    match read_if_there(rt, name.as_str())? {
        Some(file) => Ok(Some(path_said(rt, &file)?)),
        None => Ok(None),
    }
}

/// The folder above this one, by its name.
fn folder_above(folder: &str) -> Option<&str>
    ensures above { IfSome result (λ place. IsAbove folder.now place.now) }
    ensures shorter { IfSome result (λ place. length place.now < length folder.now) }
{
    let (above, _) = folder.rsplit_once('/')?;
    Some(above)
}

/// The file of this name, if it is there, and no folder.
fn read_if_there<'a, R: Files + AllocGlobal>(
    rt: &R,
    name: &'a str,
) -> Result<Option<ReadFile<'a>>, Fault>
    ensures read { IfOk result (λ read. IfSome read (λ file. name_read file ≡ name.now)) }
    ensures fault { IfErr result (IsReadFaultOf (λ told. told ≡ name.now)) }
{
    match fs::metadata(rt, name) {
        Ok(stands) if stands.is_file() => Ok(Some(read_file(rt, name)?)),
        Ok(_) => Ok(None),
        Err(error) if error.kind() == ErrorKind::NotFound => Ok(None),
        Err(error) => {
            let name = escaped(rt.alloc(), name)?;
            Err(fault::reading(&error, name))
        }
    }
}

/// The path that the file says.
fn path_said<R: Files + AllocGlobal>(rt: &R, file: &ReadFile) -> Result<String, Fault>
    ensures path { IfOk result (λ path. string_bytes path ≡ module_in (bytes_read file.now)) }
    ensures fault { IfErr result (IsReadFaultOf (λ name. name ≡ name_read file.now)) }
{
    match str::from_utf8(module_in(file.bytes())) {
        Ok(path) => Ok(String::from_str(rt.alloc(), path)?),
        Err(_) => Err(Fault::CannotRead(escaped(rt.alloc(), file.name())?)),
    }
}

/// The path of a module that this text of a file `go.mod` says, or nothing.
fn module_in(text: &[u8]) -> &[u8]
    ensures { result.now ≡ module_in text.now }
{
    let mut rest = text;
    'lines: while !rest.is_empty() {
        let (line, after) = cut(rest, Stop::LineEnd);
        if let Some(path) = module_of(line) {
            return path;
        }
        rest = after;
    }
    rest
}

/// The path that a line says, where its first word is `module`.
fn module_of(line: &[u8]) -> Option<&[u8]>
    ensures { option_map (λ path. path.now) result ≡ module_of line.now }
{
    let (word, rest) = first_word(line);
    if word == b"module".as_slice() {
        let (path, _) = first_word(rest);
        Some(path_in(path))
    } else {
        None
    }
}

/// The path that a word says.
fn path_in(word: &[u8]) -> &[u8]
    ensures { result.now ≡ path_in word.now }
{
    if word.starts_with(b"//") {
        &word[..0]
    } else if is_quoted(word) {
        &word[1..word.len() - 1]
    } else {
        word
    }
}

/// Whether the word stands between two quotes.
fn is_quoted(word: &[u8]) -> bool
    ensures quoted { result ≡ is_quoted word.now }
    ensures long { IsTrue result → 2 ≤ length word.now }
{
    is_between(b"\"", word) || is_between(b"`", word)
}

/// Whether the word stands between two of these quotes.
fn is_between(quote: &[u8], word: &[u8]) -> bool
    ensures { result ≡ is_between quote.now word.now }
{
    word.len() >= 2 && word.starts_with(quote) && word.ends_with(quote)
}

/// The first word of the line, and what stands behind it.
fn first_word(line: &[u8]) -> (&[u8], &[u8])
    ensures word { result.0.now ≡ first_word line.now }
    ensures rest { result.1.now ≡ behind_word line.now }
{
    let (_, words) = line.split_at(first_stop(line, Stop::Word));
    cut(words, Stop::Blank)
}

/// At which bytes a text is cut.
#[derive(Clone, Copy)]
pub(crate) enum Stop {
    /// The end of a line.
    LineEnd,
    /// White space inside a line.
    Blank,
    /// All but that.
    Word,
}

/// What stands before the first of these bytes, and what stands behind it.
fn cut(bytes: &[u8], stop: Stop) -> (&[u8], &[u8])
    ensures before { result.0.now ≡ before_first (stops stop) bytes.now }
    ensures behind { result.1.now ≡ after_first (stops stop) bytes.now }
    ensures shorter { length result.1.now ≤ length bytes.now - 1 }
{
    let (before, rest) = bytes.split_at(first_stop(bytes, stop));
    if rest.is_empty() {
        return (before, rest);
    }
    let (_, behind) = rest.split_at(1);
    (before, behind)
}

/// How many bytes stand before the first of these.
fn first_stop(bytes: &[u8], stop: Stop) -> usize
    ensures place { result ≡ position_or_len (stops stop) bytes.now }
    ensures within { result ≤ length bytes.now }
{
    for (index, &byte) in bytes.iter().enumerate() {
        if is_stop(stop, byte) {
            return index;
        }
    }
    bytes.len()
}

/// Whether the byte is one of these.
fn is_stop(stop: Stop, byte: u8) -> bool
    ensures { result ≡ stops stop byte }
{
    match stop {
        Stop::LineEnd => byte == b'\n',
        Stop::Blank => is_blank(byte),
        Stop::Word => !is_blank(byte),
    }
}

/// Whether the byte is white space inside a line.
fn is_blank(byte: u8) -> bool
    ensures { result ≡ stops Stop.Blank byte }
{
    byte == b' ' || byte == b'\t' || byte == b'\r'
}
