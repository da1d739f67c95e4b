//! Files that are read or written whole.

ghost use Rattle.std.specs.Prelude.{◌≡◌, IfErr, IfOk, OnOk, codes, string_bytes};
ghost use Rattle.std.specs.Fs.{file_type, IsFile};
ghost use Rattle.std.specs.Io.KnownBytes.{Appends};
ghost use Rattle.folders.specs.Names.{IsNameIn};
ghost use Rattle.folders.specs.ReadFaults.{IsReadFaultOf};
ghost use Rattle.folders.specs.ReadFiles.{bytes_read, name_read};
ghost use Rattle.folders.specs.WrittenFiles.{reach_of, HoldsAll};

use crate::fault::{self, Fault};
use crate::names::escaped;
use std::alloc::{AllocError, Global};
use std::fs::{self, File, Metadata, OpenFile, OpenOptions};
use std::io::{self, ErrorKind, Read, Write};
use std::path::{Path, PathBuf};
use std::rt::Files;

/// A file that was read: its name, and all its bytes. Only the calls that read make one, so that nobody else can tell
/// of a file that was not read. The name `-` may stand for the standard input.
#[derive(Debug, Drop)]
pub struct ReadFile<'a> {
    name: &'a str,
    bytes: Vec<u8>,
}

impl<'a> ReadFile<'a> {
    /// Its name.
    pub fn name(&self) -> &str
        ensures { result.now ≡ name_read self.now }
    {
        self.name
    }

    /// All its bytes.
    pub fn bytes(&self) -> &[u8]
        ensures { result.now ≡ bytes_read self.now }
    {
        &self.bytes
    }
}

/// Reads all bytes of the file of this name.
///
/// # Errors
///
/// The file can't be read, or memory was refused.
pub fn read_file<'a, R: Files + AllocGlobal>(rt: &R, name: &'a str) -> Result<ReadFile<'a>, Fault>
    ensures read { IfOk result (λ file. name_read file ≡ name.now) }
    ensures fault { IfErr result (IsReadFaultOf (λ told. told ≡ name.now)) }
{
    match fs::read(rt, name) {
        Ok(bytes) => Ok(ReadFile { name, bytes }),
        Err(error) => {
            let name = escaped(rt.alloc(), name)?;
            Err(fault::reading(&error, name))
        }
    }
}

/// Reads all bytes of the standard input, which is given here, as those of the file of this name.
///
/// # Errors
///
/// It can't be read, or memory was refused.
pub(crate) fn read_stream<'a, I: Read>(
    alloc: Global,
    input: &mut I,
    name: &'a str,
) -> Result<ReadFile<'a>, Fault>
    ensures read { IfOk result (λ file. name_read file ≡ name.now) }
    ensures fault { IfErr result (IsReadFaultOf (λ told. told ≡ codes "standard input")) }
{
    let mut bytes = Vec::new(alloc);
    match input.read_to_end(&mut bytes) {
        Ok(_) => Ok(ReadFile { name, bytes }),
        Err(error) => {
            let told = String::from_str(alloc, "standard input")?;
            Err(fault::reading(&error, told))
        }
    }
}

/// A file that is to be written: its name, and how the line of a fault names it. So that fault takes no more memory.
#[derive(Debug, Drop)]
pub struct UnwrittenFile<'a> {
    name: &'a str,
    escaped: String,
}

impl<'a> UnwrittenFile<'a> {
    /// The file of this name.
    ///
    /// # Errors
    ///
    /// Memory was refused.
    pub fn named(alloc: Global, name: &'a str) -> Result<UnwrittenFile<'a>, AllocError>
        ensures name { IfOk result (λ file. file.name.now ≡ name.now) }
        ensures told { IfOk result (λ file. IsNameIn name.now (string_bytes file.escaped)) }
    {
        let escaped = escaped(alloc, name)?;
        Ok(UnwrittenFile { name, escaped })
    }
}

/// How far a file is brought before it has its name.
#[derive(Clone, Copy, Debug, Drop, PartialEq, Eq)]
pub enum Reach {
    /// Up to the disk: it is there also where the machine stops.
    Disk,
    /// To the system alone, which brings it to the disk in its own time. Every program reads all of it at once.
    System,
}

/// A file that was written: its name, all that it was given, and how far it was brought. Only `write_file` and
/// `write_file_without_sync` make one, so that nobody else can tell of a file that was not written.
#[derive(Debug, Drop)]
pub struct WrittenFile<'a> {
    name: &'a str,
    text: String,
    reach: Reach,
}

/// Writes the file, so that it has this text and nothing else, or leaves what stands under its name as it was. A pipe,
/// a device or another special file is written as it stands. It waits for the disk.
///
/// # Errors
///
/// The file can't be written.
pub fn write_file<'a, R: Files + AllocGlobal>(
    rt: &R,
    file: UnwrittenFile<'a>,
    text: String,
) -> Result<WrittenFile<'a>, Fault>
    ensures written { IfOk result (HoldsAll file.entry text) }
    ensures reach { IfOk result (λ written. reach_of written ≡ Reach.Disk) }
    ensures fault { IfErr result (λ fault. fault ≡ Fault.CannotWriteFile file.entry.escaped) }
{
    write_up_to(rt, Reach::Disk, file, text)
}

/// Writes the file as `write_file`, but doesn't wait for the disk. So it is for a file that is read at once, and made
/// again where it is lost: where the machine stops, it may be there without its text.
///
/// # Errors
///
/// The file can't be written. A disk that tells only later that it is full is not heard.
pub fn write_file_without_sync<'a, R: Files + AllocGlobal>(
    rt: &R,
    file: UnwrittenFile<'a>,
    text: String,
) -> Result<WrittenFile<'a>, Fault>
    ensures written { IfOk result (HoldsAll file.entry text) }
    ensures reach { IfOk result (λ written. reach_of written ≡ Reach.System) }
    ensures fault { IfErr result (λ fault. fault ≡ Fault.CannotWriteFile file.entry.escaped) }
{
    write_up_to(rt, Reach::System, file, text)
}

/// Writes the file, and brings it so far.
fn write_up_to<'a, R: Files + AllocGlobal>(
    rt: &R,
    reach: Reach,
    file: UnwrittenFile<'a>,
    text: String,
) -> Result<WrittenFile<'a>, Fault>
    ensures written { IfOk result (HoldsAll file.entry text) }
    ensures reach { IfOk result (λ written. reach_of written ≡ reach) }
    ensures fault { IfErr result (λ fault. fault ≡ Fault.CannotWriteFile file.entry.escaped) }
{
    let UnwrittenFile { name, escaped } = file;
    match write_text(rt, reach, name, text.as_bytes()) {
        Ok(()) => Ok(WrittenFile { name, text, reach }),
        Err(_) => Err(Fault::CannotWriteFile(escaped)),
    }
}

/// Writes this text under the name, by what stands there.
fn write_text<R: Files + AllocGlobal>(
    rt: &R,
    reach: Reach,
    name: &str,
    text: &[u8],
) -> io::Result<()> {
    match fs::metadata(rt, name) {
        Ok(stands) if stands.is_file() => {
            let path = behind_links(rt, name)?;
            replace(rt, reach, path.as_path().as_str(), text)
        }
        Ok(stands) => write_special(rt, name, &stands, text),
        Err(error) if error.kind() == ErrorKind::NotFound => replace(rt, reach, name, text),
        Err(error) => Err(error),
    }
}

/// The path of the file to which a link of this name leads, or this name where no link stands there.
fn behind_links<R: Files + AllocGlobal>(rt: &R, name: &str) -> io::Result<PathBuf> {
    if fs::symlink_metadata(rt, name)?.is_symlink() {
        fs::canonicalize(rt, name)
    } else {
        Ok(PathBuf::from_str(rt.alloc(), name)?)
    }
}

/// Writes to what stands under the name and is no regular file. A folder can't be opened so.
fn write_special<R: Files>(rt: &R, name: &str, stands: &Metadata, text: &[u8]) -> io::Result<()>
    requires { IsFile (file_type stands.now) → ⊥ }
{
    let mut file = OpenOptions::new().write(true).open(rt, name)?;
    put(&mut file, text)
}

/// Puts a file with this text in the place of that of the name: it is written beside it, and then has its name. Where
/// one of these fails, it is removed, and the place is as it was.
fn replace<R: Files + AllocGlobal>(
    rt: &R,
    reach: Reach,
    name: &str,
    text: &[u8],
) -> io::Result<()> {
    let Beside { mut file, path } = new_beside(rt, name)?;
    let placed = match fill(&mut file, reach, text) {
        Ok(()) => fs::rename(rt, path.as_path(), name),
        Err(error) => Err(error),
    };
    if placed.is_err() {
        let _ = fs::remove_file(rt, path.as_path());
    }
    placed
}

/// A new file, with its path.
#[derive(Drop)]
struct Beside<F> {
    file: F,
    path: PathBuf,
}

/// So many names are tried for a new file.
const MOST_NAMES: u32 = 10_000;

/// A new file in the folder of the file of this name, under a name that stood for nothing.
fn new_beside<R: Files + AllocGlobal>(rt: &R, name: &str) -> io::Result<Beside<R::File>> {
    for number in 0..MOST_NAMES {
        let own = format!(in rt.alloc(); "ctxvet-{number}.tmp")?;
        let path = Path::new(name).with_file_name(rt.alloc(), own.as_str())?;
        match File::create_new(rt, path.as_path()) {
            Ok(file) => return Ok(Beside { file, path }),
            Err(error) if error.kind() == ErrorKind::AlreadyExists => {}
            Err(error) => return Err(error),
        }
    }
    Err(io::Error::from(ErrorKind::AlreadyExists))
}

/// Writes the text to the open file, and brings it so far.
fn fill<F: Write + OpenFile>(file: &mut F, reach: Reach, text: &[u8]) -> io::Result<()>
    ensures { OnOk result (Appends (F.contents file.old) (F.contents file.new) text.now) }
{
    put(file, text)?;
    match reach {
        Reach::Disk => file.sync_all(),
        Reach::System => Ok(()),
    }
}

/// Writes the text to the open file.
fn put<F: Write>(file: &mut F, text: &[u8]) -> io::Result<()>
    ensures { OnOk result (Appends (F.contents file.old) (F.contents file.new) text.now) }
{
    file.write_all(text)?;
    file.flush()
}
