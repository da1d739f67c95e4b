//! What a run takes of the process that it runs in, beside files.

ghost use Rattle.std.specs.Prelude.{◌≡◌, IfErr, IfOk, codes};
ghost use Rattle.folders.specs.ReadFaults.{IsReadFaultOf};
ghost use Rattle.folders.specs.ReadFiles.{input_name, name_read};
ghost use Rattle.folders.specs.declared.fault.Fault.TheVariants.{OutOfMemory};

use crate::fault::{self, Fault};
use crate::whole_files::{ReadFile, read_file, read_stream};
use std::alloc::{AllocError, Global};
use std::env::{self, VarError};
use std::fs;
use std::io::{self, ErrorKind, Read, Stdin};
use std::rt::Files;

/// A process: its standard input, the folder in which it runs, and the file of its program.
pub trait Surroundings {
    type Input: Read + Drop;

    fn standard_input(&self) -> Self::Input;

    /// The absolute name of the current folder.
    ///
    /// # Errors
    ///
    /// The system doesn't tell it, it is not UTF-8, or memory was refused.
    fn current_folder(&self, alloc: Global) -> io::Result<String>;

    /// The absolute name that the environment has of the current folder, as `PWD`, where it leads to that folder. It
    /// may go through links.
    ///
    /// # Errors
    ///
    /// The system doesn't tell where it leads, or memory was refused.
    fn named_folder(&self, alloc: Global) -> io::Result<Option<String>>;

    /// The absolute name of the program's own file.
    ///
    /// # Errors
    ///
    /// The system doesn't tell it, it is not UTF-8, or memory was refused.
    fn own_file(&self, alloc: Global) -> io::Result<String>;
}

impl Surroundings for HostRuntime {
    type Input = Stdin;

    fn standard_input(&self) -> Stdin {
        self.stdin()
    }

    fn current_folder(&self, _alloc: Global) -> io::Result<String> {
        Ok(env::current_dir(self)?.into_string())
    }

    fn named_folder(&self, _alloc: Global) -> io::Result<Option<String>> {
        let named = match env::var(self, "PWD") {
            Ok(named) => named,
            Err(VarError::OutOfMemory) => return Err(io::Error::from(AllocError)),
            Err(_) => return Ok(None),
        };
        if !named.starts_with("/") {
            return Ok(None);
        }
        let leads = fs::canonicalize(self, named.as_str())?;
        let here = env::current_dir(self)?;
        let is_here = leads.as_path().as_str() == here.as_path().as_str();
        Ok(if is_here { Some(named) } else { None })
    }

    fn own_file(&self, _alloc: Global) -> io::Result<String> {
        Ok(env::current_exe(self)?.into_string())
    }
}

/// The absolute name of the current folder, or none, where the system doesn't tell it.
///
/// # Errors
///
/// Memory was refused.
pub fn current_folder<R: AllocGlobal + Surroundings>(rt: &R) -> Result<Option<String>, Fault>
    ensures { IfErr result (λ fault. fault ≡ OutOfMemory) }
{
    match rt.current_folder(rt.alloc()) {
        Ok(name) => Ok(Some(name)),
        Err(error) if error.kind() == ErrorKind::OutOfMemory => Err(Fault::OutOfMemory),
        Err(_) => Ok(None),
    }
}

/// The absolute name that the environment has of the current folder, where it leads there.
///
/// # Errors
///
/// Memory was refused.
pub fn named_folder<R: AllocGlobal + Surroundings>(rt: &R) -> Result<Option<String>, Fault>
    ensures { IfErr result (λ fault. fault ≡ OutOfMemory) }
{
    match rt.named_folder(rt.alloc()) {
        Ok(name) => Ok(name),
        Err(error) if error.kind() == ErrorKind::OutOfMemory => Err(Fault::OutOfMemory),
        Err(_) => Ok(None),
    }
}

/// The absolute name of the program's own file.
///
/// # Errors
///
/// The system doesn't tell it, or memory was refused.
pub fn own_file<R: AllocGlobal + Surroundings>(rt: &R) -> Result<String, Fault>
    ensures { IfErr result (IsReadFaultOf (λ name. name ≡ codes "the program's own file")) }
{
    match rt.own_file(rt.alloc()) {
        Ok(name) => Ok(name),
        Err(error) => {
            let told = String::from_str(rt.alloc(), "the program's own file")?;
            Err(fault::reading(&error, told))
        }
    }
}

/// The word that stands for the standard input in place of a file's name.
const STANDARD_INPUT: &str = "-";

/// Reads all bytes of the file of this name, or of the standard input, where the name is `-`.
///
/// # Errors
///
/// It can't be read, or memory was refused.
pub fn read_file_or_input<'a, R: Files + AllocGlobal + Surroundings>(
    rt: &R,
    name: &'a str,
) -> Result<ReadFile<'a>, Fault>
    ensures read { IfOk result (λ file. name_read file ≡ name.now) }
    ensures fault { IfErr result (IsReadFaultOf (λ told. told ≡ input_name name.now)) }
{
    if name == STANDARD_INPUT {
        read_stream(rt.alloc(), &mut rt.standard_input(), name)
    } else {
        read_file(rt, name)
    }
}
