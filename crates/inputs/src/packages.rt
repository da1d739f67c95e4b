//! The packages that words of the command line name.

ghost use Rattle.std.specs.Prelude.{◌≡◌, IfErr, IfOk, true, false};
ghost use Rattle.command_line.specs.Words.{texts_of};
ghost use Rattle.inputs.specs.Packages.{AreNamed, AreRead, IsNamed, IsRead};
ghost use Rattle.inputs.specs.ReadingFaults.{IsOfPackages, IsWordFault, IsWordsFault};
ghost use Rattle.folders.specs.GoFiles.{IsOfFolder};
ghost use Rattle.folders.specs.ReadFaults.{IsReadFaultOf};

use folders::{Fault, escaped, read_folder, split_word};
use load::GivenPackage;
use std::alloc::Global;
use std::rt::Files;
use tree::Edition;

/// The package that a word `PATH=DIR` names: its import path, and the folder of its files.
#[derive(Clone, Copy, Debug)]
pub struct NamedPackage<'a> {
    pub path: &'a str,
    pub folder: &'a str,
}

/// The package that a word names.
fn package_of<'a>(alloc: Global, word: &'a str) -> Result<NamedPackage<'a>, Fault>
    ensures named { IfOk result (IsNamed word.now) }
    ensures fault { IfErr result (IsWordFault word.now) }
{
    match split_word(word) {
        Some((path, folder)) => Ok(NamedPackage { path, folder }),
        None => Err(Fault::BadPackage(escaped(alloc, word)?)),
    }
}

/// The packages that these words name, in their order.
///
/// # Errors
///
/// The first word that names none, or memory was refused.
pub fn all_named<'a>(alloc: Global, words: &[&'a str]) -> Result<Vec<NamedPackage<'a>>, Fault>
    ensures named { IfOk result (λ packages. AreNamed (texts_of words.now) packages.items) }
    ensures fault { IfErr result (IsWordsFault (texts_of words.now)) }
{
    let mut packages = Vec::new(alloc);
    for word in words {
        packages.push(package_of(alloc, word)?)?;
    }
    Ok(packages)
}

/// The package with the Go files of its folder, to be judged by this edition. The folder is kept where it has none.
fn read_package<R: Files + AllocGlobal>(
    rt: &R,
    edition: Edition,
    one: NamedPackage<'_>,
    empty: &mut Vec<String>,
) -> Result<GivenPackage, Fault>
    ensures read { IfOk result (IsRead edition one.entry) }
    ensures fault { IfErr result (IsReadFaultOf (IsOfFolder one.entry.folder.now)) }
{
    let sources = read_folder(rt, one.folder)?;
    if sources.is_empty() {
        empty.push(escaped(rt.alloc(), one.folder)?)?;
    }
    Ok(GivenPackage {
        path: String::from_str(rt.alloc(), one.path)?,
        edition,
        sources,
        imports: Vec::new(rt.alloc()),
    })
}

/// Whether a folder was asked for its files so far. Only `read_packages` asks, so that nobody else can tell of it.
#[derive(Clone, Copy, Debug)]
pub struct FoldersAsked {
    any: bool,
}

impl FoldersAsked {
    /// No folder was asked so far.
    pub fn none() -> FoldersAsked
        ensures { result.any ≡ false }
    {
        FoldersAsked { any: false }
    }
}

/// The packages with the Go files of their folders, in their order, to be judged by this edition. Folders that have no
/// Go file are kept.
///
/// # Errors
///
/// The first folder that can't be listed or file that can't be read, or memory was refused.
pub fn read_packages<R: Files + AllocGlobal>(
    rt: &R,
    edition: Edition,
    packages: &[NamedPackage<'_>],
    empty: &mut Vec<String>,
    folders: &mut FoldersAsked,
) -> Result<Vec<GivenPackage>, Fault>
    ensures read { IfOk result (λ given. AreRead edition packages.now given.items) }
    ensures fault { IfErr result (IsReadFaultOf (IsOfPackages packages.now)) }
    ensures asked { folders.new.any ≡ true }
{
    folders.any = true;
    let mut given = Vec::new(rt.alloc());
    for one in packages {
        given.push(read_package(rt, edition, *one, empty)?)?;
    }
    Ok(given)
}
