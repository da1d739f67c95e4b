//! The list of packages that is read from a file or the standard input.

ghost use Rattle.std.specs.Prelude.{◌≢◌, ℕ, List, [], IfErr, IfNone, IfOk, IfSome, map};
ghost use Rattle.command_line.specs.Words.{option_texts};
ghost use Rattle.inputs.specs.PackageLists.{HasBadPath, IsListBytesFault, IsReadListFault};
ghost use Rattle.inputs.specs.Packages.{AreComplete, AreListedBy, HavePrintablePaths};
ghost use Rattle.package_list.specs.ListedValues.{package_of};
ghost use Rattle.package_list.specs.ListTexts.{AreListedIn, IsListFault};

use folders::{Fault, ReadFile, Surroundings, escaped, is_printable, read_file_or_input};
use package_list::{ListFault, ListedPackage, read_list};
use std::alloc::Global;
use std::rt::Files;

/// The packages of a list, and the file that was read for it, if one is named.
#[derive(Drop)]
pub struct Listed<'a> {
    pub file: Option<ReadFile<'a>>,
    pub packages: Vec<ListedPackage>,
}

/// The packages that the list of this name has, or none where no list is named. The standard input is named `-`.
///
/// # Errors
///
/// It can't be read; its bytes are no list of packages, or one of none, or one of which the go command could not load
/// all; a path has a control code; or memory was refused.
pub fn read_packages_of_list<'a, R: Files + AllocGlobal + Surroundings>(
    rt: &R,
    name: Option<&'a str>,
) -> Result<Listed<'a>, Fault>
    ensures listed { IfOk result
        (λ listed. AreListedBy (option_texts name.entry) listed.file (map package_of listed.packages.items)) }
    ensures fault { IfErr result (IsReadListFault (option_texts name.entry)) }
{
    match name {
        Some(name) => {
            let file = read_file_or_input(rt, name)?;
            let packages = packages_in(rt.alloc(), file.bytes())?;
            Ok(Listed {
                file: Some(file),
                packages,
            })
        }
        None => Ok(Listed {
            file: None,
            packages: Vec::new(rt.alloc()),
        }),
    }
}

/// The packages in the list that these bytes are.
fn packages_in(alloc: Global, bytes: &[u8]) -> Result<Vec<ListedPackage>, Fault>
    ensures listed { IfOk result (λ found. AreListedIn bytes.now (map package_of found.items)) }
    ensures complete { IfOk result (λ found. AreComplete (map package_of found.items)) }
    ensures some { IfOk result (λ found. map package_of found.items ≢ []) }
    ensures printable { IfOk result (λ found. HavePrintablePaths (map package_of found.items)) }
    ensures fault { IfErr result (IsListBytesFault bytes.now) }
{
    let packages = match read_list(alloc, bytes) {
        Ok(packages) => packages,
        Err(fault) => return Err(fault_of_list(alloc, fault)),
    };
    match first_bad_path(&packages) {
        Some(path) => Err(Fault::BadPackage(escaped(alloc, path)?)),
        None => Ok(packages),
    }
}

/// The first path of the packages that no line could name, since it has a control code.
fn first_bad_path(packages: &[ListedPackage]) -> Option<&str>
    ensures some { IfSome result (λ _. HasBadPath (map package_of packages.now)) }
    ensures none { IfNone result (HavePrintablePaths (map package_of packages.now)) }
{
    for listed in packages {
        if !is_printable(listed.path.as_str().as_bytes()) {
            return Some(listed.path.as_str());
        }
    }
    None
}

/// Why the bytes are no list, as the program tells it.
fn fault_of_list(alloc: Global, fault: ListFault) -> Fault
    ensures { (bytes : List ℕ) → IsListFault bytes fault → IsListBytesFault bytes result }
{
    match fault {
        ListFault::NotJson => Fault::ListNotJson,
        ListFault::WrongShape => Fault::ListWrongShape,
        ListFault::Incomplete(path) => match escaped(alloc, path.as_str()) {
            Ok(text) => Fault::ListIncomplete(text),
            Err(_) => Fault::OutOfMemory,
        },
        ListFault::Empty => Fault::ListIsEmpty,
        ListFault::OutOfMemory => Fault::OutOfMemory,
    }
}
