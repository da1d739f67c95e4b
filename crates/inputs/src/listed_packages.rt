//! The packages of a list.

ghost use Rattle.std.specs.Prelude.{◌≡◌, ◌++◌, ℕ, List, Option, Contains, IfErr, IfOk, OnOk, flat_map, map, option_map, string_bytes};
ghost use Rattle.inputs.specs.Packages.{has_files, meant_by, shown_files, unasked, AddListed, IsListed};
ghost use Rattle.folders.specs.ListedFiles.{shown_name};
ghost use Rattle.folders.specs.ReadFaults.{IsReadFaultOf};
ghost use Rattle.load.specs.MeantPaths.{meant_of};
ghost use Rattle.package_list.specs.ListedValues.{import_of, package_of};
ghost use Rattle.test_packages.specs.ReadPackages.{entry_of, own_import, own_imports};

use folders::{Fault, Surroundings, current_folder, escaped, named_folder, read_files, shown_name};
use load::{GivenPackage, MeantImport};
use package_list::{ListedImport, ListedPackage};
use std::alloc::{AllocError, Global};
use std::rt::Files;
use test_packages::{ReadPackage, means_another, without_suffix};
use tree::Edition;

/// Whether the entry of the package names some file.
fn has_files(read: &ReadPackage<'_>) -> bool
    ensures { result ≡ has_files (entry_of read.now) }
{
    0 < read.listed.files.len()
}

/// How a report names the files of the package, by the current folder.
fn shown_files(
    alloc: Global,
    here: Option<&str>,
    listed: &ListedPackage,
) -> Result<Vec<String>, AllocError>
    ensures { IfOk result (λ names. map string_bytes names.items
        ≡ shown_files (option_map (λ h. h.now) here.entry) (package_of listed.now)) }
{
    let mut names = Vec::new(alloc);
    for file in &listed.files {
        names.push(shown_name(alloc, here, listed.folder.as_str(), file.as_str())?)?;
    }
    Ok(names)
}

/// What the path of an import means.
fn meant_import(alloc: Global, import: &ListedImport) -> Result<MeantImport, AllocError>
    ensures { IfOk result (λ meant. meant_of meant ≡ meant_by (own_import (import_of import.now))) }
{
    Ok(MeantImport {
        written: String::from_str(alloc, import.written.as_str())?,
        meant: String::from_str(alloc, without_suffix(import.meant.as_str()))?,
    })
}

/// What paths of imports mean, where they mean others.
fn meant_imports(alloc: Global, imports: &[ListedImport]) -> Result<Vec<MeantImport>, AllocError>
    ensures { IfOk result (λ meant.
        map meant_of meant.items ≡ map meant_by (own_imports (map import_of imports.now))) }
{
    let mut meant = Vec::new(alloc);
    for import in imports {
        if means_another(import) {
            meant.push(meant_import(alloc, import)?)?;
        }
    }
    Ok(meant)
}

/// The package with its files, to be judged by this edition, and what the paths of their imports mean.
fn read_listed<R: Files + AllocGlobal>(
    rt: &R,
    edition: Edition,
    here: Option<&str>,
    read: &ReadPackage<'_>,
) -> Result<GivenPackage, Fault>
    ensures read { IfOk result (IsListed edition (option_map (λ h. h.now) here.entry) (entry_of read.now)) }
    ensures fault { IfErr result
        (IsReadFaultOf (Contains (shown_files (option_map (λ h. h.now) here.entry) (entry_of read.now)))) }
{
    let names = shown_files(rt.alloc(), here, read.listed)?;
    let sources = read_files(rt, names)?;
    Ok(GivenPackage {
        path: String::from_str(rt.alloc(), read.path)?,
        edition,
        sources,
        imports: meant_imports(rt.alloc(), &read.listed.imports)?,
    })
}

/// Whether the folder of some package begins with this name.
fn is_begun_by(folder: &str, packages: &[ReadPackage<'_>]) -> bool {
    for read in packages {
        if read.listed.folder.as_str().starts_with(folder) {
            return true;
        }
    }
    false
}

/// The current folder, by the name that the environment has of it, where the list was made by that. Where the system
/// doesn't tell the folder, names stand as the list has them.
fn folder_shown<R: AllocGlobal + Surroundings>(
    rt: &R,
    packages: &[ReadPackage<'_>],
) -> Result<Option<String>, Fault>
    ensures { IfErr result (λ fault. fault ≡ Fault.OutOfMemory) }
{
    match named_folder(rt)? {
        Some(named) if is_begun_by(named.as_str(), packages) => Ok(Some(named)),
        _ => Ok(current_folder(rt)?),
    }
}

/// The paths of the packages that were not asked for.
///
/// # Errors
///
/// Memory was refused.
pub fn unasked(alloc: Global, packages: &[ReadPackage<'_>]) -> Result<Vec<String>, AllocError>
    ensures { IfOk result (λ paths. map string_bytes paths.items ≡ unasked (map entry_of packages.now)) }
{
    let mut paths = Vec::new(alloc);
    for read in packages {
        if !read.is_asked {
            paths.push(String::from_str(alloc, read.path)?)?;
        }
    }
    Ok(paths)
}

/// Keeps the folder of a package without files for a note, if the package was asked for.
fn note_empty(
    alloc: Global,
    read: &ReadPackage<'_>,
    empty: &mut Vec<String>,
) -> Result<(), AllocError> {
    if read.is_asked {
        empty.push(escaped(alloc, read.listed.folder.as_str())?)?;
    }
    Ok(())
}

/// Adds the packages of a list with their files, in their order, to those that are given already. They are to be judged
/// by this edition. One without files is no package; its folder is kept.
///
/// # Errors
///
/// The first file that can't be read, or memory was refused.
pub fn add_listed<R: Files + AllocGlobal + Surroundings>(
    rt: &R,
    edition: Edition,
    packages: &[ReadPackage<'_>],
    given: &mut Vec<GivenPackage>,
    empty: &mut Vec<String>,
) -> Result<(), Fault>
    ensures added { OnOk result (AddListed edition (map entry_of packages.now) given.old.items given.new.items) }
    ensures fault { IfErr result (IsReadFaultOf (λ name. (here : Option (List ℕ))
        × Contains (flat_map (shown_files here) (map entry_of packages.now)) name)) }
{
    if packages.is_empty() {
        return Ok(());
    }
    let here = folder_shown(rt, packages)?;
    let here = here.as_deref();
    for read in packages {
        if has_files(read) {
            given.push(read_listed(rt, edition, here, read)?)?;
        } else {
            note_empty(rt.alloc(), read, empty)?;
        }
    }
    Ok(())
}
