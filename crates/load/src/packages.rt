//! All packages of a run.

ghost use Rattle.std.specs.Prelude.{◌≡◌, [], IfOk, IfErr, None, OnOk, map};
ghost use Rattle.std.specs.List.{list_any, AllZip};
ghost use Rattle.std.specs.Vec.Iter.{into_iter_items};
ghost use Rattle.load.specs.Ahead.{files_of, AreReadAhead};
ghost use Rattle.load.specs.GivenPackages.{entry_of, first_repeated, has_many_files, has_too_many, path_of, AreInOrder, AreLoadable, IsByName, IsLoad, IsLoadFault, IsReadAs, IsRepeated};

use crate::ahead::{Ahead, nothing_ahead, read_ahead};
use crate::meant::MeantImport;
use crate::package::{by_name, load_package};
use indexmap::IndexMap;
use lexer::Source;
use std::alloc::{AllocError, Global};
use std::thread::Threads;
use tree::Edition;
use whole_packages::LoadedPackage;
use workers::Workers;

/// The most packages of one run.
pub const MOST_PACKAGES: usize = 10_000;

/// The most files of one package.
pub const MOST_FILES: usize = u32::MAX as usize;

/// A package that is to be loaded: its import path, the edition by which it is judged, its Go files, and what is said
/// of the paths of their imports, where of equal written paths the first counts.
#[derive(Debug, Drop)]
pub struct GivenPackage {
    pub path: String,
    pub edition: Edition,
    pub sources: Vec<Source>,
    pub imports: Vec<MeantImport>,
}

/// The same but for the path.
#[derive(Drop)]
pub struct PackageFiles {
    pub edition: Edition,
    pub sources: Vec<Source>,
    pub imports: Vec<MeantImport>,
}

/// Why packages can't be loaded.
#[derive(Debug, Drop)]
pub enum LoadFault {
    /// There are more packages, or more files of one package, than are loaded in one run.
    TooMany,
    /// This is the first path that comes a second time.
    TwoPackages(String),
    /// Something is declared of the package of this path, which is given. It is the first such path.
    NamesGiven(String),
    /// Memory was refused.
    OutOfMemory,
}

impl From<AllocError> for LoadFault {
    ghost use Rattle.load.specs.declared.packages.LoadFault.TheVariants.{OutOfMemory};

    ghost from_gives = { λ _ fault. fault ≡ OutOfMemory };

    fn from(_error: AllocError) -> LoadFault {
        LoadFault::OutOfMemory
    }
}

fn has_many_files(given: &GivenPackage) -> bool
    ensures { result ≡ has_many_files given.now }
{
    MOST_FILES < given.sources.len()
}

fn some_has_many_files(given: &[GivenPackage]) -> bool
    ensures { result ≡ list_any has_many_files given.now }
{
    for one in given {
        if has_many_files(one) {
            return true;
        }
    }
    false
}

/// Whether there are more packages, or more files of one package, than are loaded in one run.
fn has_too_many(given: &[GivenPackage]) -> bool
    ensures { result ≡ has_too_many given.now }
{
    MOST_PACKAGES < given.len() || some_has_many_files(given)
}

/// The packages by their paths, in the order in which they are given.
fn by_path(
    alloc: Global,
    given: Vec<GivenPackage>,
) -> Result<IndexMap<String, PackageFiles>, LoadFault>
    ensures entries { IfOk result (λ packages. packages.entries ≡ map entry_of given.items) }
    ensures distinct { IfOk result (λ packages. first_repeated [] (map path_of given.items) ≡ None) }
    ensures err { IfErr result (IsRepeated given.items) }
{
    let mut packages = IndexMap::new(alloc);
    for GivenPackage {
        path,
        edition,
        sources,
        imports,
    } in given {
        if packages.contains_key(&path) {
            return Err(LoadFault::TwoPackages(path));
        }
        let files = PackageFiles {
            edition,
            sources,
            imports,
        };
        if packages.insert(path, files).is_err() {
            return Err(LoadFault::OutOfMemory);
        }
    }
    Ok(packages)
}

/// Each of these packages, with its files in the order of their names.
fn order_files(
    alloc: Global,
    packages: IndexMap<String, PackageFiles>,
) -> Result<Vec<GivenPackage>, AllocError>
    ensures { IfOk result (λ ordered. AllZip IsByName packages.entries ordered.items) }
{
    let mut ordered = Vec::new(alloc);
    for (path, files) in packages {
        let PackageFiles {
            edition,
            sources,
            imports,
        } = files;
        let sources = by_name(sources)?;
        ordered.push(GivenPackage {
            path,
            edition,
            sources,
            imports,
        })?;
    }
    Ok(ordered)
}

/// The packages in the order of their paths, and their files in that of their names.
fn in_order(
    alloc: Global,
    packages: IndexMap<String, PackageFiles>,
) -> Result<Vec<GivenPackage>, AllocError>
    ensures { IfOk result (λ ordered. AreInOrder packages.entries ordered.items) }
{
    let mut by_path = packages;
    by_path.sort_keys()?;
    order_files(alloc, by_path)
}

/// The same, unless there are too many or two of one path.
fn ordered(alloc: Global, given: Vec<GivenPackage>) -> Result<Vec<GivenPackage>, LoadFault>
    ensures ordered { IfOk result (λ ordered. AreInOrder (map entry_of given.items) ordered.items) }
    ensures can_be_loaded { OnOk result (AreLoadable given.items) }
    ensures fault { IfErr result (IsLoadFault given.items) }
{
    if has_too_many(&given) {
        return Err(LoadFault::TooMany);
    }
    match by_path(alloc, given) {
        Ok(packages) => match in_order(alloc, packages) {
            Ok(ordered) => Ok(ordered),
            Err(_) => Err(LoadFault::OutOfMemory),
        },
        Err(fault) => Err(fault),
    }
}

/// Each of these packages, as its files are read. What is not there of those that were read ahead is read here.
fn load_all(
    alloc: Global,
    packages: Vec<GivenPackage>,
    ahead: Ahead,
) -> Result<Vec<LoadedPackage>, AllocError>
    requires { AreReadAhead (files_of packages.items) (into_iter_items ahead) }
    ensures { IfOk result (λ loaded. AllZip IsReadAs packages.items loaded.items) }
{
    let mut ahead = ahead;
    let mut loaded = Vec::new(alloc);
    for one in packages {
        loaded.push(load_package(alloc, one, &mut ahead)?)?;
    }
    Ok(loaded)
}

/// The packages in the order of their paths, byte by byte, as their files are read. A file without a tree refuses
/// nothing.
///
/// # Errors
///
/// There are more than 10,000 packages, or more than 4,294,967,295 files of one; two packages have one path; or memory
/// was refused. This is the order in which it is looked for them.
pub fn load(alloc: Global, given: Vec<GivenPackage>) -> Result<Vec<LoadedPackage>, LoadFault>
    ensures loaded { IfOk result (λ loaded. IsLoad given.items loaded.items) }
    ensures can_be_loaded { OnOk result (AreLoadable given.items) }
    ensures fault { IfErr result (IsLoadFault given.items) }
{
    let packages = ordered(alloc, given)?;
    let ahead = nothing_ahead(alloc, &packages);
    Ok(load_all(alloc, packages, ahead)?)
}

/// As `load`, where so many threads read the files of all packages, the one that calls among them. With one worker no
/// thread is started. Where a thread can't be started, the others do its work.
///
/// # Errors
///
/// As `load`.
pub fn load_by_workers<R: Threads + Sync>(
    rt: &R,
    alloc: Global,
    given: Vec<GivenPackage>,
    workers: Workers,
) -> Result<Vec<LoadedPackage>, LoadFault>
    ensures loaded { IfOk result (λ loaded. IsLoad given.items loaded.items) }
    ensures can_be_loaded { OnOk result (AreLoadable given.items) }
    ensures fault { IfErr result (IsLoadFault given.items) }
{
    let packages = ordered(alloc, given)?;
    let ahead = read_ahead(rt, alloc, &packages, workers)?;
    Ok(load_all(alloc, packages, ahead)?)
}

/// Lets packages go. In the crates above they are only borrowed and handed on, so that how a tree is let go need not be
/// proved there.
pub fn release(packages: Vec<LoadedPackage>) {
    drop(packages);
}
