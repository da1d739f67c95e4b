//! Packages that were loaded, beside what is declared of others.

ghost use Rattle.std.specs.Prelude.{◌<◌, ◌≡◌, [], length, map, IfErr, IfOk, IfSome, None};
ghost use Rattle.std.specs.List.{list_any};
ghost use Rattle.std.specs.Str.{bytes_eq};
ghost use Rattle.load.specs.LoadedBeside.{first_given, first_place, kept_path, IsLoadBeside, IsLoadFaultBeside, TellsGivenPath};
ghost use Rattle.declared_json.specs.DeclaredPackages.{package_of, packages_of};

use crate::packages::{GivenPackage, LoadFault, load, load_by_workers, release};
use declared_json::{DeclaredPackage, DeclaredPackages};
use std::alloc::Global;
use std::mem;
use std::thread::Threads;
use whole_packages::LoadedPackage;
use workers::Workers;

/// Packages that were loaded, and what is declared of others. It is let go by `release` alone.
pub struct Loaded {
    pub packages: Vec<LoadedPackage>,
    pub outside: DeclaredPackages,
}

fn is_given(packages: &[LoadedPackage], path: &str) -> bool
    ensures { result ≡ list_any (bytes_eq path.now) (map kept_path packages.now) }
{
    for one in packages {
        if path == one.path.as_str() {
            return true;
        }
    }
    false
}

/// The place of the first of these packages whose path one of those has that were loaded.
fn first_given(packages: &[LoadedPackage], outside: &[DeclaredPackage]) -> Option<usize>
    ensures place { result ≡ first_place 0 (map kept_path packages.now) (map package_of outside.now) }
    ensures within { IfSome result (λ place. place < length outside.now) }
{
    for (place, entry) in outside.iter().enumerate() {
        if is_given(packages, entry.path.as_str()) {
            return Some(place);
        }
    }
    None
}

impl Loaded {
    /// These packages, where nothing is declared.
    pub fn alone(alloc: Global, packages: Vec<LoadedPackage>) -> Loaded
        ensures packages { result.packages ≡ packages }
        ensures outside { packages_of result.outside ≡ [] }
    {
        Loaded {
            packages,
            outside: DeclaredPackages {
                packages: Vec::new(alloc),
            },
        }
    }

    /// The same packages with what is declared, in place of what was declared before. It takes no memory.
    ///
    /// # Errors
    ///
    /// Something is declared of a package that is one of these: the first such path, and all as it was.
    pub fn with_outside(self, outside: DeclaredPackages) -> Result<Loaded, (LoadFault, Loaded)>
        ensures packages { IfOk result (λ loaded. loaded.packages ≡ self.packages) }
        ensures outside { IfOk result (λ loaded. loaded.outside ≡ outside) }
        ensures apart { IfOk result
            (λ loaded. first_given (map kept_path self.packages.items) (packages_of outside) ≡ None) }
        ensures fault { IfErr result (λ back.
            TellsGivenPath (first_given (map kept_path self.packages.items) (packages_of outside)) back.0) }
        ensures same { IfErr result (λ back. back.1 ≡ self) }
    {
        match first_given(&self.packages, &outside.packages) {
            Some(place) => {
                let mut outside = outside;
                let DeclaredPackage { path, functions } = outside.packages.swap_remove(place);
                drop(functions);
                Err((LoadFault::NamesGiven(path), self))
            }
            None => {
                let Loaded {
                    packages,
                    outside: before,
                } = self;
                drop(before);
                Ok(Loaded { packages, outside })
            }
        }
    }

    /// Lets it go. In the crates above packages are only borrowed and handed on, so that how a tree is let go need not
    /// be proved there.
    pub fn release(self) {
        let Loaded { packages, outside } = self;
        release(packages);
        drop(outside);
    }
}

/// What becomes of packages that nobody needs any more. A library lets them go (`LetGo`). A program that is about to
/// end may leave them (`ToTheEnd`).
pub trait Leave {
    /// Takes the packages.
    fn leave(loaded: Loaded);
}

/// They are let go.
#[derive(Clone, Copy)]
pub struct LetGo;

impl Leave for LetGo {
    fn leave(loaded: Loaded) {
        loaded.release();
    }
}

/// They are left to the end of the process, which lets all memory go at once. No library chooses this. It stands here,
/// since whoever leaves trees has to show how they could be let go, and here that is shown already.
#[derive(Clone, Copy)]
pub struct ToTheEnd;

impl Leave for ToTheEnd {
    fn leave(loaded: Loaded) {
        let Loaded { packages, outside } = loaded;
        mem::forget(packages);
        mem::forget(outside);
    }
}

/// These packages beside what is declared of others. Where it is declared of one of them, they are let go.
fn beside(
    alloc: Global,
    packages: Vec<LoadedPackage>,
    outside: DeclaredPackages,
) -> Result<Loaded, LoadFault>
    ensures packages { IfOk result (λ loaded. loaded.packages ≡ packages) }
    ensures outside { IfOk result (λ loaded. loaded.outside ≡ outside) }
    ensures apart { IfOk result
        (λ loaded. first_given (map kept_path packages.items) (packages_of outside) ≡ None) }
    ensures fault { IfErr result
        (TellsGivenPath (first_given (map kept_path packages.items) (packages_of outside))) }
{
    match Loaded::alone(alloc, packages).with_outside(outside) {
        Ok(loaded) => Ok(loaded),
        Err((fault, loaded)) => {
            loaded.release();
            Err(fault)
        }
    }
}

/// As `load`, with what is declared of other packages.
///
/// # Errors
///
/// As `load`; after these faults, something is declared of a package that is given.
pub fn load_beside(
    alloc: Global,
    given: Vec<GivenPackage>,
    outside: DeclaredPackages,
) -> Result<Loaded, LoadFault>
    ensures loaded { IfOk result (IsLoadBeside given.items (packages_of outside)) }
    ensures fault { IfErr result (IsLoadFaultBeside given.items (packages_of outside)) }
{
    let packages = load(alloc, given)?;
    beside(alloc, packages, outside)
}

/// As `load_by_workers`, with what is declared of other packages.
///
/// # Errors
///
/// As `load_beside`.
pub fn load_beside_by_workers<R: Threads + Sync>(
    rt: &R,
    alloc: Global,
    given: Vec<GivenPackage>,
    outside: DeclaredPackages,
    workers: Workers,
) -> Result<Loaded, LoadFault>
    ensures loaded { IfOk result (IsLoadBeside given.items (packages_of outside)) }
    ensures fault { IfErr result (IsLoadFaultBeside given.items (packages_of outside)) }
{
    let packages = load_by_workers(rt, alloc, given, workers)?;
    beside(alloc, packages, outside)
}
