//! What a package is judged by.

ghost use Rattle.std.specs.Prelude.{◌≡◌, ℕ, Bool, List, IfOk, IfSome, None, Some, slice_get};
ghost use Rattle.one_package.specs.Judgments.{TellsAround};
ghost use Rattle.one_package.specs.ToldPackages.{IsMarked, IsToldIf, AreGrounds, AreMarkedGrounds};
ghost use Rattle.meaning.specs.TwoFunctions.{second_function};
ghost use Rattle.meaning_reports.specs.Loaded.{LoadedPackage as MeantPackage, Tables, trees_of};
ghost use Rattle.whole_packages.specs.LoadedViews.{TellsPackage};
ghost use Rattle.whole_packages.specs.WholeEntries.{second_view};

use crate::hands::{Alone, Hands};
use crate::judged::Around;
use crate::told_package::{Tellers, ToldPackage, tell_package};
use names::{names_of, second_function};
use report::Diagnostic;
use std::alloc::{AllocError, Global};
use whole_packages::{LoadedPackage, Second, whole_faults};

/// What a package is judged by.
#[derive(Drop)]
pub enum Grounds<'a> {
    /// It has faults as a whole, which are these, in no order. Nothing else of it is looked at.
    WholeFaults(Vec<Diagnostic<'a>>),
    /// It has none, and this was told of it.
    Told(ToldPackage<'a>),
}

/// What a package is judged by in which no function has the name of another. What its names mean is asked only where it
/// has no fault as a whole.
fn named_grounds<'a, H: Hands>(
    alloc: Global,
    loaded: &'a LoadedPackage,
    around: Around<'_, 'a>,
    tellers: &Tellers<'_, H>,
) -> Result<Grounds<'a>, H::Fault>
    ensures grounds { IfOk result (λ grounds. (ps : List MeantPackage) (tables : Tables) (i : ℕ) (p : MeantPackage)
        → slice_get ps i ≡ Some p → TellsPackage p loaded.now → TellsAround ps tables p around.entry
        → second_function (trees_of p) ≡ None
        → AreGrounds ps tables i p tellers.now.tells_all grounds) }
    ensures marked { IfOk result AreMarkedGrounds }
{
    let faults = whole_faults(alloc, loaded, None, around.unranked)?;
    if !faults.is_empty() {
        return Ok(Grounds::WholeFaults(faults));
    }
    let names = names_of(alloc, &loaded.trees, around.names)?;
    let told = tell_package(alloc, loaded, &names, around, tellers)?;
    Ok(Grounds::Told(told))
}

/// What a package is judged by in which a function has the name of an earlier one.
fn second_grounds<'a>(
    alloc: Global,
    loaded: &'a LoadedPackage,
    second: Second<'a>,
    around: Around<'_, 'a>,
) -> Result<Grounds<'a>, AllocError>
    ensures grounds { IfOk result (λ grounds. (ps : List MeantPackage) (tables : Tables) (i : ℕ) (p : MeantPackage)
        (tells_all : Bool) → slice_get ps i ≡ Some p → TellsPackage p loaded.now → TellsAround ps tables p around.entry
        → second_function (trees_of p) ≡ Some (second_view second.entry)
        → AreGrounds ps tables i p tells_all grounds) }
    ensures marked { IfOk result AreMarkedGrounds }
{
    let faults = whole_faults(alloc, loaded, Some(second), around.unranked)?;
    Ok(Grounds::WholeFaults(faults))
}

/// What a package is judged by: where it has no fault as a whole, what is told of all its files, or of those in which
/// something may be found.
///
/// # Errors
///
/// Memory was refused, or what else keeps these hands from it.
pub fn find_grounds<'a, H: Hands>(
    alloc: Global,
    loaded: &'a LoadedPackage,
    around: Around<'_, 'a>,
    tellers: &Tellers<'_, H>,
) -> Result<Grounds<'a>, H::Fault>
    ensures grounds { IfOk result (λ grounds. (ps : List MeantPackage) (tables : Tables) (i : ℕ) (p : MeantPackage)
        → slice_get ps i ≡ Some p → TellsPackage p loaded.now → TellsAround ps tables p around.entry
        → AreGrounds ps tables i p tellers.now.tells_all grounds) }
    ensures marked { IfOk result AreMarkedGrounds }
{
    match second_function(alloc, &loaded.trees)? {
        Some((tree, name)) => {
            let second = Second { tree, name };
            Ok(second_grounds(alloc, loaded, second, around)?)
        }
        None => named_grounds(alloc, loaded, around, tellers),
    }
}

/// What is told of a package and of all its files, unless it has a fault as a whole.
///
/// # Errors
///
/// Memory was refused.
pub fn tell_unless_faulty<'a>(
    alloc: Global,
    loaded: &'a LoadedPackage,
    around: Around<'_, 'a>,
) -> Result<Option<ToldPackage<'a>>, AllocError>
    ensures told { IfOk result (λ told. (ps : List MeantPackage) (tables : Tables) (i : ℕ) (p : MeantPackage)
        → slice_get ps i ≡ Some p → TellsPackage p loaded.now → TellsAround ps tables p around.entry
        → IsToldIf ps tables i p told) }
    ensures marked { IfOk result (λ told. IfSome told IsMarked) }
{
    let tellers = Tellers {
        hands: &Alone,
        tells_all: true,
    };
    match find_grounds(alloc, loaded, around, &tellers)? {
        Grounds::WholeFaults(_faults) => Ok(None),
        Grounds::Told(told) => Ok(Some(told)),
    }
}
