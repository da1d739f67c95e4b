//! The faults of the paths of a package's files, with the notes of their ways.

ghost use Rattle.std.specs.Prelude.{◌≡◌, ◌∷◌, ◌++◌, [], ℕ, IfOk, OnOk, List, Some, map, slice_get, false};
ghost use Rattle.body_ways.specs.ToldViews.{told_fault_view};
ghost use Rattle.bodies.specs.Bodies.{TellsBody};
ghost use Rattle.calls_flags.specs.FilesBodies.{TellAll, TellsWithCredits};
ghost use Rattle.calls_flags.specs.KnownCalls.{known_calls};
ghost use Rattle.explanations.specs.ToldViews.{ways_view};
ghost use Rattle.explanations.specs.Ways.{AddsTold, ArePackageWays, AreToldOf, TellWays};
ghost use Rattle.meaning.specs.BodyEvents.{bodies_of};
ghost use Rattle.meaning.specs.Mentions.{BodyPlace as MeantBody};
ghost use Rattle.meaning_packages.specs.CallsFlags.{FileWithCredits};
ghost use Rattle.meaning_reports.specs.Loaded.{LoadedPackage as MeantPackage, Tables};
ghost use Rattle.meaning_reports.specs.WholeFaults.{HasNoWholeFault};
ghost use Rattle.one_package.specs.Judgments.{TellsAround};
ghost use Rattle.one_package.specs.ToldPackages.{IsToldPackage};

use bodies::Body;
use body_ways::{ToldFault, told_faults};
use calls_flags::{FileBodies, KnownCalls, bodies_of_files, find_called};
use one_package::{Around, ToldPackage};
use std::alloc::{AllocError, Global};

/// Adds these faults.
fn add_all<'a>(more: Vec<ToldFault<'a>>, faults: &mut Vec<ToldFault<'a>>) -> Result<(), AllocError>
    ensures { OnOk result (faults.new.items ≡ faults.old.items ++ more.entry.items) }
{
    for fault in more {
        faults.push(fault)?;
    }
    Ok(())
}

/// Adds the faults of a body's paths, if they are followed.
fn add_body<'a>(
    alloc: Global,
    file: &FileBodies<'_, 'a>,
    calls: KnownCalls<'_, 'a>,
    body: &Body<'_, 'a>,
    faults: &mut Vec<ToldFault<'a>>,
) -> Result<(), AllocError>
    ensures { OnOk result ((number : ℕ) (f : FileWithCredits) → TellsWithCredits number f file.now
        → (b : MeantBody) → TellsBody number f.seen b body.now
        → AddsTold (known_calls calls.entry) f (b ∷ []) (map told_fault_view faults.old.items)
        (map told_fault_view faults.new.items)) }
{
    let Some(kept) = &body.graph else {
        return Ok(());
    };
    let more = told_faults(alloc, body, kept, &calls, &file.credits)?;
    add_all(more, faults)
}

/// The faults of the paths of a file's bodies.
fn file_faults<'a>(
    alloc: Global,
    file: &FileBodies<'_, 'a>,
    calls: KnownCalls<'_, 'a>,
) -> Result<Vec<ToldFault<'a>>, AllocError>
    ensures { IfOk result (λ faults. (number : ℕ) (f : FileWithCredits) → TellsWithCredits number f file.now
        → AreToldOf (known_calls calls.entry) f (bodies_of f.seen) (map told_fault_view faults.items)) }
{
    let mut faults: Vec<ToldFault<'a>> = Vec::new(alloc);
    for body in &file.bodies {
        add_body(alloc, file, calls, body, &mut faults)?;
    }
    Ok(faults)
}

/// The faults of the paths of each of these files.
fn files_faults<'a>(
    alloc: Global,
    files: &[FileBodies<'_, 'a>],
    calls: KnownCalls<'_, 'a>,
) -> Result<Vec<Vec<ToldFault<'a>>>, AllocError>
    ensures { IfOk result (λ ways. (fs : List FileWithCredits) → TellAll fs files.now
        → TellWays (known_calls calls.entry) fs (ways_view ways.items)) }
{
    let mut ways: Vec<Vec<ToldFault<'a>>> = Vec::new(alloc);
    for number in 0..files.len() {
        ways.push(file_faults(alloc, &files[number], calls)?)?;
    }
    Ok(ways)
}

/// The faults of the paths of each file of a package that was told of, with the notes of their ways.
///
/// # Errors
///
/// Memory was refused.
pub fn package_ways<'a>(
    alloc: Global,
    told: &ToldPackage<'a>,
    around: Around<'_, 'a>,
) -> Result<Vec<Vec<ToldFault<'a>>>, AllocError>
    ensures { IfOk result (λ ways. (ps : List MeantPackage) (tables : Tables) (i : ℕ) (p : MeantPackage)
        → slice_get ps i ≡ Some p → TellsAround ps tables p around.entry → HasNoWholeFault ps i
        → IsToldPackage ps tables p false told.now
        → ArePackageWays ps tables i (ways_view ways.items)) }
{
    let files = bodies_of_files(alloc, &told.files)?;
    let called = find_called(alloc, &told.signatures, &files, around.calls)?;
    let calls = KnownCalls {
        own: &called,
        imported: around.calls,
    };
    files_faults(alloc, &files, calls)
}
