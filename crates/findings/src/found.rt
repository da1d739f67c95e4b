//! What is to be said of the files of a package.

ghost use Rattle.std.specs.Prelude.{◌↔◌, ℕ, List, IfOk, OnOk, Contains, map};
ghost use Rattle.bodies.specs.Bodies.{TellsBody};
ghost use Rattle.calls_flags.specs.FilesBodies.{TellAll, TellsWithCredits};
ghost use Rattle.calls_flags.specs.KnownCalls.{known_calls};
ghost use Rattle.credits.specs.CreditViews.{has};
ghost use Rattle.events.specs.ToldViews.{TellsFile};
ghost use Rattle.findings.specs.FoundEntries.{AddsEntries, IsEntryOf, IsPassEntry, IsFollowedPathEntry, IsBodyEntry, IsEntryOfBodies, IsFoundIn};
ghost use Rattle.meaning.specs.BodyEvents.{bodies_of};
ghost use Rattle.meaning.specs.Mentions.{BodyPlace as MeantBody};
ghost use Rattle.meaning.specs.Uses.{Seen};
ghost use Rattle.meaning_packages.specs.CallsFlags.{FileWithCredits};
ghost use Rattle.meaning_packages.specs.Credits.{promises_in};
ghost use Rattle.meaning_packages.specs.PathFaults.{paths_of, IsPassFault};
ghost use Rattle.report.specs.Entries.{Entry, entry_of};
ghost use Rattle.meaning_reports.specs.PackageReports.{IsFileFinding};

use crate::entries::{add_path_faults, add_use_faults};
use bodies::Body;
use calls_flags::{FileBodies, KnownCalls};
use credits::{Calls, Reliance, search_body};
use events::{Told, body_faults};
use path_faults::{pass_faults, path_faults};
use report::Diagnostic;
use std::alloc::{AllocError, Global};

/// Adds the faults of a body's passes, on a path or not, by what the body relies on.
///
/// # Errors
///
/// Memory was refused.
pub fn add_passes_by_calls<'a, C: Calls>(
    alloc: Global,
    told: &Told<'a>,
    reliance: &Reliance<'_, C>,
    body: &Body<'_, 'a>,
    diagnostics: &mut Vec<Diagnostic<'a>>,
) -> Result<(), AllocError>
    ensures { OnOk result ((number : ℕ) (seen : Seen) (b : MeantBody) → TellsFile seen told.now
        → TellsBody number seen b body.now
        → AddsEntries diagnostics.old.items diagnostics.new.items (IsEntryOf number (IsPassFault (paths_of seen
        (promises_in (C.are_called reliance.now.calls.now) (has reliance.now.credits.now) reliance.now.at) b)))) }
{
    let faults = pass_faults(alloc, told, body.place.at, &body.variables, reliance)?;
    add_path_faults(body.file, &faults, diagnostics)
}

/// Adds the faults of a body's passes, on a path or not.
fn add_passes<'a>(
    alloc: Global,
    file: &FileBodies<'_, 'a>,
    calls: KnownCalls<'_, 'a>,
    body: &Body<'_, 'a>,
    diagnostics: &mut Vec<Diagnostic<'a>>,
) -> Result<(), AllocError>
    ensures { OnOk result ((number : ℕ) (f : FileWithCredits) → TellsWithCredits number f file.now
        → (b : MeantBody) → TellsBody number f.seen b body.now
        → AddsEntries diagnostics.old.items diagnostics.new.items (IsPassEntry (known_calls calls.entry) number f
        b)) }
{
    let reliance = Reliance {
        calls: &calls,
        credits: &file.credits,
        at: body.place.at,
    };
    add_passes_by_calls(alloc, file.told, &reliance, body, diagnostics)
}

/// Adds the faults of a body's paths, if it has variables and not too many.
fn add_paths<'a>(
    alloc: Global,
    file: &FileBodies<'_, 'a>,
    calls: KnownCalls<'_, 'a>,
    body: &Body<'_, 'a>,
    diagnostics: &mut Vec<Diagnostic<'a>>,
) -> Result<(), AllocError>
    ensures { OnOk result ((number : ℕ) (f : FileWithCredits) → TellsWithCredits number f file.now
        → (b : MeantBody) → TellsBody number f.seen b body.now
        → AddsEntries diagnostics.old.items diagnostics.new.items
        (IsFollowedPathEntry (known_calls calls.entry) number f b)) }
{
    let Some(kept) = &body.graph else {
        return Ok(());
    };
    let solution = search_body(alloc, body, kept, &calls, &file.credits)?;
    let faults = path_faults(alloc, &kept.graph, &body.variables, &solution)?;
    add_path_faults(body.file, &faults, diagnostics)
}

/// Adds what is to be said of a body of this file: its use faults, and those of its passes and its paths.
///
/// # Errors
///
/// Memory was refused.
pub fn add_body<'a>(
    alloc: Global,
    file: &FileBodies<'_, 'a>,
    calls: KnownCalls<'_, 'a>,
    body: &Body<'_, 'a>,
    diagnostics: &mut Vec<Diagnostic<'a>>,
) -> Result<(), AllocError>
    ensures { OnOk result ((number : ℕ) (f : FileWithCredits) → TellsWithCredits number f file.now
        → (b : MeantBody) → TellsBody number f.seen b body.now
        → AddsEntries diagnostics.old.items diagnostics.new.items (IsBodyEntry (known_calls calls.entry) number f
        b)) }
{
    let faults = body_faults(alloc, file.told, &body.variables, body.place.at)?;
    add_use_faults(body.file, &faults, diagnostics)?;
    add_passes(alloc, file, calls, body, diagnostics)?;
    add_paths(alloc, file, calls, body, diagnostics)
}

/// Adds what is to be said of a file's bodies.
fn add_bodies<'a>(
    alloc: Global,
    file: &FileBodies<'_, 'a>,
    calls: KnownCalls<'_, 'a>,
    diagnostics: &mut Vec<Diagnostic<'a>>,
) -> Result<(), AllocError>
    ensures { OnOk result ((number : ℕ) (f : FileWithCredits) → TellsWithCredits number f file.now
        → AddsEntries diagnostics.old.items diagnostics.new.items (IsEntryOfBodies (known_calls calls.entry) number f
        (bodies_of f.seen))) }
{
    for body in &file.bodies {
        add_body(alloc, file, calls, body, diagnostics)?;
    }
    Ok(())
}

/// Adds what is to be said of the file of that number, by what is known of functions.
///
/// # Errors
///
/// Memory was refused.
pub fn add_file<'a>(
    alloc: Global,
    number: usize,
    file: &FileBodies<'_, 'a>,
    calls: KnownCalls<'_, 'a>,
    diagnostics: &mut Vec<Diagnostic<'a>>,
) -> Result<(), AllocError>
    ensures { OnOk result ((f : FileWithCredits) → TellsWithCredits number f file.now
        → AddsEntries diagnostics.old.items diagnostics.new.items (IsFileFinding (known_calls calls.entry)
        number f)) }
{
    add_use_faults(number, &file.told.outer, diagnostics)?;
    add_bodies(alloc, file, calls, diagnostics)
}

/// All that is to be said of the files of a package, by what is known of functions, in no order; one may come twice.
///
/// # Errors
///
/// Memory was refused.
pub fn find_faults<'a>(
    alloc: Global,
    files: &[FileBodies<'_, 'a>],
    calls: KnownCalls<'_, 'a>,
) -> Result<Vec<Diagnostic<'a>>, AllocError>
    ensures { IfOk result (λ found. (fs : List FileWithCredits) → TellAll fs files.now
        → (x : Entry) → Contains (map entry_of found.items) x ↔ IsFoundIn fs (known_calls calls.entry) x) }
{
    let mut diagnostics = Vec::new(alloc);
    for (number, file) in files.iter().enumerate() {
        add_file(alloc, number, file, calls, &mut diagnostics)?;
    }
    Ok(diagnostics)
}
