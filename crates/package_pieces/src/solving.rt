//! What is to be said of a package's files, by several threads.

ghost use Rattle.std.specs.Prelude.{◌≡◌, ◌↔◌, ◌++◌, List, IfOk, OnOk, Contains, map};
ghost use Rattle.calls_flags.specs.FilesBodies.{TellAll};
ghost use Rattle.calls_flags.specs.KnownCalls.{known_calls};
ghost use Rattle.findings.specs.FoundEntries.{IsFoundIn};
ghost use Rattle.meaning_packages.specs.CallsFlags.{FileWithCredits};
ghost use Rattle.package_pieces.specs.Found.{outer_entries};
ghost use Rattle.path_faults.specs.FoundFaults.{each_from};
ghost use Rattle.report.specs.Entries.{Entry, entry_of};

use crate::numbers::{BodyNumber, numbers_kept};
use calls_flags::{FileBodies, KnownCalls};
use findings::{add_body, add_use_faults};
use report::Diagnostic;
use std::alloc::{AllocError, Global};
use std::sync::Wait;
use std::thread::Threads;
use workers::{BodyGate, Helpers, Piece, PieceFault, joined, work_all};

/// By what the paths of bodies are solved, and the files of which they are.
#[derive(Clone, Copy)]
struct Solving<'k, 'c, 'e, 'a> {
    files: &'k [FileBodies<'e, 'a>],
    calls: KnownCalls<'c, 'a>,
}

impl<'k, 'c, 'e, 'a> Piece<BodyNumber, Vec<Diagnostic<'a>>> for Solving<'k, 'c, 'e, 'a> {
    ghost use Rattle.calls_flags.specs.KnownCalls.{known_calls};
    ghost use Rattle.package_pieces.specs.Found.{AreFoundOf};

    ghost gives = { λ solving place number found.
        AreFoundOf (known_calls solving.calls) solving.files.now number found.items };

    fn work(
        &self,
        alloc: Global,
        _place: usize,
        item: &BodyNumber,
    ) -> Result<Vec<Diagnostic<'a>>, AllocError> {
        let Some(file) = self.files.get(item.file) else {
            return Err(AllocError);
        };
        let Some(body) = file.bodies.get(item.body) else {
            return Err(AllocError);
        };
        let mut found = Vec::new(alloc);
        add_body(alloc, file, self.calls, body, &mut found)?;
        Ok(found)
    }
}

/// Adds what is to be said of these files outside of their bodies.
fn add_outer<'a>(
    files: &[FileBodies<'_, 'a>],
    found: &mut Vec<Diagnostic<'a>>,
) -> Result<(), AllocError>
    ensures { OnOk result (map entry_of found.new.items ≡ map entry_of found.old.items
        ++ each_from outer_entries 0 files.now) }
{
    for (number, file) in files.iter().enumerate() {
        add_use_faults(number, &file.told.outer, found)?;
    }
    Ok(())
}

/// All that is to be said of the files of a package, by what is known of functions, in no order; one may come twice.
/// These helpers solve the paths of the bodies, a body at a time.
///
/// # Errors
///
/// Memory was refused, or else a thread could not be started.
pub fn solve_all<'a, R: Threads + Wait, G: BodyGate + Sync>(
    alloc: Global,
    helpers: &Helpers<'_, R, G>,
    files: &[FileBodies<'_, 'a>],
    calls: KnownCalls<'_, 'a>,
) -> Result<Vec<Diagnostic<'a>>, PieceFault>
    ensures { IfOk result (λ found. (fs : List FileWithCredits) → TellAll fs files.now
        → (x : Entry) → Contains (map entry_of found.items) x ↔ IsFoundIn fs (known_calls calls.entry) x) }
{
    let numbers = numbers_kept(alloc, files)?;
    let lists = work_all(alloc, helpers, &numbers, &Solving { files, calls })?;
    let mut found = joined(alloc, lists)?;
    add_outer(files, &mut found)?;
    Ok(found)
}
