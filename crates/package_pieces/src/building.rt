//! The bodies of a package's files, by several threads.

ghost use Rattle.std.specs.Prelude.{◌≡◌, ◌++◌, ℕ, List, IfOk, length};
ghost use Rattle.std.specs.List.{AllZip};
ghost use Rattle.std.specs.Vec.Iter.{into_iter_items};
ghost use Rattle.bodies.specs.Bodies.{TellBodies};
ghost use Rattle.calls_flags.specs.FilesBodies.{HasBodies, HaveBodies};
ghost use Rattle.calls_flags.specs.ToldFiles.{TellsSeen, TellAllSeen};
ghost use Rattle.meaning.specs.Uses.{Seen};
ghost use Rattle.package_pieces.specs.Built.{IsBuilt};
ghost use Rattle.package_pieces.specs.Numbers.{opened_numbers};
ghost use Rattle.path_faults.specs.FoundFaults.{each_from};

use crate::numbers::{BodyNumber, numbers_opened, opened_count};
use bodies::{Body, body_at};
use calls_flags::{FileBodies, ToldFile};
use credits::find_credits;
use std::alloc::{AllocError, Global};
use std::sync::Wait;
use std::thread::Threads;
use std::vec::IntoIter;
use workers::{BodyGate, Helpers, Piece, PieceFault, work_all};

/// How the bodies of these files are made. The files are taken from here, so that they may be borrowed from for longer
/// than an item is lent.
#[derive(Clone, Copy)]
struct Building<'e, 'a> {
    files: &'e [ToldFile<'a>],
}

impl<'e, 'a> Piece<BodyNumber, Body<'e, 'a>> for Building<'e, 'a> {
    ghost use Rattle.package_pieces.specs.Built.{IsBuilt};

    ghost gives = { λ building place number body. IsBuilt building.files.now number body };

    fn work(
        &self,
        alloc: Global,
        _place: usize,
        item: &BodyNumber,
    ) -> Result<Body<'e, 'a>, AllocError> {
        let Some(file) = self.files.get(item.file) else {
            return Err(AllocError);
        };
        let Some(variables) = &file.variables else {
            return Err(AllocError);
        };
        match file.told.opened.get(item.body) {
            Some(place) => body_at(alloc, item.file, &file.told, variables, *place),
            None => Err(AllocError),
        }
    }
}

/// The next of these, so many.
fn next_of<X: Drop>(
    alloc: Global,
    count: usize,
    left: &mut IntoIter<X>,
) -> Result<Vec<X>, AllocError>
    ensures sum { IfOk result (λ next. into_iter_items left.old ≡ next.items ++ into_iter_items left.new) }
    ensures size { IfOk result (λ next. length next.items ≡ count) }
{
    let mut next = Vec::new(alloc);
    for _turn in 0..count {
        match left.next() {
            Some(one) => next.push(one)?,
            None => return Err(AllocError),
        }
    }
    Ok(next)
}

/// The file with these bodies, and what may be relied on of its literals.
fn with_credits<'e, 'a>(
    alloc: Global,
    file: &'e ToldFile<'a>,
    bodies: Vec<Body<'e, 'a>>,
) -> Result<FileBodies<'e, 'a>, AllocError>
    ensures { IfOk result (λ made. (number : ℕ) (seen : Seen) → TellsSeen seen file.now
        → TellBodies number seen bodies.entry.items → HasBodies number seen made) }
{
    let credits = find_credits(alloc, &bodies)?;
    Ok(FileBodies {
        told: &file.told,
        bodies,
        credits,
    })
}

/// The files with their bodies, of which there is one list for all files.
fn by_file<'e, 'a>(
    alloc: Global,
    files: &'e [ToldFile<'a>],
    bodies: Vec<Body<'e, 'a>>,
) -> Result<Vec<FileBodies<'e, 'a>>, AllocError>
    ensures { IfOk result (λ made. AllZip (IsBuilt files.now) (each_from opened_numbers 0 files.now) bodies.entry.items
        → (seens : List Seen) → TellAllSeen seens files.now → HaveBodies seens made.items) }
{
    let mut left = bodies.into_iter();
    let mut made = Vec::new(alloc);
    for file in files {
        let own = next_of(alloc, opened_count(file), &mut left)?;
        made.push(with_credits(alloc, file, own)?)?;
    }
    Ok(made)
}

/// The bodies of each file of a package, by these helpers, a body at a time: each is made once, for all that asks for
/// its paths. What may be relied on of the literals of a file the thread that asks finds alone, since a body relies on
/// those after it.
///
/// # Errors
///
/// Memory was refused, or else a thread could not be started.
pub fn build_all<'e, 'a, R: Threads + Wait, G: BodyGate + Sync>(
    alloc: Global,
    helpers: &Helpers<'_, R, G>,
    files: &'e [ToldFile<'a>],
) -> Result<Vec<FileBodies<'e, 'a>>, PieceFault>
    ensures { IfOk result (λ made. (seens : List Seen) → TellAllSeen seens files.now
        → HaveBodies seens made.items) }
{
    let numbers = numbers_opened(alloc, files)?;
    let bodies = work_all(alloc, helpers, &numbers, &Building { files })?;
    Ok(by_file(alloc, files, bodies)?)
}
