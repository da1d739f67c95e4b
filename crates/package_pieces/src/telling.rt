//! What is told of the files of a package, by several threads.

ghost use Rattle.std.specs.Prelude.{IfOk};
ghost use Rattle.calls_flags.specs.ToldFiles.{seen_by, TellAllSeen};

use calls_flags::{Telling, ToldFile, tell_at};
use std::alloc::{AllocError, Global};
use std::sync::Wait;
use std::thread::Threads;
use tree::File;
use workers::{BodyGate, Helpers, Piece, PieceFault, work_all};

/// By what files are told of. The files are taken from here, so that they may be borrowed from for longer than an item
/// is lent.
#[derive(Clone, Copy)]
struct TellingFiles<'k, 'a> {
    telling: Telling<'k, 'a>,
}

impl<'k, 'a> Piece<File, ToldFile<'a>> for TellingFiles<'k, 'a> {
    ghost use Rattle.package_pieces.specs.Told.{IsToldAt};

    ghost gives = { λ all place file told. IsToldAt all.telling place told };

    fn work(&self, alloc: Global, place: usize, _item: &File) -> Result<ToldFile<'a>, AllocError> {
        match self.telling.files.get(place) {
            Some(file) => tell_at(alloc, self.telling, place, file),
            None => Err(AllocError),
        }
    }
}

/// Tells of each file of a package. These helpers do, a file at a time.
///
/// # Errors
///
/// Memory was refused, or else a thread could not be started.
pub fn tell_all<'a, R: Threads + Wait, G: BodyGate + Sync>(
    alloc: Global,
    helpers: &Helpers<'_, R, G>,
    telling: Telling<'_, 'a>,
) -> Result<Vec<ToldFile<'a>>, PieceFault>
    ensures { IfOk result (λ told. TellAllSeen (seen_by telling.entry) told.items) }
{
    work_all(alloc, helpers, telling.files, &TellingFiles { telling })
}
