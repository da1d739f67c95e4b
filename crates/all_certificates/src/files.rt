//! The certificates of the bodies of a package's files.

ghost use Rattle.std.specs.Prelude.{ℕ, List, IfOk, OnOk, map};
ghost use Rattle.all_certificates.specs.AddedEntries.{Adds};
ghost use Rattle.all_certificates.specs.CertifiedBodies.{AreOfBody, AreOfFile, AreOfFiles};
ghost use Rattle.bodies.specs.Bodies.{TellsBody};
ghost use Rattle.calls_flags.specs.FilesBodies.{TellAll, TellsWithCredits};
ghost use Rattle.calls_flags.specs.KnownCalls.{known_calls};
ghost use Rattle.certificate_json.specs.Certificates.{body_of};
ghost use Rattle.meaning.specs.Mentions.{BodyPlace};
ghost use Rattle.meaning_packages.specs.CallsFlags.{FileWithCredits};

use crate::entries::{Grounds, add_entries, add_entry};
use bodies::Body;
use calls_flags::{FileBodies, KnownCalls};
use certificate_json::Body as Entry;
use one_package::HandWork;
use package_pieces::{BodyNumber, have_several, numbers_kept};
use std::alloc::{AllocError, Global};
use std::sync::Wait;
use std::thread::Threads;
use workers::{Free, Helpers, Piece, PieceFault, joined, work_all};

/// Adds the least certificates of the bodies of a file.
fn add_file<'f, 'a>(
    alloc: Global,
    calls: KnownCalls<'f, 'a>,
    file: &'f FileBodies<'f, 'a>,
    entries: &mut Vec<Entry>,
) -> Result<(), AllocError>
    ensures { OnOk result ((number : ℕ) (f : FileWithCredits) → TellsWithCredits number f file.now
        → Adds (AreOfFile (known_calls calls.entry) number f) (map body_of entries.old.items)
        (map body_of entries.new.items)) }
{
    let grounds = Grounds {
        told: file.told,
        calls,
        credits: &file.credits,
    };
    add_entries(alloc, grounds, &file.bodies, entries)
}

/// The least certificates of the bodies of these files, file by file.
fn entries_of_files<'a>(
    alloc: Global,
    calls: KnownCalls<'_, 'a>,
    files: &[FileBodies<'_, 'a>],
) -> Result<Vec<Entry>, AllocError>
    ensures { IfOk result (λ entries. (fs : List FileWithCredits) → TellAll fs files.now
        → AreOfFiles (known_calls calls.entry) 0 fs (map body_of entries.items)) }
{
    let mut entries = Vec::new(alloc);
    for file in files {
        add_file(alloc, calls, file, &mut entries)?;
    }
    Ok(entries)
}

/// Adds the least certificate of a body of this file.
fn add_body<'f, 'a>(
    alloc: Global,
    calls: KnownCalls<'f, 'a>,
    file: &'f FileBodies<'f, 'a>,
    body: &Body<'_, 'a>,
    entries: &mut Vec<Entry>,
) -> Result<(), AllocError>
    ensures { OnOk result ((number : ℕ) (f : FileWithCredits) → TellsWithCredits number f file.now
        → (b : BodyPlace) → TellsBody number f.seen b body.now
        → Adds (AreOfBody (known_calls calls.entry) f.credits number f.seen b) (map body_of entries.old.items)
        (map body_of entries.new.items)) }
{
    let grounds = Grounds {
        told: file.told,
        calls,
        credits: &file.credits,
    };
    add_entry(alloc, grounds, body, entries)
}

/// By what the certificates of bodies are made, and the files of which they are.
#[derive(Clone, Copy)]
pub struct CertifyingBodies<'k, 'c, 'e, 'a> {
    pub files: &'k [FileBodies<'e, 'a>],
    pub calls: KnownCalls<'c, 'a>,
}

impl<'k, 'c, 'e, 'a> Piece<BodyNumber, Vec<Entry>> for CertifyingBodies<'k, 'c, 'e, 'a> {
    ghost use Rattle.std.specs.Prelude.{map};
    ghost use Rattle.all_certificates.specs.AddedEntries.{AreOfNumber};
    ghost use Rattle.calls_flags.specs.KnownCalls.{known_calls};
    ghost use Rattle.certificate_json.specs.Certificates.{body_of};

    ghost gives = { λ certifying place number entries.
        AreOfNumber (known_calls certifying.calls) certifying.files.now number (map body_of entries.items) };

    fn work(
        &self,
        alloc: Global,
        _place: usize,
        item: &BodyNumber,
    ) -> Result<Vec<Entry>, AllocError> {
        let Some(file) = self.files.get(item.file) else {
            return Err(AllocError);
        };
        let Some(body) = file.bodies.get(item.body) else {
            return Err(AllocError);
        };
        let mut entries = Vec::new(alloc);
        add_body(alloc, self.calls, file, body, &mut entries)?;
        Ok(entries)
    }
}

/// The least certificates of the bodies of these files, file by file, made by these helpers a body at a time, if there
/// is more than one.
fn entries_with<'a, R: Threads + Wait>(
    alloc: Global,
    helpers: &Helpers<'_, R, Free>,
    calls: KnownCalls<'_, 'a>,
    files: &[FileBodies<'_, 'a>],
) -> Result<Vec<Entry>, PieceFault>
    ensures { IfOk result (λ entries. (fs : List FileWithCredits) → TellAll fs files.now
        → AreOfFiles (known_calls calls.entry) 0 fs (map body_of entries.items)) }
{
    if !have_several(files) {
        return Ok(entries_of_files(alloc, calls, files)?);
    }
    let numbers = numbers_kept(alloc, files)?;
    let lists = work_all(alloc, helpers, &numbers, &CertifyingBodies { files, calls })?;
    Ok(joined(alloc, lists)?)
}

impl<'k, 'c, 'e, 'a> HandWork<Vec<Entry>> for CertifyingBodies<'k, 'c, 'e, 'a> {
    ghost use Rattle.std.specs.Prelude.{List, map};
    ghost use Rattle.all_certificates.specs.CertifiedBodies.{AreOfFiles};
    ghost use Rattle.calls_flags.specs.FilesBodies.{TellAll};
    ghost use Rattle.calls_flags.specs.KnownCalls.{known_calls};
    ghost use Rattle.certificate_json.specs.Certificates.{body_of};
    ghost use Rattle.meaning_packages.specs.CallsFlags.{FileWithCredits};

    ghost gives = { λ certifying entries. (fs : List FileWithCredits) → TellAll fs certifying.files.now
        → AreOfFiles (known_calls certifying.calls) 0 fs (map body_of entries.items) };

    fn alone(&self, alloc: Global) -> Result<Vec<Entry>, AllocError> {
        entries_of_files(alloc, self.calls, self.files)
    }

    fn helped<R: Threads + Wait>(
        &self,
        alloc: Global,
        helpers: &Helpers<'_, R, Free>,
    ) -> Result<Vec<Entry>, PieceFault> {
        entries_with(alloc, helpers, self.calls, self.files)
    }
}
