//! Files that several threads read before their packages are made.

ghost use Rattle.std.specs.Prelude.{◌≡◌, ◌++◌, ◌∷◌, List, IfOk, IfSome, OnOk, map};
ghost use Rattle.std.specs.Vec.Iter.{into_iter_items};
ghost use Rattle.load.specs.Ahead.{file_view, files_in, files_of, AreReadAhead, EditionAndFile};
ghost use Rattle.load.specs.Readings.{IsParsed};

use crate::packages::GivenPackage;
use crate::source::{Parsed, read_source};
use lexer::Source;
use std::alloc::{AllocError, Global};
use std::thread::Threads;
use std::vec::IntoIter;
use tree::Edition;
use tree_work::trees_of;
use workers::{Work, Workers};

/// What became of files that were read ahead, in their order. Of some it may not be known.
pub type Ahead = IntoIter<Option<Parsed>>;

/// A file that is to be read, and the edition in which it is read.
#[derive(Clone, Copy)]
struct FileToRead<'a> {
    edition: Edition,
    source: &'a Source,
}

/// The reading of files, as work that threads share.
#[derive(Clone, Copy)]
struct ReadFiles {
    alloc: Global,
}

impl<'a> Work<FileToRead<'a>, Parsed> for ReadFiles {
    ghost is_outcome = { λ _ file parsed. IsParsed file.edition file.source.now parsed };

    fn outcome(&self, file: &FileToRead<'a>) -> Option<Parsed> {
        parsed_of(self.alloc, *file)
    }
}

/// What becomes of the file, if there is memory.
fn parsed_of(alloc: Global, file: FileToRead<'_>) -> Option<Parsed>
    ensures { IfSome result (IsParsed file.entry.edition file.entry.source.now) }
{
    match read_source(alloc, file.edition, file.source) {
        Ok(parsed) => Some(parsed),
        Err(_) => None,
    }
}

/// Adds these files, which are read in that edition.
fn add_files<'a>(
    edition: Edition,
    sources: &'a [Source],
    files: &mut Vec<FileToRead<'a>>,
) -> Result<(), AllocError>
    ensures { OnOk result (map file_view files.new.items
        ≡ map file_view files.old.items ++ files_in edition sources.now) }
{
    for source in sources {
        files.push(FileToRead { edition, source })?;
    }
    Ok(())
}

/// The files of all packages, package by package.
fn files_of<'a>(
    alloc: Global,
    packages: &'a [GivenPackage],
) -> Result<Vec<FileToRead<'a>>, AllocError>
    ensures { IfOk result (λ files. map file_view files.items ≡ files_of packages.now) }
{
    let mut files = Vec::new(alloc);
    for one in packages {
        add_files(one.edition, &one.sources, &mut files)?;
    }
    Ok(files)
}

/// Nothing is read ahead.
pub fn nothing_ahead(alloc: Global, packages: &[GivenPackage]) -> Ahead
    ensures { AreReadAhead (files_of packages.now) (into_iter_items result) }
{
    Vec::new(alloc).into_iter()
}

/// What becomes of the files of all packages, which so many threads read. One worker reads nothing ahead.
///
/// # Errors
///
/// Memory was refused.
pub fn read_ahead<R: Threads + Sync>(
    rt: &R,
    alloc: Global,
    packages: &[GivenPackage],
    workers: Workers,
) -> Result<Ahead, AllocError>
    ensures { IfOk result (λ ahead. AreReadAhead (files_of packages.now) (into_iter_items ahead)) }
{
    if workers.count() == 1 {
        return Ok(nothing_ahead(alloc, packages));
    }
    let files = files_of(alloc, packages)?;
    let parsed = trees_of(rt, alloc, &files, workers, &ReadFiles { alloc })?;
    Ok(parsed.into_iter())
}

/// What becomes of the next file, which is read in that edition, here if it was not read ahead.
///
/// # Errors
///
/// Memory was refused.
pub fn next_parsed(
    alloc: Global,
    edition: Edition,
    source: &Source,
    ahead: &mut Ahead,
) -> Result<Parsed, AllocError>
    ensures parsed { (after : List EditionAndFile)
        → AreReadAhead ((edition, source.now) ∷ after) (into_iter_items ahead.old)
        → IfOk result (IsParsed edition source.now) }
    ensures ahead { (after : List EditionAndFile)
        → AreReadAhead ((edition, source.now) ∷ after) (into_iter_items ahead.old)
        → AreReadAhead after (into_iter_items ahead.new) }
{
    match ahead.next() {
        Some(Some(parsed)) => Ok(parsed),
        Some(None) => read_source(alloc, edition, source),
        None => read_source(alloc, edition, source),
    }
}
