//! What is told of each file of a package.

ghost use Rattle.std.specs.Prelude.{◌≡◌, [], IfOk};
ghost use Rattle.calls_flags.specs.ToldFiles.{known_for, seen_by, TellsSeen, TellAllSeen};
ghost use Rattle.meaning.specs.BodyEvents.{seen_file};
ghost use Rattle.meaning.specs.Tracked.{Known as MeantKnown};
ghost use Rattle.meaning.specs.Uses.{seen_in};
ghost use Rattle.tracked_rows.specs.RowViews.{known_view};
ghost use Rattle.tree.specs.View.{file_syntax};
ghost use Rattle.silent_files.specs.WalkedFiles.{is_walked, seen_if};

use bumpalo::Bump;
use events::{Told, Variables, find_variables, tell};
use facts::{Imported, Table};
use names::Names;
use objects::see;
use std::alloc::{AllocError, Global};
use tracked_rows::{Fields, Known};
use tree::{Edition, File};

/// A file that was told of: its events and use faults, and the variables of its bodies.
#[derive(Drop)]
pub struct ToldFile<'a> {
    pub told: Told<'a>,
    /// None, where the file was not walked: then it has no bodies.
    pub variables: Option<Variables<'a>>,
}

/// The files of a package that are to be told of, and by what.
#[derive(Clone, Copy)]
pub struct Telling<'k, 'a> {
    /// By which rules.
    pub edition: Edition,
    pub files: &'a [File],
    /// What the uses of names mean.
    pub names: &'k Names<'a>,
    /// The facts of the package's functions.
    pub table: &'k Table<'a>,
    /// Those of its imports' functions.
    pub imported: &'k Imported<'a, 'k>,
    /// Which fields of the package keep cancel functions.
    pub fields: Fields<'k, 'a>,
    /// Whether each file is walked, by its number. A file without a mark is.
    pub walked: &'k [bool],
}

fn tell_file<'k, 'a>(
    alloc: Global,
    known: Known<'k, 'a>,
    file: &'a File,
) -> Result<ToldFile<'a>, AllocError>
    ensures { IfOk result (TellsSeen (seen_file (known_view known.entry) (file_syntax file.now))) }
{
    let arena = Bump::new(alloc);
    let seen = see(alloc, &arena, known, file)?;
    let variables = find_variables(alloc, &seen)?;
    let told = tell(alloc, &seen, &variables)?;
    Ok(ToldFile {
        told,
        variables: Some(variables),
    })
}

/// A file that is not walked, as if it had no marks, by that edition. It takes no memory.
fn silent<'a>(alloc: Global, edition: Edition) -> ToldFile<'a>
    ensures { (known : MeantKnown) → edition ≡ known.edition → TellsSeen (seen_in known []) result }
{
    ToldFile {
        told: Told::new(alloc, edition),
        variables: None,
    }
}

/// Tells of a file, if it is walked.
fn tell_if<'k, 'a>(
    alloc: Global,
    walked: bool,
    known: Known<'k, 'a>,
    file: &'a File,
) -> Result<ToldFile<'a>, AllocError>
    ensures { IfOk result (TellsSeen (seen_if walked (known_view known.entry) (file_syntax file.now))) }
{
    if walked {
        tell_file(alloc, known, file)
    } else {
        Ok(silent(alloc, known.edition))
    }
}

/// Whether the file of that number is walked: where it has no mark, it is.
pub fn is_walked(walked: &[bool], number: usize) -> bool
    ensures { result ≡ is_walked walked.now number }
{
    match walked.get(number) {
        Some(mark) => *mark,
        None => true,
    }
}

/// Tells of the file of that number. Of one whose mark says that it isn't walked nothing is told, as if it had no
/// marks.
///
/// # Errors
///
/// Memory was refused.
pub fn tell_at<'a>(
    alloc: Global,
    telling: Telling<'_, 'a>,
    number: usize,
    file: &'a File,
) -> Result<ToldFile<'a>, AllocError>
    ensures { IfOk result (TellsSeen (seen_if (is_walked telling.entry.walked.now number)
        (known_for telling.entry number) (file_syntax file.now))) }
{
    let known = Known {
        edition: telling.edition,
        file: number,
        names: telling.names,
        table: telling.table,
        imported: telling.imported,
        fields: telling.fields,
        object_lefts: &[],
    };
    tell_if(alloc, is_walked(telling.walked, number), known, file)
}

/// Tells of each file of a package, one after the other.
///
/// # Errors
///
/// Memory was refused.
pub fn tell_files<'a>(
    alloc: Global,
    telling: Telling<'_, 'a>,
) -> Result<Vec<ToldFile<'a>>, AllocError>
    ensures { IfOk result (λ told. TellAllSeen (seen_by telling.entry) told.items) }
{
    let files = telling.files;
    let mut told = Vec::new(alloc);
    for (number, file) in files.iter().enumerate() {
        told.push(tell_at(alloc, telling, number, file)?)?;
    }
    Ok(told)
}
