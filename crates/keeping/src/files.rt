//! What the marks of the files of a package say of fields.

ghost use Rattle.std.specs.Prelude.{◌≡◌, ◌++◌, IfOk, OnOk, flat_map, map};
ghost use Rattle.std.specs.List.{list_any};
ghost use Rattle.keeping.specs.Keeping.{each_known, notes_by, notes_if};
ghost use Rattle.noted_fields.specs.NotedFields.{some_put, note_view};
ghost use Rattle.keeping.specs.Notes.{notes_in};
ghost use Rattle.keeping.specs.ToldFiles.{told_notes, told_puts};
ghost use Rattle.meaning.specs.BodyEvents.{seen_file};
ghost use Rattle.meaning_reports.specs.Loaded.{seen_from};
ghost use Rattle.silent_files.specs.WalkedFiles.{is_walked};
ghost use Rattle.tracked.specs.LocalViews.{seen_view, Sees};
ghost use Rattle.tracked_rows.specs.RowViews.{known_view};
ghost use Rattle.tree.specs.View.{file_syntax};

use crate::may_put::may_put;
use crate::noted::add_notes;
use crate::plain::add_all_plainly;
use bumpalo::Bump;
use marks::file_marks;
use mentions::BodyPlace;
use noted_fields::Note;
use objects::see;
use std::alloc::{AllocError, Global};
use tracked::{Seen, enter};
use tracked_rows::{Fields, Known};
use tree::File;

/// What all marks of a file say.
fn add_all<'a>(
    alloc: Global,
    seen: &Seen<'_, '_, 'a>,
    notes: &mut Vec<Note<'a>>,
) -> Result<(), AllocError>
    requires { Sees seen.now }
    ensures { OnOk result (map note_view notes.new.items ≡ map note_view notes.old.items
        ++ notes_in (seen_view seen.now)) }
{
    let mut bodies: Vec<BodyPlace<'a>> = Vec::new(alloc);
    for mark in &seen.marks {
        enter(&mut bodies, *mark)?;
        add_notes(alloc, seen, &bodies, *mark, notes)?;
    }
    Ok(())
}

/// What is known of the file of that number, where each field is taken for one that keeps.
fn known_at<'k, 'a>(known: Known<'k, 'a>, number: usize) -> Known<'k, 'a>
    ensures { known_view result ≡ each_known known.entry number }
{
    Known {
        edition: known.edition,
        file: number,
        names: known.names,
        table: known.table,
        imported: known.imported,
        fields: Fields::Each,
        object_lefts: &[],
    }
}

/// What a file says. What its locals are is asked only where one of its marks may put a cancel function into a field.
fn add_file<'a>(
    alloc: Global,
    known: Known<'_, 'a>,
    number: usize,
    file: &'a File,
    notes: &mut Vec<Note<'a>>,
) -> Result<(), AllocError>
    ensures { OnOk result (map note_view notes.new.items ≡ map note_view notes.old.items
        ++ notes_in (seen_file (each_known known.entry number) (file_syntax file.now))) }
{
    let here = known_at(known, number);
    let arena = Bump::new(alloc);
    let marks = file_marks(alloc, &arena, here.edition, true, file)?;
    let may = may_put(alloc, here, &marks)?;
    if may {
        let seen = see(alloc, &arena, here, file)?;
        return add_all(alloc, &seen, notes);
    }
    add_all_plainly(alloc, here, &marks, notes)
}

/// A file, which was looked at or not.
#[derive(Drop)]
pub enum Told<'a> {
    /// What the file says.
    Noted(Vec<Note<'a>>),
    /// A file that wasn't looked at, and its number.
    Unread { number: usize, file: &'a File },
}

/// What a file says, if it is walked.
fn tell<'a>(
    alloc: Global,
    known: Known<'_, 'a>,
    is_walked: bool,
    number: usize,
    file: &'a File,
) -> Result<Told<'a>, AllocError>
    ensures put { IfOk result (λ told. told_puts told
        ≡ some_put (notes_if is_walked (each_known known.entry number) (file_syntax file.now))) }
    ensures notes { IfOk result (λ told. told_notes (each_known known.entry) told
        ≡ notes_in (seen_file (each_known known.entry number) (file_syntax file.now))) }
{
    if !is_walked {
        return Ok(Told::Unread { number, file });
    }
    let mut notes = Vec::new(alloc);
    add_file(alloc, known, number, file, &mut notes)?;
    Ok(Told::Noted(notes))
}

/// Whether the file of that number is walked: where it has no mark, it is.
fn is_walked(walked: &[bool], number: usize) -> bool
    ensures { result ≡ is_walked walked.now number }
{
    match walked.get(number) {
        Some(mark) => *mark,
        None => true,
    }
}

/// The files of a package, in their order, with what those of them say that are walked.
///
/// # Errors
///
/// Memory was refused.
pub fn told_files<'a>(
    alloc: Global,
    known: Known<'_, 'a>,
    files: &'a [File],
    walked: &[bool],
) -> Result<Vec<Told<'a>>, AllocError>
    ensures put { IfOk result (λ all. list_any told_puts all.items
        ≡ some_put (notes_by (is_walked walked.now) (each_known known.entry) 0 (map file_syntax files.now))) }
    ensures notes { IfOk result (λ all. flat_map (told_notes (each_known known.entry)) all.items
        ≡ flat_map notes_in (seen_from (each_known known.entry) 0 (map file_syntax files.now))) }
{
    let mut all = Vec::new(alloc);
    for (number, file) in files.iter().enumerate() {
        let one = tell(alloc, known, is_walked(walked, number), number, file)?;
        all.push(one)?;
    }
    Ok(all)
}

fn add_again<'a>(again: &[Note<'a>], notes: &mut Vec<Note<'a>>) -> Result<(), AllocError>
    ensures { OnOk result (map note_view notes.new.items ≡ map note_view notes.old.items
        ++ map note_view again.now) }
{
    for note in again {
        notes.push(*note)?;
    }
    Ok(())
}

/// What a file says that was looked at, or is looked at now.
fn add_told<'a>(
    alloc: Global,
    known: Known<'_, 'a>,
    told: &Told<'a>,
    notes: &mut Vec<Note<'a>>,
) -> Result<(), AllocError>
    ensures { OnOk result (map note_view notes.new.items ≡ map note_view notes.old.items
        ++ told_notes (each_known known.entry) told.now) }
{
    match told {
        Told::Noted(again) => add_again(again, notes),
        Told::Unread { number, file } => add_file(alloc, known, *number, file, notes),
    }
}

/// What all these files say, file by file.
///
/// # Errors
///
/// Memory was refused.
pub fn notes_of<'a>(
    alloc: Global,
    known: Known<'_, 'a>,
    files: &[Told<'a>],
) -> Result<Vec<Note<'a>>, AllocError>
    ensures { IfOk result (λ notes. map note_view notes.items
        ≡ flat_map (told_notes (each_known known.entry)) files.now) }
{
    let mut notes = Vec::new(alloc);
    for file in files {
        add_told(alloc, known, file, &mut notes)?;
    }
    Ok(notes)
}
