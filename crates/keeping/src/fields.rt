//! The fields that keep, by what is said of fields.

ghost use Rattle.std.specs.Prelude.{◌≡◌, [], flat_map, IfOk, map};
ghost use Rattle.std.specs.List.{list_any};
ghost use Rattle.keeping.specs.Keeping.{each_known, PutNothing};
ghost use Rattle.keeping.specs.ToldFiles.{told_puts};
ghost use Rattle.imports.specs.Views.{text_views};
ghost use Rattle.meaning.specs.KeepingFields.{fields_in_files};
ghost use Rattle.meaning.specs.Tracked.{these_fields};
ghost use Rattle.meaning_reports.specs.Loaded.{fields_by, seen_from};
ghost use Rattle.meaning_reports.specs.MethodNames.{but_methods, methods_in};
ghost use Rattle.silent_files.specs.WalkedFiles.{is_walked};
ghost use Rattle.tree.specs.View.{file_syntax};

use crate::files::{Told, notes_of, told_files};
use noted_fields::{filled_names, kept_names, some_put};
use std::alloc::{AllocError, Global};
use tracked_rows::Known;
use tree::{Edition, File};

/// Whether a file that was looked at puts one into some field.
fn told_puts(told: &Told<'_>) -> bool
    ensures { result ≡ told_puts told.now }
{
    match told {
        Told::Noted(notes) => some_put(notes),
        Told::Unread { .. } => false,
    }
}

fn some_told_puts(files: &[Told<'_>]) -> bool
    ensures { result ≡ list_any told_puts files.now }
{
    for told in files {
        if told_puts(told) {
            return true;
        }
    }
    false
}

/// What is said of the fields of a package, by their names.
#[derive(Drop)]
pub struct FieldNames<'a> {
    /// Those that keep, in the order in which bodies call them. A name may come twice.
    pub keeping: Vec<&'a str>,
    /// Names that may be fields', since they are assigned to, or are keys of elements, and no method has them. Where no
    /// field keeps, none is told.
    pub filled: Vec<&'a str>,
}

/// No field keeps.
fn none<'a>(alloc: Global) -> FieldNames<'a>
    ensures { these_fields (text_views result.keeping.items) (text_views result.filled.items) ≡ these_fields [] [] }
{
    FieldNames {
        keeping: Vec::new(alloc),
        filled: Vec::new(alloc),
    }
}

/// In the second edition. Where the files that are walked put nothing into fields, no other file is looked at.
fn fields_in_second<'a>(
    alloc: Global,
    known: Known<'_, 'a>,
    files: &'a [File],
    walked: &[bool],
) -> Result<FieldNames<'a>, AllocError>
    ensures { IfOk result (λ fields. PutNothing (is_walked walked.now) (each_known known.entry) 0
        (map file_syntax files.now)
        → but_methods (flat_map methods_in (seen_from (each_known known.entry) 0 (map file_syntax files.now)))
        (fields_in_files (seen_from (each_known known.entry) 0 (map file_syntax files.now)))
        ≡ these_fields (text_views fields.keeping.items) (text_views fields.filled.items)) }
{
    let told = told_files(alloc, known, files, walked)?;
    if !some_told_puts(&told) {
        return Ok(none(alloc));
    }
    let notes = notes_of(alloc, known, &told)?;
    let keeping = kept_names(alloc, &notes)?;
    if keeping.is_empty() {
        return Ok(none(alloc));
    }
    let filled = filled_names(alloc, &notes)?;
    Ok(FieldNames { keeping, filled })
}

/// The fields of a package that keep cancel functions, with the names that may be fields'. Of what is known the file
/// and the fields don't count. What is put into fields is sought in the files that are walked, by these marks, so that
/// the others may put nothing there. In the first edition no field keeps.
///
/// # Errors
///
/// Memory was refused.
pub fn keeping_fields<'a>(
    alloc: Global,
    known: Known<'_, 'a>,
    files: &'a [File],
    walked: &[bool],
) -> Result<FieldNames<'a>, AllocError>
    ensures { IfOk result (λ fields. PutNothing (is_walked walked.now) (each_known known.entry) 0
        (map file_syntax files.now)
        → fields_by known.entry.edition (seen_from (each_known known.entry) 0 (map file_syntax files.now))
        ≡ these_fields (text_views fields.keeping.items) (text_views fields.filled.items)) }
{
    match known.edition {
        Edition::First => Ok(none(alloc)),
        Edition::Second => fields_in_second(alloc, known, files, walked),
    }
}
