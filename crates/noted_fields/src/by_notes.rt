//! Which names of fields keep, and which may be fields', by what is said of fields.

ghost use Rattle.std.specs.Prelude.{◌≡◌, ◌++◌, IfOk, OnOk, map};
ghost use Rattle.std.specs.List.{list_any};
ghost use Rattle.noted_fields.specs.NotedFields.{filled_by, filled_there, is_among, keeps, kept_by, kept_there, methods_by, note_view, put_by, some_put, spoils_it};
ghost use Rattle.imports.specs.Views.{text_views};

use crate::note::Note;
use std::alloc::{AllocError, Global};

/// Whether a cancel function is put into some field.
pub fn some_put(notes: &[Note<'_>]) -> bool
    ensures { result ≡ some_put (map note_view notes.now) }
{
    for note in notes {
        if let Note::Put(_) = note {
            return true;
        }
    }
    false
}

/// The names of fields into which one is put.
fn put_names<'a>(alloc: Global, notes: &[Note<'a>]) -> Result<Vec<&'a str>, AllocError>
    ensures { IfOk result (λ names. text_views names.items ≡ put_by (map note_view notes.now)) }
{
    let mut names = Vec::new(alloc);
    for note in notes {
        if let Note::Put(name) = note {
            names.push(*name)?;
        }
    }
    Ok(names)
}

fn is_among(names: &[&str], name: &str) -> bool
    ensures { result ≡ is_among (text_views names.now) name.now }
{
    for other in names {
        if *other == name {
            return true;
        }
    }
    false
}

/// Whether it says that a field of that name gets something else.
fn spoils(note: Note<'_>, name: &str) -> bool
    ensures { result ≡ spoils_it name.now (note_view note.entry) }
{
    match note {
        Note::Spoiled(other) => other == name,
        _ => false,
    }
}

fn is_spoiled(notes: &[Note<'_>], name: &str) -> bool
    ensures { result ≡ list_any (spoils_it name.now) (map note_view notes.now) }
{
    for note in notes {
        if spoils(*note, name) {
            return true;
        }
    }
    false
}

/// Whether fields of that name keep, by these notes, and the names into which something is put.
fn keeps(put: &[&str], notes: &[Note<'_>], name: &str) -> bool
    ensures { result ≡ keeps (text_views put.now) (map note_view notes.now) name.now }
{
    is_among(put, name) && !is_spoiled(notes, name)
}

/// Adds a name that is called, if its fields keep.
fn add_kept<'a>(
    put: &[&str],
    notes: &[Note<'a>],
    note: Note<'a>,
    fields: &mut Vec<&'a str>,
) -> Result<(), AllocError>
    ensures { OnOk result (text_views fields.new.items ≡ text_views fields.old.items
        ++ kept_there (text_views put.now) (map note_view notes.now) (note_view note.entry)) }
{
    if let Note::Called(name) = note {
        if keeps(put, notes, name) {
            fields.push(name)?;
        }
    }
    Ok(())
}

/// The names that keep, in the order in which they are called, and each as often.
///
/// # Errors
///
/// Memory was refused.
pub fn kept_names<'a>(alloc: Global, notes: &[Note<'a>]) -> Result<Vec<&'a str>, AllocError>
    ensures { IfOk result (λ fields. text_views fields.items ≡ kept_by (map note_view notes.now)) }
{
    let put = put_names(alloc, notes)?;
    let mut fields = Vec::new(alloc);
    for note in notes {
        add_kept(&put, notes, *note, &mut fields)?;
    }
    Ok(fields)
}

/// The names of methods.
fn method_names<'a>(alloc: Global, notes: &[Note<'a>]) -> Result<Vec<&'a str>, AllocError>
    ensures { IfOk result (λ names. text_views names.items ≡ methods_by (map note_view notes.now)) }
{
    let mut names = Vec::new(alloc);
    for note in notes {
        if let Note::Method(name) = note {
            names.push(*name)?;
        }
    }
    Ok(names)
}

/// Adds a name that may be a field's, if no method has it.
fn add_filled<'a>(
    methods: &[&str],
    note: Note<'a>,
    names: &mut Vec<&'a str>,
) -> Result<(), AllocError>
    ensures { OnOk result (text_views names.new.items ≡ text_views names.old.items
        ++ filled_there (text_views methods.now) (note_view note.entry)) }
{
    if let Note::Filled(name) = note {
        if !is_among(methods, name) {
            names.push(name)?;
        }
    }
    Ok(())
}

/// The names that may be fields'.
///
/// # Errors
///
/// Memory was refused.
pub fn filled_names<'a>(alloc: Global, notes: &[Note<'a>]) -> Result<Vec<&'a str>, AllocError>
    ensures { IfOk result (λ names. text_views names.items ≡ filled_by (map note_view notes.now)) }
{
    let methods = method_names(alloc, notes)?;
    let mut names = Vec::new(alloc);
    for note in notes {
        add_filled(&methods, *note, &mut names)?;
    }
    Ok(names)
}
