//! A file with what is known of it.

ghost use Rattle.std.specs.Prelude.{◌≡◌, ℕ, true, [], IfOk, OnOk, is_some, map, option_map};
ghost use Rattle.facts.specs.FactViews.{kind_view, type_view};
ghost use Rattle.tracked.specs.LocalViews.{local_view, entry_view, entry_in, noted_all, object_row_view, seen_by, seen_view, entry_of, unbound_local, HasLocals, TellsLocals, SeesLocals, HasLefts, MayHaveObjects, Sees};
ghost use Rattle.meaning.specs.BodyEvents.{distinct};
ghost use Rattle.meaning.specs.Objects.{object_rows};
ghost use Rattle.meaning.specs.Tracked.{some_keep, placed, locals_of};
ghost use Rattle.meaning.specs.Uses.{found, kind_of, is_tracked, cancel_type_of, first_obtaining};
ghost use Rattle.mentions.specs.MarkViews.{marks_view};
ghost use Rattle.tracked_rows.specs.RowViews.{known_view};

use crate::around::enter;
use crate::declared::add_locals;
use crate::kinds::{kind, tracked_kind};
use crate::local::{Local, SeenLocal};
use crate::noted::note;
use crate::object_rows::{ObjectRow, add_fields};
use crate::obtainings::{Obtainings, first_obtainings};
use crate::table::{Entries, Locals};
use crate::unbound::Objects;
use facts::{CancelType, TrackedType, VariableKind};
use mentions::{BodyPlace, Mark};
use std::alloc::{AllocError, Global};
use tracked_rows::Known;

/// A file's marks and locals, with what is known.
#[derive(Drop)]
pub struct Seen<'k, 'm, 'a> {
    pub known: Known<'k, 'a>,
    pub marks: Vec<Mark<'m, 'a>>,
    locals: Locals<'a>,
    /// None, where no field keeps.
    objects: Option<Objects<'a>>,
    obtainings: Obtainings,
}

/// The locals that the marks declare.
///
/// # Errors
///
/// Memory was refused.
pub fn all_locals<'a>(
    alloc: Global,
    known: Known<'_, 'a>,
    marks: &[Mark<'_, 'a>],
) -> Result<Locals<'a>, AllocError>
    ensures { IfOk result (λ locals. HasLocals locals (locals_of (known_view known.entry)
        (placed [] (marks_view marks.now)))) }
{
    let mut locals = Locals::new(alloc);
    let mut bodies: Vec<BodyPlace<'a>> = Vec::new(alloc);
    for mark in marks {
        enter(&mut bodies, *mark)?;
        add_locals(alloc, known, &bodies, *mark, &mut locals)?;
    }
    Ok(locals)
}

/// Notes what the marks do to the locals.
fn note_all<'a>(
    alloc: Global,
    known: Known<'_, 'a>,
    marks: &[Mark<'_, 'a>],
    entries: &mut Entries<'a>,
) -> Result<(), AllocError>
    ensures { OnOk result ((n : ℕ) → entry_in entries.new n ≡ option_map (noted_all (known_view known.entry) n
        (placed [] (marks_view marks.now))) (entry_in entries.old n)) }
{
    let mut bodies: Vec<BodyPlace<'a>> = Vec::new(alloc);
    for mark in marks {
        enter(&mut bodies, *mark)?;
        note(known, &bodies, *mark, entries)?;
    }
    Ok(())
}

/// What becomes of the locals that these marks declare, and of those of these rows, which obtain into fields.
fn seen_locals<'a>(
    alloc: Global,
    known: Known<'_, 'a>,
    marks: &[Mark<'_, 'a>],
    rows: &[ObjectRow<'a>],
) -> Result<Locals<'a>, AllocError>
    ensures { IfOk result (λ locals. TellsLocals locals (known_view known.entry) (placed [] (marks_view marks.now))
        (map object_row_view rows.now)) }
{
    let mut locals = all_locals(alloc, known, marks)?;
    add_fields(rows, &mut locals)?;
    note_all(alloc, known, marks, &mut locals.entries)?;
    Ok(locals)
}

/// Looks at the marks of a file in which these rows obtain into fields, as what is known says too.
///
/// # Errors
///
/// Memory was refused.
pub fn look<'k, 'm, 'a>(
    alloc: Global,
    known: Known<'k, 'a>,
    marks: Vec<Mark<'m, 'a>>,
    rows: &[ObjectRow<'a>],
    objects: Option<Objects<'a>>,
) -> Result<Seen<'k, 'm, 'a>, AllocError>
    requires rows { map object_row_view rows.now ≡ object_rows (known_view known)
        (placed [] (marks_view marks.items)) }
    requires lefts { HasLefts (known_view known) (placed [] (marks_view marks.items)) }
    requires objects { MayHaveObjects objects (known_view known) (placed [] (marks_view marks.items)) }
    ensures view { IfOk result (λ seen. seen_view seen ≡ seen_by (known_view known.entry)
        (placed [] (marks_view marks.entry.items))) }
    ensures sees { IfOk result (λ seen. Sees seen) }
{
    let locals = seen_locals(alloc, known, &marks, rows)?;
    let mut seen = Seen {
        known,
        marks,
        locals,
        objects,
        obtainings: Obtainings::new(alloc),
    };
    seen.obtainings = first_obtainings(alloc, &seen)?;
    Ok(seen)
}

impl<'k, 'm, 'a> Seen<'k, 'm, 'a> {
    /// The local of that number.
    pub fn entry(&self, number: Option<u32>) -> Option<SeenLocal<'a>>
        requires { SeesLocals self.now }
        ensures { option_map entry_view result ≡ option_map (entry_of (seen_view self.now))
            (found (seen_view self.now) number) }
    {
        match number {
            Some(number) => self.locals.entries.entry(number),
            None => None,
        }
    }

    /// The numbers of the locals, each once, in the order in which the marks declare them.
    pub fn numbers(&self) -> &[u32]
        requires { SeesLocals self.now }
        ensures { result.now ≡ distinct (map (λ l. l.number) (seen_view self.now).locals) }
    {
        &self.locals.numbers
    }

    /// The kind of the local of that number, whatever its role is.
    pub fn kind_of(&self, number: Option<u32>) -> Option<VariableKind>
        requires { SeesLocals self.now }
        ensures { option_map kind_view result ≡ kind_of (seen_view self.now)
            (found (seen_view self.now) number) }
    {
        match self.entry(number) {
            Some(entry) => kind(entry),
            None => None,
        }
    }

    /// Whether the local of that number is tracked.
    pub fn is_tracked(&self, number: Option<u32>) -> bool
        requires { SeesLocals self.now }
        ensures { result ≡ is_tracked (seen_view self.now) number }
    {
        match self.entry(number) {
            Some(entry) => tracked_kind(entry).is_some(),
            None => false,
        }
    }

    /// The type of a cancel variable: that which it is declared with; else that of the first binding, by place, that
    /// obtains it.
    pub fn cancel_type_of(&self, local: Local<'a>) -> CancelType
        requires { Sees self.now }
        ensures { type_view result ≡ cancel_type_of (seen_view self.now) (local_view local.entry) }
    {
        match local.typed {
            Some(TrackedType::Cancel(cancel_type)) => cancel_type,
            _ => self.obtainings.type_obtained(local.number),
        }
    }

    /// Whether some row obtains the local of that number, and binds it.
    pub fn is_obtained(&self, number: u32) -> bool
        requires { Sees self.now }
        ensures { result ≡ is_some (first_obtaining (seen_view self.now) number (seen_view self.now).marks) }
    {
        self.obtainings.obtaining(number).is_some()
    }

    /// The local of that number that has a name of its own and is bound in its declaration alone, where some field
    /// keeps: it may be an object.
    pub fn unbound(&self, number: u32) -> Option<Local<'a>>
        requires { Sees self.now }
        ensures { some_keep (seen_view self.now).known.fields ≡ true → option_map local_view result
            ≡ unbound_local (seen_view self.now).known (seen_view self.now).marks number }
    {
        match &self.objects {
            Some(objects) => objects.unbound(number),
            None => None,
        }
    }
}
