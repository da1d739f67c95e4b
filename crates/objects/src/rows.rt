//! The rows that obtain into fields.

ghost use Rattle.std.specs.Prelude.{◌≡◌, ◌++◌, [], IfOk, OnOk, Some, map, option_map};
ghost use Rattle.facts.specs.FactViews.{type_view};
ghost use Rattle.meaning.specs.Objects.{local_named, type_at, object_rows};
ghost use Rattle.meaning.specs.Tracked.{placed};
ghost use Rattle.mentions.specs.MarkViews.{named_view, field_left_view, assigned_view, field_mark_view, body_view, mark_view, marks_view};
ghost use Rattle.objects.specs.ObjectViews.{candidate_view, candidate_of, written_candidate, field_candidate, candidate, listed_row, row_by, unaddressed_candidate, rows_by};
ghost use Rattle.tracked.specs.LocalViews.{object_row_view, unbound_in, HasObjects};
ghost use Rattle.tracked_rows.specs.RowViews.{known_view, giving_view};
ghost use Rattle.tree.specs.View.{identifier_syntax};

use crate::addresses::unaddressed;
use crate::kinds::object_kind;
use facts::CancelType;
use mentions::{Assigned, BodyPlace, FieldLeft, FieldMark, Mark, Named};
use std::alloc::{AllocError, Global};
use tracked::{ObjectRow, Objects, enter, type_given};
use tracked_rows::{Giving, Known, has_field, is_given, local_meant, row_giving};
use tree::Identifier;

/// A left side `x.f` at a position that is given, where f keeps, and x is a local: it obtains, if that is an object.
#[derive(Clone, Copy)]
pub struct Candidate<'a> {
    /// The number of x.
    pub object: u32,
    pub field: &'a Identifier,
    /// The type of the position.
    pub cancel_type: CancelType,
}

/// The local that a bare name means.
pub fn local_named(known: Known<'_, '_>, named: Option<Named<'_>>) -> Option<u32>
    ensures { result ≡ local_named (known_view known.entry) (option_map named_view named.entry) }
{
    match named {
        Some(named) => local_meant(known, named.at, None),
        None => None,
    }
}

/// The type of the position, if it is given.
fn type_at(index: usize, giving: Option<Giving<'_>>) -> Option<CancelType>
    ensures { option_map type_view result ≡ type_at index (option_map giving_view giving.entry) }
{
    match giving {
        Some(giving) => {
            if is_given(index, giving.gives) {
                Some(type_given(index, giving.gives))
            } else {
                None
            }
        }
        None => None,
    }
}

fn candidate_of<'a>(
    field: &'a Identifier,
    object: Option<u32>,
    cancel_type: Option<CancelType>,
) -> Option<Candidate<'a>>
    ensures { option_map candidate_view result ≡ candidate_of (identifier_syntax field.now) object
        (option_map type_view cancel_type) }
{
    match (object, cancel_type) {
        (Some(object), Some(cancel_type)) => Some(Candidate {
            object,
            field,
            cancel_type,
        }),
        _ => None,
    }
}

fn written_candidate<'a>(
    known: Known<'_, 'a>,
    left: FieldLeft<'a>,
    assigned: Assigned<'_, 'a>,
) -> Option<Candidate<'a>>
    ensures { option_map candidate_view result ≡ written_candidate (known_view known.entry)
        (field_left_view left.entry) (assigned_view assigned.entry) }
{
    if !left.has_brackets && has_field(known.fields, left.field.text.as_str()) {
        let giving = row_giving(known, *assigned.row);
        candidate_of(
            left.field,
            local_named(known, left.object),
            type_at(assigned.left_side, giving),
        )
    } else {
        None
    }
}

fn field_candidate<'a>(known: Known<'_, 'a>, mark: FieldMark<'_, 'a>) -> Option<Candidate<'a>>
    ensures { option_map candidate_view result ≡ field_candidate (known_view known.entry)
        (field_mark_view mark.entry) }
{
    match mark {
        FieldMark::WritesField { left, assigned } => match assigned {
            Some(assigned) => written_candidate(known, left, assigned),
            None => None,
        },
        _ => None,
    }
}

fn candidate_in<'a>(known: Known<'_, 'a>, mark: Mark<'_, 'a>) -> Option<Candidate<'a>>
    ensures { option_map candidate_view result ≡ candidate (known_view known.entry) (mark_view mark.entry) }
{
    match mark {
        Mark::OfFields(_, mark) => field_candidate(known, *mark),
        _ => None,
    }
}

/// The row of a candidate in these bodies.
fn row_of<'a>(
    alloc: Global,
    objects: &Objects<'a>,
    bodies: &[BodyPlace<'a>],
    candidate: Candidate<'a>,
) -> Result<Option<ObjectRow<'a>>, AllocError>
    ensures { IfOk result (λ row. listed_row row ≡ row_by (unbound_in objects.now) (map body_view bodies.now)
        (Some (candidate_view candidate.entry))) }
{
    let body = match bodies.first() {
        Some(body) => *body,
        None => return Ok(None),
    };
    let kind = object_kind(alloc, objects.unbound(candidate.object), body)?;
    match kind {
        Some(kind) => Ok(Some(ObjectRow {
            object: candidate.object,
            kind,
            field: candidate.field,
            cancel_type: candidate.cancel_type,
            body: body.at,
        })),
        None => Ok(None),
    }
}

/// The marks of a file, with what is known of it.
#[derive(Clone, Copy)]
struct Marked<'s, 'm, 'k, 'a> {
    known: Known<'k, 'a>,
    marks: &'s [Mark<'m, 'a>],
}

/// The candidate, unless the object may get another value by its address.
fn unaddressed_candidate<'a>(
    seen: Marked<'_, '_, '_, 'a>,
    candidate: Option<Candidate<'a>>,
) -> Option<Candidate<'a>>
    ensures { option_map candidate_view result ≡ unaddressed_candidate (known_view seen.entry.known)
        (placed [] (marks_view seen.entry.marks.now)) (option_map candidate_view candidate.entry) }
{
    match candidate {
        Some(candidate) => {
            if unaddressed(seen.known, seen.marks, Some(candidate.object)).is_some() {
                Some(candidate)
            } else {
                None
            }
        }
        None => None,
    }
}

/// The row that a mark in these bodies is of, if it obtains into a field.
fn row_there<'a>(
    alloc: Global,
    seen: Marked<'_, '_, '_, 'a>,
    objects: &Objects<'a>,
    bodies: &[BodyPlace<'a>],
    mark: Mark<'_, 'a>,
) -> Result<Option<ObjectRow<'a>>, AllocError>
    ensures { IfOk result (λ row. listed_row row ≡ rows_by (known_view seen.entry.known)
        (placed [] (marks_view seen.entry.marks.now)) (unbound_in objects.now) (map body_view bodies.now)
        (mark_view mark.entry)) }
{
    match unaddressed_candidate(seen, candidate_in(seen.known, mark)) {
        Some(candidate) => row_of(alloc, objects, bodies, candidate),
        None => Ok(None),
    }
}

fn add_row<'a>(row: Option<ObjectRow<'a>>, rows: &mut Vec<ObjectRow<'a>>) -> Result<(), AllocError>
    ensures { OnOk result (map object_row_view rows.new.items ≡ map object_row_view rows.old.items
        ++ listed_row row.entry) }
{
    if let Some(row) = row {
        rows.push(row)?;
    }
    Ok(())
}

/// The left sides of these marks that obtain into fields of these objects, in the order of the marks.
///
/// # Errors
///
/// Memory was refused.
pub fn object_rows<'a>(
    alloc: Global,
    known: Known<'_, 'a>,
    objects: &Objects<'a>,
    marks: &[Mark<'_, 'a>],
) -> Result<Vec<ObjectRow<'a>>, AllocError>
    requires { HasObjects objects.now (known_view known) (placed [] (marks_view marks.now)) }
    ensures { IfOk result (λ rows. map object_row_view rows.items ≡ object_rows (known_view known.entry)
        (placed [] (marks_view marks.now))) }
{
    let mut rows: Vec<ObjectRow<'a>> = Vec::new(alloc);
    let mut bodies: Vec<BodyPlace<'a>> = Vec::new(alloc);
    for mark in marks {
        enter(&mut bodies, *mark)?;
        let row = row_there(alloc, Marked { known, marks }, objects, &bodies, *mark)?;
        add_row(row, &mut rows)?;
    }
    Ok(rows)
}
