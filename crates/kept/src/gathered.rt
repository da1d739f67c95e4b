//! What the marks of a file keep, and which fields of locals get a value.

ghost use Rattle.std.specs.Prelude.{ℕ, IfOk, OnOk, map};
ghost use Rattle.kept.specs.KeptViews.{listed_keep, written_by, GathersMark, Gathers, AddsWrites, SeesKeeping};
ghost use Rattle.meaning.specs.Mentions.{of_fields};
ghost use Rattle.mentions.specs.MarkViews.{body_view, field_left_view, field_mark_view, mark_view};
ghost use Rattle.tracked.specs.LocalViews.{seen_view};
ghost use Rattle.tracked_rows.specs.RowViews.{known_view};

use crate::around::Around;
use crate::row::Keep;
use crate::rows::{add_declared, add_keep, stored_there};
use mentions::mark::{FieldLeft, FieldMark};
use mentions::{BodyPlace, Mark};
use objects::local_named;
use std::alloc::{AllocError, Global};
use tracked::{Seen, enter};
use tracked_rows::Known;

/// A field of a local gets a value.
#[derive(Clone, Copy)]
pub struct Write<'a> {
    /// The number of the local.
    pub object: u32,
    pub field: &'a str,
    /// What is kept there then, if something is.
    pub keep: Option<Keep<'a>>,
}

/// What the marks of a file keep, and which fields they write, in their order.
#[derive(Drop)]
pub struct Gathered<'a> {
    pub keeps: Vec<Keep<'a>>,
    pub writes: Vec<Write<'a>>,
}

/// Adds the write, if it is to a field of a local.
fn add_write<'a>(
    known: Known<'_, '_>,
    left: FieldLeft<'a>,
    keep: Option<Keep<'a>>,
    writes: &mut Vec<Write<'a>>,
) -> Result<(), AllocError>
    ensures { OnOk result (AddsWrites writes.old.items writes.new.items (written_by (known_view known.entry)
        (field_left_view left.entry) (listed_keep keep.entry))) }
{
    if let Some(object) = local_named(known, left.object) {
        writes.push(Write {
            object,
            field: left.field.text.as_str(),
            keep,
        })?;
    }
    Ok(())
}

/// Adds what a mark of fields keeps and writes.
fn gather_field<'a>(
    alloc: Global,
    around: Around<'_, '_, '_, 'a>,
    field: FieldMark<'_, 'a>,
    gathered: &mut Gathered<'a>,
) -> Result<(), AllocError>
    requires { SeesKeeping around.seen.now }
    ensures { OnOk result ((site : ℕ) → GathersMark (seen_view around.entry.seen.now)
        (map body_view around.entry.bodies.now) (of_fields site (field_mark_view field.entry)) gathered.old
        gathered.new) }
{
    match field {
        FieldMark::WritesField { left, assigned } => {
            let keep = stored_there(alloc, around, left, assigned)?;
            add_keep(keep, &mut gathered.keeps)?;
            add_write(around.seen.known, left, keep, &mut gathered.writes)
        }
        _ => Ok(()),
    }
}

/// Adds what a mark keeps and writes.
fn gather_mark<'a>(
    alloc: Global,
    around: Around<'_, '_, '_, 'a>,
    mark: Mark<'_, 'a>,
    gathered: &mut Gathered<'a>,
) -> Result<(), AllocError>
    requires { SeesKeeping around.seen.now }
    ensures { OnOk result (GathersMark (seen_view around.entry.seen.now) (map body_view around.entry.bodies.now)
        (mark_view mark.entry) gathered.old gathered.new) }
{
    match mark {
        Mark::Mentions(mention) => add_declared(alloc, around, mention, &mut gathered.keeps),
        Mark::OfFields(_, field) => gather_field(alloc, around, *field, gathered),
        _ => Ok(()),
    }
}

/// The same in these bodies.
fn gather_in<'s, 'm, 'a>(
    alloc: Global,
    seen: &'s Seen<'_, 'm, 'a>,
    bodies: &'s [BodyPlace<'a>],
    mark: Mark<'m, 'a>,
    gathered: &mut Gathered<'a>,
) -> Result<(), AllocError>
    requires { SeesKeeping seen.now }
    ensures { OnOk result (GathersMark (seen_view seen.now) (map body_view bodies.now) (mark_view mark.entry)
        gathered.old gathered.new) }
{
    let around = Around { seen, bodies };
    gather_mark(alloc, around, mark, gathered)
}

/// What the marks of a file keep, and which fields of locals they write.
///
/// # Errors
///
/// Memory was refused.
pub fn gather<'m, 'a>(alloc: Global, seen: &Seen<'_, 'm, 'a>) -> Result<Gathered<'a>, AllocError>
    requires { SeesKeeping seen.now }
    ensures { IfOk result (λ gathered. Gathers (seen_view seen.now) gathered) }
{
    let mut gathered = Gathered {
        keeps: Vec::new(alloc),
        writes: Vec::new(alloc),
    };
    let mut bodies: Vec<BodyPlace<'a>> = Vec::new(alloc);
    for mark in &seen.marks {
        enter(&mut bodies, *mark)?;
        gather_in(alloc, &*seen, &bodies, *mark, &mut gathered)?;
    }
    Ok(gathered)
}
