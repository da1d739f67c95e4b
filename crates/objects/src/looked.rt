//! A file that is looked at, with the left sides `x.f` into which makers and givers give what fields keep.

ghost use Rattle.std.specs.Prelude.{◌≡◌, true, false, [], IfOk, map, option_map};
ghost use Rattle.meaning.specs.BodyEvents.{seen_file};
ghost use Rattle.meaning.specs.Objects.{object_in};
ghost use Rattle.meaning.specs.Tracked.{some_keep};
ghost use Rattle.meaning.specs.Uses.{seen_in};
ghost use Rattle.mentions.specs.MarkViews.{body_view, marks_view};
ghost use Rattle.objects.specs.ObjectViews.{with_lefts};
ghost use Rattle.tracked.specs.LocalViews.{object_kind_view, seen_view, Sees};
ghost use Rattle.tracked_rows.specs.RowViews.{known_view, left_among};
ghost use Rattle.tree.specs.View.{file_syntax};

use crate::kinds::kind_there;
use crate::lefts::placed_lefts;
use crate::rows::object_rows;
use bumpalo::Bump;
use marks::file_marks;
use mentions::{BodyPlace, Mark};
use std::alloc::{AllocError, Global};
use tracked::{ObjectKind, Seen, look, objects_in};
use tracked_rows::{Known, PlacedLeft, some_keep};
use tree::File;

/// The same, with these left sides.
fn with_lefts<'k, 'a>(known: Known<'k, 'a>, lefts: &'k [PlacedLeft]) -> Known<'k, 'a>
    ensures { known_view result ≡ with_lefts (known_view known.entry) (left_among lefts.now) }
{
    Known {
        object_lefts: lefts,
        ..known
    }
}

/// Keeps left sides in the arena.
fn keep<'m>(arena: &'m Bump, lefts: &[PlacedLeft]) -> Result<&'m [PlacedLeft], AllocError>
    ensures { IfOk result (λ kept. kept.now ≡ lefts.now) }
{
    let kept = arena.try_alloc_slice_copy(lefts)?;
    Ok(kept)
}

/// Looks at marks where no field keeps.
fn see_without<'m, 'a>(
    alloc: Global,
    known: Known<'m, 'a>,
    marks: Vec<Mark<'m, 'a>>,
) -> Result<Seen<'m, 'm, 'a>, AllocError>
    requires { some_keep (known_view known).fields ≡ false }
    ensures view { IfOk result (λ seen. seen_view seen ≡ seen_in (known_view known.entry)
        (marks_view marks.entry.items)) }
    ensures sees { IfOk result (λ seen. Sees seen) }
{
    look(alloc, with_lefts(known, &[]), marks, &[], None)
}

/// Looks at marks where some field keeps.
fn see_fields<'m, 'a>(
    alloc: Global,
    arena: &'m Bump,
    known: Known<'m, 'a>,
    marks: Vec<Mark<'m, 'a>>,
) -> Result<Seen<'m, 'm, 'a>, AllocError>
    ensures view { IfOk result (λ seen. seen_view seen ≡ seen_in (known_view known.entry)
        (marks_view marks.entry.items)) }
    ensures sees { IfOk result (λ seen. Sees seen) }
{
    let objects = objects_in(alloc, known, &marks)?;
    let rows = object_rows(alloc, known, &objects, &marks)?;
    let lefts = placed_lefts(alloc, &rows)?;
    let kept = keep(arena, &lefts)?;
    look(alloc, with_lefts(known, kept), marks, &rows, Some(objects))
}

/// Looks at a file. What its marks refer to stands in the arena.
///
/// # Errors
///
/// Memory was refused.
pub fn see<'m, 'a>(
    alloc: Global,
    arena: &'m Bump,
    known: Known<'m, 'a>,
    file: &'a File,
) -> Result<Seen<'m, 'm, 'a>, AllocError>
    ensures view { IfOk result (λ seen. seen_view seen ≡ seen_file (known_view known.entry) (file_syntax file.now)) }
    ensures sees { IfOk result (λ seen. Sees seen) }
{
    let keeps = some_keep(known.fields);
    let marks = file_marks(alloc, arena, known.edition, keeps, file)?;
    if keeps {
        see_fields(alloc, arena, known, marks)
    } else {
        see_without(alloc, known, marks)
    }
}

/// What the local of that number is to the innermost of these bodies, where some field keeps.
///
/// # Errors
///
/// Memory was refused.
pub fn object_in(
    alloc: Global,
    seen: &Seen<'_, '_, '_>,
    bodies: &[BodyPlace<'_>],
    number: Option<u32>,
) -> Result<Option<ObjectKind>, AllocError>
    requires { Sees seen.now }
    ensures { some_keep (seen_view seen.now).known.fields ≡ true → IfOk result (λ kind. option_map object_kind_view kind
        ≡ object_in (seen_view seen.now).known (seen_view seen.now).marks (map body_view bodies.now) number) }
{
    let unbound = match number {
        Some(number) => seen.unbound(number),
        None => None,
    };
    kind_there(alloc, unbound, bodies)
}
