//! What the marks of a file do to its locals.

ghost use Rattle.std.specs.Prelude.{◌≡◌, ℕ, OnOk, Some, map, unwrap_or};
ghost use Rattle.tracked.specs.LocalViews.{entry_view, noted_mention, NotesMark};
ghost use Rattle.mentions.specs.MarkViews.{mention_view, body_view, mark_view};
ghost use Rattle.meaning.specs.Mentions.{mentions};
ghost use Rattle.meaning.specs.Tracked.{variable_of, is_obtained_by, is_made_by};
ghost use Rattle.tracked_rows.specs.RowViews.{known_view};

use crate::local::SeenLocal;
use crate::table::Entries;
use mentions::{BodyPlace, Mark, Mention, Role, is_body};
use std::alloc::AllocError;
use tracked_rows::{Known, local_meant, row_makes, row_obtains};

/// The local that a mention means or declares.
pub fn variable_of(known: Known<'_, '_>, mention: Mention<'_, '_>) -> Option<u32>
    ensures { result ≡ variable_of (known_view known.entry) (mention_view mention.entry) }
{
    local_meant(known, mention.named.at, mention.declares)
}

/// Whether the mention is a left side that its row obtains.
fn is_obtained(known: Known<'_, '_>, mention: Mention<'_, '_>) -> bool
    ensures { result ≡ is_obtained_by (known_view known.entry) (mention_view mention.entry)
        (mention_view mention.entry).role }
{
    match mention.role {
        Role::Left(index, row) => row_obtains(known, *row, index),
        _ => false,
    }
}

/// Whether the mention is a left side that its row makes.
fn is_made(known: Known<'_, '_>, mention: Mention<'_, '_>) -> bool
    ensures { result ≡ is_made_by (known_view known.entry) (mention_view mention.entry)
        (mention_view mention.entry).role }
{
    match mention.role {
        Role::Left(index, row) => row_makes(known, *row, index).is_some(),
        _ => false,
    }
}

/// What is known of a local after a mention of it, where that is more than before.
fn noted<'a>(
    known: Known<'_, 'a>,
    bodies: &[BodyPlace<'a>],
    mention: Mention<'_, 'a>,
    entry: SeenLocal<'a>,
) -> Option<SeenLocal<'a>>
    ensures { (n : ℕ) → variable_of (known_view known.entry) (mention_view mention.entry) ≡ Some n →
        entry_view (unwrap_or result entry.entry) ≡ noted_mention (known_view known.entry) n (map body_view bodies.now)
        (mention_view mention.entry) (entry_view entry.entry) }
{
    let is_obtained = entry.is_obtained || is_obtained(known, mention);
    let is_made = entry.is_made || is_made(known, mention);
    let is_in_literal = entry.is_in_literal || !is_body(entry.local.body, bodies);
    if is_obtained == entry.is_obtained
        && is_made == entry.is_made
        && is_in_literal == entry.is_in_literal
    {
        return None;
    }
    Some(SeenLocal {
        local: entry.local,
        is_obtained,
        is_made,
        is_in_literal,
    })
}

/// Notes what a mark in these bodies does to the local that it is of.
///
/// # Errors
///
/// Memory was refused.
pub fn note<'a>(
    known: Known<'_, 'a>,
    bodies: &[BodyPlace<'a>],
    mark: Mark<'_, 'a>,
    entries: &mut Entries<'a>,
) -> Result<(), AllocError>
    ensures { OnOk result (NotesMark (known_view known.entry) (map body_view bodies.now) (mark_view mark.entry)
        entries.old entries.new) }
{
    match mark {
        Mark::Mentions(mention) => note_mention(known, bodies, mention, entries),
        _ => Ok(()),
    }
}

fn note_mention<'a>(
    known: Known<'_, 'a>,
    bodies: &[BodyPlace<'a>],
    mention: Mention<'_, 'a>,
    entries: &mut Entries<'a>,
) -> Result<(), AllocError>
    ensures { OnOk result (NotesMark (known_view known.entry) (map body_view bodies.now)
        (mentions (mention_view mention.entry)) entries.old entries.new) }
{
    let number = match variable_of(known, mention) {
        Some(number) => number,
        None => return Ok(()),
    };
    let entry = match entries.entry(number) {
        Some(entry) => entry,
        None => return Ok(()),
    };
    match noted(known, bodies, mention, entry) {
        Some(more) => entries.put(number, more),
        // Most mentions say nothing new.
        None => Ok(()),
    }
}
