//! The locals that a literal mentions, in the order of their places.

ghost use Rattle.std.specs.Prelude.{◌≡◌, ◌==◌, IfOk, OnOk, map};
ghost use Rattle.std.specs.List.{list_any};
ghost use Rattle.literal_mentions.specs.LiteralViews.{mention_at_view, mentioned_if, AddsMentions};
ghost use Rattle.meaning.specs.Kept.{in_order_of_place, is_key, mentioned_in, mentioned_there};
ghost use Rattle.mentions.specs.MarkViews.{body_view, mark_view, role_view};
ghost use Rattle.tracked.specs.LocalViews.{seen_view};
ghost use Rattle.tracked_rows.specs.RowViews.{known_view};

use mentions::{BodyPlace, Mark, Role};
use std::alloc::{AllocError, Global};
use tracked::{Seen, enter, variable_of};
use tracked_rows::Known;

/// A mention of a local, by its place.
#[derive(Clone, Copy)]
pub struct MentionAt {
    pub at: u32,
    /// The number of the local.
    pub number: u32,
}

/// Whether the literal at that offset is one of these bodies.
fn stands_in(literal: u32, bodies: &[BodyPlace<'_>]) -> bool
    ensures { result ≡ list_any (λ b. b.at == literal) (map body_view bodies.now) }
{
    for body in bodies {
        if body.at == literal {
            return true;
        }
    }
    false
}

/// Whether it is a key, which may be the name of a field.
fn is_key(role: Role<'_, '_>) -> bool
    ensures { result ≡ is_key (role_view role.entry) }
{
    match role {
        Role::Key => true,
        _ => false,
    }
}

/// Adds the local that a mark mentions, if it is a mention of one.
fn add_mentioned(
    known: Known<'_, '_>,
    mark: Mark<'_, '_>,
    found: &mut Vec<MentionAt>,
) -> Result<(), AllocError>
    ensures { OnOk result (AddsMentions found.old.items found.new.items (mentioned_there (known_view known.entry)
        (mark_view mark.entry))) }
{
    if let Mark::Mentions(mention) = mark {
        if is_key(mention.role) {
            return Ok(());
        }
        if let Some(number) = variable_of(known, mention) {
            found.push(MentionAt {
                at: mention.named.at,
                number,
            })?;
        }
    }
    Ok(())
}

/// The same of a mark in these bodies, if the literal is one of them.
fn add_inside<'a>(
    known: Known<'_, 'a>,
    literal: u32,
    bodies: &[BodyPlace<'a>],
    mark: Mark<'_, 'a>,
    found: &mut Vec<MentionAt>,
) -> Result<(), AllocError>
    ensures { OnOk result (AddsMentions found.old.items found.new.items (mentioned_if (known_view known.entry) literal
        (map body_view bodies.now) (mark_view mark.entry))) }
{
    if stands_in(literal, bodies) {
        return add_mentioned(known, mark, found);
    }
    Ok(())
}

/// The mentions of locals in the literal at that offset, mark by mark.
fn mentioned_in(
    alloc: Global,
    seen: &Seen<'_, '_, '_>,
    literal: u32,
) -> Result<Vec<MentionAt>, AllocError>
    ensures { IfOk result (λ found. map mention_at_view found.items ≡ mentioned_in (seen_view seen.now) literal) }
{
    let mut found = Vec::new(alloc);
    let mut bodies: Vec<BodyPlace<'_>> = Vec::new(alloc);
    for mark in &seen.marks {
        enter(&mut bodies, *mark)?;
        add_inside(seen.known, literal, &bodies, *mark, &mut found)?;
    }
    Ok(found)
}

/// Puts mentions in the order of their places; those at one place stay in the order that they have.
fn order_by_place(mentions: &mut Vec<MentionAt>) -> Result<(), AllocError>
    ensures { OnOk result (map mention_at_view mentions.new.items ≡ in_order_of_place
        (map mention_at_view mentions.old.items)) }
{
    mentions.sort_by_key(|mention| mention.at)
}

/// The mentions of locals in the literal at that offset, in the order of their places.
///
/// # Errors
///
/// Memory was refused.
pub fn mentioned_in_order(
    alloc: Global,
    seen: &Seen<'_, '_, '_>,
    literal: u32,
) -> Result<Vec<MentionAt>, AllocError>
    ensures { IfOk result (λ found. map mention_at_view found.items ≡ in_order_of_place (mentioned_in
        (seen_view seen.now) literal)) }
{
    let mut found = mentioned_in(alloc, seen, literal)?;
    order_by_place(&mut found)?;
    Ok(found)
}
