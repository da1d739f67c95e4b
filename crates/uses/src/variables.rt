//! Mentions of variables that bind nothing.

ghost use Rattle.std.specs.Prelude.{◌≡◌, IfOk, map};
ghost use Rattle.allowed_uses.specs.UseViews.{use_view};
ghost use Rattle.facts.specs.FactViews.{kind_view};
ghost use Rattle.tracked.specs.LocalViews.{local_view, seen_view, Sees};
ghost use Rattle.mentions.specs.MarkViews.{body_view, call_view, role_view, mention_view};
ghost use Rattle.meaning.specs.Uses.{group_called, group_use, kind_use};

use crate::tracked_names::is_free;
use allowed_uses::{
    LocalMention, Use, cancel_use_by, group_awaited, group_lent, group_limited, group_started,
    group_tried, only_argument,
};
use facts::VariableKind;
use mentions::{Call, Role};
use std::alloc::{AllocError, Global};
use tracked::Seen;

/// A call of a method of a group.
fn group_called<'a>(
    alloc: Global,
    seen: &Seen<'_, '_, 'a>,
    here: LocalMention<'_, '_, 'a>,
    call: Call<'_, 'a>,
) -> Result<Use<'a>, AllocError>
    requires { Sees seen.now }
    ensures { IfOk result (λ allowed. use_view allowed ≡ group_called (seen_view seen.now)
        (local_view here.entry.local) (map body_view here.entry.bodies.now)
        (mention_view here.entry.mention).named.selected (call_view call.entry)) }
{
    let method = match here.mention.named.selected {
        Some(method) => method,
        None => return Ok(Use::NotAllowed),
    };
    if method == "Go" {
        let is_free = is_free(alloc, seen, only_argument(call))?;
        return Ok(group_started(seen.known, here, call, is_free));
    }
    if method == "TryGo" {
        let is_free = is_free(alloc, seen, only_argument(call))?;
        return Ok(group_tried(seen.known, here, call, is_free));
    }
    if method == "Wait" {
        return Ok(group_awaited(seen.known.edition, here, call));
    }
    if method == "SetLimit" {
        return Ok(group_limited(here, call));
    }
    Ok(Use::NotAllowed)
}

/// What a mention of a group does, if it is allowed.
fn group_use<'a>(
    alloc: Global,
    seen: &Seen<'_, '_, 'a>,
    here: LocalMention<'_, '_, 'a>,
) -> Result<Use<'a>, AllocError>
    requires { Sees seen.now }
    ensures { IfOk result (λ allowed. use_view allowed ≡ group_use (seen_view seen.now)
        (local_view here.entry.local) (map body_view here.entry.bodies.now) (mention_view here.entry.mention)
        (role_view here.entry.mention.role)) }
{
    match here.mention.role {
        Role::Called(call) => group_called(alloc, seen, here, *call),
        Role::Argument(_, position, call) => Ok(group_lent(seen.known, here, position, *call)),
        Role::FoundNil(_) => Ok(Use::Silent),
        Role::FoundError(_, _) => Ok(Use::Silent),
        _ => Ok(Use::NotAllowed),
    }
}

/// What a mention of a variable of that kind does, if it is allowed.
///
/// # Errors
///
/// Memory was refused.
pub fn kind_use<'a>(
    alloc: Global,
    seen: &Seen<'_, '_, 'a>,
    here: LocalMention<'_, '_, 'a>,
    kind: VariableKind,
) -> Result<Use<'a>, AllocError>
    requires { Sees seen.now }
    ensures { IfOk result (λ allowed. use_view allowed ≡ kind_use (seen_view seen.now)
        (local_view here.entry.local) (kind_view kind) (map body_view here.entry.bodies.now)
        (mention_view here.entry.mention)) }
{
    match kind {
        VariableKind::Cancel => {
            cancel_use_by(alloc, seen.known, seen.cancel_type_of(here.local), here)
        }
        VariableKind::Group => group_use(alloc, seen, here),
    }
}
