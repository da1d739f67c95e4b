//! What a mention of a cancel variable does, by the edition: in the second a goroutine may call it, and it may be read
//! anywhere.

ghost use Rattle.std.specs.Prelude.{◌≡◌, [], IfOk, map, option_map};
ghost use Rattle.meaning.specs.Uses.{allowed_if, call_taken_on, cancel_use_by, either_use, is_read, taken_on};
ghost use Rattle.allowed_uses.specs.UseViews.{use_view};
ghost use Rattle.facts.specs.FactViews.{type_view};
ghost use Rattle.mentions.specs.MarkViews.{body_view, call_view, mention_view, role_view};
ghost use Rattle.tracked.specs.LocalViews.{local_view};
ghost use Rattle.tracked_rows.specs.RowViews.{known_view};

use crate::allowed_use::{Use, allowed_if};
use crate::cancels::{cancel_use, has_its_arguments};
use crate::local_mention::LocalMention;
use crate::places::is_under_go;
use facts::CancelType;
use mentions::{Call, Mention, Role};
use std::alloc::{AllocError, Global};
use tracked::Local;
use tracked_rows::{Event, Known};
use tree::Edition;

/// `go c()`, or `go c(e)` where the function takes a cause; in literals too.
fn call_taken_on<'a>(
    cancel_type: CancelType,
    number: u32,
    selected: Option<&str>,
    call: Call<'_, 'a>,
) -> Use<'a>
    ensures { use_view result ≡ call_taken_on (type_view cancel_type) number
        (option_map (λ m. m.now) selected.entry) (call_view call.entry) }
{
    if selected.is_some() {
        return Use::NotAllowed;
    }
    allowed_if(
        has_its_arguments(cancel_type, call) && is_under_go(call.place),
        Event::GoCall { variable: number },
    )
}

/// What a mention of a cancel variable of that type does that a goroutine calls.
fn taken_on<'a>(cancel_type: CancelType, local: Local<'a>, mention: Mention<'_, 'a>) -> Use<'a>
    ensures { use_view result ≡ taken_on (type_view cancel_type) (local_view local.entry)
        (mention_view mention.entry) (role_view mention.entry.role) }
{
    match mention.role {
        Role::Called(call) => {
            call_taken_on(cancel_type, local.number, mention.named.selected, *call)
        }
        _ => Use::NotAllowed,
    }
}

/// Whether a mention reads a cancel variable of that type. A call with other arguments than its own is no read, and no
/// read is where it may get another value.
fn is_read(cancel_type: CancelType, mention: Mention<'_, '_>) -> bool
    ensures { result ≡ is_read (type_view cancel_type) (role_view mention.entry.role)
        (option_map (λ m. m.now) mention.entry.named.selected) }
{
    match mention.role {
        Role::Elsewhere => true,
        Role::Key => true,
        Role::Called(call) => {
            mention.named.selected.is_some() || has_its_arguments(cancel_type, *call)
        }
        Role::CalledInBrackets => true,
        Role::Argument(has_address, _, _) => !has_address,
        Role::Returned(_) => true,
        _ => false,
    }
}

/// What is not allowed otherwise is, if it is a read, which does nothing.
fn or_read(allowed: Use<'_>, is_read: bool) -> Use<'_>
    ensures { use_view result ≡ either_use (use_view allowed.entry) (allowed_if is_read []) }
{
    match allowed {
        Use::NotAllowed => {
            if is_read {
                Use::Silent
            } else {
                Use::NotAllowed
            }
        }
        _ => allowed,
    }
}

/// What is not allowed otherwise is in the second edition, if a goroutine calls it, or it is a read.
fn or_in_second<'a>(
    allowed: Use<'a>,
    cancel_type: CancelType,
    local: Local<'a>,
    mention: Mention<'_, 'a>,
) -> Use<'a>
    ensures { use_view result ≡ either_use (use_view allowed.entry) (either_use (taken_on (type_view cancel_type)
        (local_view local.entry) (mention_view mention.entry) (role_view mention.entry.role)) (allowed_if
        (is_read (type_view cancel_type) (role_view mention.entry.role)
        (option_map (λ m. m.now) mention.entry.named.selected)) [])) }
{
    match allowed {
        Use::NotAllowed => {
            let taken = taken_on(cancel_type, local, mention);
            or_read(taken, is_read(cancel_type, mention))
        }
        _ => allowed,
    }
}

/// What a mention of a cancel variable of that type does, if it is allowed by the edition of the rules.
///
/// # Errors
///
/// Memory was refused.
pub fn cancel_use_by<'a>(
    alloc: Global,
    known: Known<'_, 'a>,
    cancel_type: CancelType,
    here: LocalMention<'_, '_, 'a>,
) -> Result<Use<'a>, AllocError>
    ensures { IfOk result (λ allowed. use_view allowed ≡ cancel_use_by (known_view known.entry).edition
        (known_view known.entry) (type_view cancel_type) (local_view here.entry.local)
        (map body_view here.entry.bodies.now) (mention_view here.entry.mention) (role_view here.entry.mention.role)) }
{
    let allowed = cancel_use(alloc, known, cancel_type, here)?;
    match known.edition {
        Edition::First => Ok(allowed),
        Edition::Second => Ok(or_in_second(allowed, cancel_type, here.local, here.mention)),
    }
}
