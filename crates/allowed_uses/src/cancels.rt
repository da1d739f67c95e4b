//! Calls, passes and returns of cancel functions, and where they are nil.

ghost use Rattle.std.specs.Prelude.{◌≡◌, ◌&&◌, ◌∷◌, [], false, if◌then◌else◌, IfOk, Some, map, option_map};
ghost use Rattle.meaning.specs.Tracked.{is_universe};
ghost use Rattle.meaning.specs.Uses.{allowed_if, body_gives, call, cancel_called, cancel_passed, cancel_use, has_its_arguments, is_given_as, is_own, variable_at};
ghost use Rattle.allowed_uses.specs.UseViews.{use_view};
ghost use Rattle.facts.specs.FactViews.{type_view};
ghost use Rattle.mentions.specs.MarkViews.{body_view, call_view, mention_view, role_view};
ghost use Rattle.tracked.specs.LocalViews.{local_view};
ghost use Rattle.tracked_rows.specs.RowViews.{known_view};

use crate::allowed_use::Use;
use crate::gives::{body_gives, is_given_as};
use crate::groups::only_argument;
use crate::local_mention::{LocalMention, variable_at};
use crate::places::{has_no_argument, is_call_place, is_deferred_place, is_statement_place, takes};
use facts::{CancelType, TrackedType};
use mentions::{Call, Role, is_body};
use std::alloc::{AllocError, Global};
use tracked_rows::{Event, Known, callee_of, means_universe};

/// `()`, or `(e)` where the function takes a cause.
pub fn has_its_arguments(cancel_type: CancelType, call: Call<'_, '_>) -> bool
    ensures { result ≡ has_its_arguments (type_view cancel_type) (call_view call.entry) }
{
    match cancel_type {
        CancelType::Plain => has_no_argument(call),
        CancelType::WithCause => only_argument(call).is_some(),
    }
}

/// `c()` as a statement, and `defer c()`, or `c(e)` and `defer c(e)` where it takes a cause; in literals too.
fn cancel_called<'a>(
    cancel_type: CancelType,
    number: u32,
    selected: Option<&str>,
    call: Call<'_, 'a>,
) -> Use<'a>
    ensures { use_view result ≡ cancel_called (type_view cancel_type) number
        (option_map (λ m. m.now) selected.entry) (call_view call.entry) }
{
    if selected.is_some() || !has_its_arguments(cancel_type, call) {
        return Use::NotAllowed;
    }
    if is_statement_place(call.place) {
        return Use::Does(Event::Call { variable: number });
    }
    if is_deferred_place(call.place) {
        return Use::Does(Event::DeferCall { variable: number });
    }
    Use::NotAllowed
}

/// Argument c, without `&`, of a function that takes one of its type at that position, at a call place or under
/// `defer`.
fn cancel_passed<'a>(
    known: Known<'_, 'a>,
    cancel_type: CancelType,
    here: LocalMention<'_, '_, 'a>,
    position: usize,
    call: Call<'_, 'a>,
) -> Use<'a>
    ensures { use_view result ≡ cancel_passed (known_view known.entry) (type_view cancel_type)
        (variable_at (local_view here.entry.local) (mention_view here.entry.mention))
        (mention_view here.entry.mention).named.selected position false (call_view call.entry) }
{
    let selected = here.mention.named.selected;
    if selected.is_some() || !takes(known, call, TrackedType::Cancel(cancel_type), position) {
        return Use::NotAllowed;
    }
    let variable = variable_at(here.local, here.mention);
    let callee = callee_of(known, call.callee);
    if is_call_place(call.place) {
        return Use::Does(Event::Pass {
            variable,
            callee,
            position,
        });
    }
    if is_deferred_place(call.place) {
        return Use::Does(Event::DeferPass {
            variable,
            callee,
            position,
        });
    }
    Use::NotAllowed
}

/// An item of a return list at the position of a result of its type, which the return hands on.
fn cancel_returned<'a>(
    alloc: Global,
    known: Known<'_, 'a>,
    cancel_type: CancelType,
    here: LocalMention<'_, '_, 'a>,
    item: usize,
) -> Result<Use<'a>, AllocError>
    ensures { IfOk result (λ allowed. use_view allowed ≡ allowed_if
        (is_own (local_view here.entry.local) (map body_view here.entry.bodies.now)
        && is_given_as item (type_view cancel_type) (body_gives (known_view known.entry)
        (map body_view here.entry.bodies.now))) []) }
{
    if !is_body(here.local.body, here.bodies) {
        return Ok(Use::NotAllowed);
    }
    let gives = body_gives(alloc, known, here.bodies)?;
    if is_given_as(item, cancel_type, &gives) {
        Ok(Use::Silent)
    } else {
        Ok(Use::NotAllowed)
    }
}

/// Where the variable is nil, it is as good as called, if that `nil` is the universe's.
fn cancel_nil<'a>(known: Known<'_, 'a>, number: u32, nil: u32) -> Use<'a>
    ensures { use_view result ≡ Some (if is_universe ((known_view known.entry).means nil)
        then call number ∷ [] else []) }
{
    if means_universe(known, nil) {
        Use::Does(Event::Call { variable: number })
    } else {
        Use::Silent
    }
}

/// What a mention of a cancel variable of that type does, if it is allowed; reads aside.
///
/// # Errors
///
/// Memory was refused.
pub fn cancel_use<'a>(
    alloc: Global,
    known: Known<'_, 'a>,
    cancel_type: CancelType,
    here: LocalMention<'_, '_, 'a>,
) -> Result<Use<'a>, AllocError>
    ensures { IfOk result (λ allowed. use_view allowed ≡ cancel_use (known_view known.entry)
        (type_view cancel_type) (local_view here.entry.local) (map body_view here.entry.bodies.now)
        (mention_view here.entry.mention) (role_view here.entry.mention.role)) }
{
    let local = here.local;
    match here.mention.role {
        Role::Called(call) => Ok(cancel_called(
            cancel_type,
            local.number,
            here.mention.named.selected,
            *call,
        )),
        Role::Argument(has_address, position, call) => {
            if is_body(local.body, here.bodies) && !has_address {
                Ok(cancel_passed(known, cancel_type, here, position, *call))
            } else {
                Ok(Use::NotAllowed)
            }
        }
        Role::Returned(item) => cancel_returned(alloc, known, cancel_type, here, item),
        Role::FoundNil(nil) => Ok(cancel_nil(known, local.number, nil)),
        Role::FoundError(_, _) => Ok(Use::Silent),
        Role::Elsewhere => Ok(Use::NotAllowed),
        Role::Key => Ok(Use::NotAllowed),
        Role::CalledInBrackets => Ok(Use::NotAllowed),
        _ => Ok(Use::NotAllowed),
    }
}
