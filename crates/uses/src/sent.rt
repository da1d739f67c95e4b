//! What functions under `go` get.

ghost use Rattle.std.specs.Prelude.{◌≡◌, ◌+◌, ◌<◌, IfOk, OnOk, drop, length, map};
ghost use Rattle.mentions.specs.MarkViews.{body_view, call_view, mark_view, mention_view, role_view};
ghost use Rattle.meaning.specs.BodyEvents.{function_sent, is_in_block, sent_events, sent_from, sent_in_role};
ghost use Rattle.meaning.specs.Mentions.{called, is_none_left};
ghost use Rattle.tracked.specs.LocalViews.{entry_view, local_role_view, seen_view, Sees};
ghost use Rattle.tracked_rows.specs.EventViews.{callee_view, events_view, sent_view};
ghost use Rattle.tree.specs.View.{expression_syntax, expressions_syntax};
ghost use Rattle.uses.specs.OutcomeViews.{sent_part};
ghost use Rattle.uses.specs.SentViews.{AddsSent, argument_sent, entry_sent, is_entry_sent, named_sent};

use allowed_uses::{is_under_go, item_variable, takes};
use facts::{TrackedType, VariableKind};
use mentions::mark::Position;
use mentions::{BodyPlace, Call, Mark, Mention, Role, is_body};
use std::alloc::{AllocError, Global};
use tracked::{LocalRole, Seen, SeenLocal, tracked_kind};
use tracked_rows::{Callee, Event, Sent, callee_of};
use tree::{Edition, Expr};

/// Whether the local is declared in a block, and no parameter.
fn is_in_block(role: LocalRole) -> bool
    ensures { result ≡ is_in_block (local_role_view role) }
{
    match role {
        LocalRole::InBlock => true,
        _ => false,
    }
}

/// A call in these bodies.
#[derive(Clone, Copy)]
struct CallThere<'s, 'k, 'm, 'a> {
    seen: &'s Seen<'k, 'm, 'a>,
    bodies: &'s [BodyPlace<'a>],
    call: Call<'m, 'a>,
}

/// Whether the function gets the local as its argument at that position: the body declares it in a block, and the
/// function takes what is of its type there.
fn is_sent<'a>(there: CallThere<'_, '_, '_, 'a>, position: usize, entry: SeenLocal<'a>) -> bool
    requires { Sees there.seen.now }
    ensures { result ≡ is_entry_sent (seen_view there.entry.seen.now) (map body_view there.entry.bodies.now)
        (call_view there.entry.call) position (entry_view entry.entry) }
{
    let local = entry.local;
    if !is_body(local.body, there.bodies) || !is_in_block(local.role) {
        return false;
    }
    match tracked_kind(entry) {
        Some(VariableKind::Cancel) => {
            let typed = TrackedType::Cancel(there.seen.cancel_type_of(local));
            takes(there.seen.known, there.call, typed, position)
        }
        _ => false,
    }
}

/// Adds a local that is the argument at that position, if the function gets it.
fn add_local<'a>(
    there: CallThere<'_, '_, '_, 'a>,
    position: usize,
    entry: SeenLocal<'a>,
    sent: &mut Vec<Sent>,
) -> Result<(), AllocError>
    requires { Sees there.seen.now }
    ensures { OnOk result (AddsSent sent.old.items sent.new.items (entry_sent (seen_view there.entry.seen.now)
        (map body_view there.entry.bodies.now) (call_view there.entry.call) position (entry_view entry.entry))) }
{
    if is_sent(there, position, entry) {
        sent.push(Sent {
            number: entry.local.number,
            position,
        })?;
    }
    Ok(())
}

/// Adds the variable that an argument names, if the function gets it at that position.
fn add_named<'a>(
    there: CallThere<'_, '_, '_, 'a>,
    position: usize,
    argument: &Expr,
    sent: &mut Vec<Sent>,
) -> Result<(), AllocError>
    requires { Sees there.seen.now }
    ensures { OnOk result (AddsSent sent.old.items sent.new.items (named_sent (seen_view there.entry.seen.now)
        (map body_view there.entry.bodies.now) (call_view there.entry.call) position
        (expression_syntax argument.now))) }
{
    match there.seen.entry(item_variable(there.seen.known, argument)) {
        Some(entry) => add_local(there, position, entry, sent),
        None => Ok(()),
    }
}

/// The same of an argument at its place: under `...` the last one is at no position.
fn add_argument<'a>(
    there: CallThere<'_, '_, '_, 'a>,
    place: Position,
    argument: &Expr,
    sent: &mut Vec<Sent>,
) -> Result<(), AllocError>
    requires { Sees there.seen.now }
    ensures { OnOk result (AddsSent sent.old.items sent.new.items (argument_sent (seen_view there.entry.seen.now)
        (map body_view there.entry.bodies.now) (call_view there.entry.call) place.index place.is_last
        (expression_syntax argument.now))) }
{
    if place.is_last && there.call.has_ellipsis {
        return Ok(());
    }
    add_named(there, place.index, argument, sent)
}

/// Whether none is left behind the argument of that number.
fn is_last(index: usize, list: &[Expr]) -> bool
    requires { index < length list.now }
    ensures { result ≡ is_none_left (expressions_syntax (drop (index + 1) list.now)) }
{
    index + 1 == list.len()
}

/// The variables that the function gets by these arguments.
fn all_sent<'a>(
    alloc: Global,
    there: CallThere<'_, '_, '_, 'a>,
    arguments: &'a [Expr],
) -> Result<Vec<Sent>, AllocError>
    requires { Sees there.seen.now }
    ensures { IfOk result (λ sent. map sent_view sent.items ≡ sent_from (seen_view there.entry.seen.now)
        (map body_view there.entry.bodies.now) (call_view there.entry.call) 0 (expressions_syntax arguments.now)) }
{
    let mut sent: Vec<Sent> = Vec::new(alloc);
    for (index, argument) in arguments.iter().enumerate() {
        let place = Position {
            index,
            is_last: is_last(index, arguments),
        };
        add_argument(there, place, argument, &mut sent)?;
    }
    Ok(sent)
}

/// What the function does that gets these.
fn function_sent<'a>(callee: Callee<'a>, sent: Vec<Sent>) -> Option<Event<'a>>
    ensures { events_view result ≡ function_sent (callee_view callee.entry) (map sent_view sent.items) }
{
    if sent.is_empty() {
        None
    } else {
        Some(Event::GoPass { callee, sent })
    }
}

/// What a call starts, if it stands under `go`.
fn call_sent<'a>(
    alloc: Global,
    there: CallThere<'_, '_, '_, 'a>,
) -> Result<Option<Event<'a>>, AllocError>
    requires { Sees there.seen.now }
    ensures { IfOk result (λ event. events_view event ≡ sent_in_role (seen_view there.entry.seen.now)
        (map body_view there.entry.bodies.now) (called (call_view there.entry.call))) }
{
    let call = there.call;
    if !is_under_go(call.place) {
        return Ok(None);
    }
    let sent = all_sent(alloc, there, call.arguments)?;
    Ok(function_sent(callee_of(there.seen.known, call.callee), sent))
}

/// The same of what the place asks of a mention.
fn mention_sent<'s, 'k, 'm, 'a>(
    alloc: Global,
    seen: &'s Seen<'k, 'm, 'a>,
    bodies: &'s [BodyPlace<'a>],
    mention: Mention<'m, 'a>,
) -> Result<Option<Event<'a>>, AllocError>
    requires { Sees seen.now }
    ensures { IfOk result (λ event. events_view event ≡ sent_in_role (seen_view seen.now) (map body_view bodies.now)
        (role_view mention.entry.role)) }
{
    match mention.role {
        Role::Called(call) => {
            let there = CallThere {
                seen,
                bodies,
                call: *call,
            };
            call_sent(alloc, there)
        }
        _ => Ok(None),
    }
}

/// The same by the edition: in the first nothing.
fn sent_by<'s, 'k, 'm, 'a>(
    alloc: Global,
    seen: &'s Seen<'k, 'm, 'a>,
    bodies: &'s [BodyPlace<'a>],
    mention: Mention<'m, 'a>,
) -> Result<Option<Event<'a>>, AllocError>
    requires { Sees seen.now }
    ensures { IfOk result (λ event. events_view event ≡ sent_events (seen_view seen.now).known.edition
        (seen_view seen.now) (map body_view bodies.now) (mention_view mention.entry)) }
{
    match seen.known.edition {
        Edition::First => Ok(None),
        Edition::Second => mention_sent(alloc, seen, bodies, mention),
    }
}

/// What a mark in these bodies starts that is a call under `go` of a function which gets cancel variables; in the
/// first edition nothing.
///
/// # Errors
///
/// Memory was refused.
pub fn sent_at<'s, 'm, 'a>(
    alloc: Global,
    seen: &'s Seen<'_, 'm, 'a>,
    bodies: &'s [BodyPlace<'a>],
    mark: &Mark<'m, 'a>,
) -> Result<Option<Event<'a>>, AllocError>
    requires { Sees seen.now }
    ensures { IfOk result (λ event. events_view event ≡ sent_part (seen_view seen.now) (map body_view bodies.now)
        (mark_view mark.now)) }
{
    match *mark {
        Mark::Mentions(mention) => sent_by(alloc, seen, bodies, mention),
        _ => Ok(None),
    }
}
