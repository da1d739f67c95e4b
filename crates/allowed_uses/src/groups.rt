//! Uses of groups.

ghost use Rattle.std.specs.Prelude.{◌≡◌, ◌&&◌, ◌∷◌, [], map, option_map};
ghost use Rattle.meaning.specs.Uses.{allowed_if, are_members, is_statement_place, is_statement_or_value, start, try, only_argument, literal_at, started_literal, group_awaited, group_limited, group_lent};
ghost use Rattle.allowed_uses.specs.UseViews.{use_view};
ghost use Rattle.mentions.specs.MarkViews.{body_view, call_view, mention_view};
ghost use Rattle.tracked.specs.LocalViews.{local_view};
ghost use Rattle.tracked_rows.specs.RowViews.{known_view};
ghost use Rattle.tree.specs.View.{expression_syntax};

use crate::allowed_use::{Use, allowed_if};
use crate::between::{are_all_members, run_all_once};
use crate::local_mention::LocalMention;
use crate::places::{
    has_no_argument, is_call_place, is_deferred_place, is_item_place, is_statement_or_value,
    is_statement_place, takes,
};
use facts::TrackedType;
use mentions::{Call, is_body};
use tracked_rows::{Event, Known, callee_of, only};
use tree::{Edition, Expr, ExprKind};

/// The only argument of a call, where no `...` stands after it.
pub fn only_argument<'a>(call: Call<'_, 'a>) -> Option<&'a Expr>
    ensures { option_map (λ e. expression_syntax e.now) result ≡ only_argument (call_view call.entry) }
{
    if call.has_ellipsis {
        None
    } else {
        only(call.arguments)
    }
}

/// The offset of a function literal.
pub fn literal_at(value: &Expr) -> Option<u32>
    ensures { result ≡ literal_at (expression_syntax value.now) }
{
    match &value.kind {
        ExprKind::FuncLit(_) => Some(value.span.start),
        _ => None,
    }
}

/// The literal that is started, if it is one.
fn started_literal(argument: Option<&Expr>) -> Option<u32>
    ensures { result ≡ started_literal (option_map (λ e. expression_syntax e.now) argument.entry) }
{
    match argument {
        Some(value) => literal_at(value),
        None => None,
    }
}

/// `g.Go(x)` as a statement; in literals of the body that declares g, where each one
/// between is a member. Whether x is free is told.
pub fn group_started<'a>(
    known: Known<'_, 'a>,
    here: LocalMention<'_, '_, 'a>,
    call: Call<'_, 'a>,
    is_free: bool,
) -> Use<'a>
    ensures { use_view result ≡ allowed_if (is_statement_place (call_view call.entry).place && (is_free
        && are_members (known_view known.entry) (local_view here.entry.local) (map body_view here.entry.bodies.now)))
        (start here.entry.local.number (started_literal (only_argument (call_view call.entry))) ∷ []) }
{
    let is_allowed = is_statement_place(call.place)
        && is_free
        && are_all_members(known, here.local, here.bodies);
    allowed_if(
        is_allowed,
        Event::Start {
            group: here.local.number,
            literal: started_literal(only_argument(call)),
        },
    )
}

/// `g.TryGo(x)` as a statement or value, as `g.Go(x)`.
pub fn group_tried<'a>(
    known: Known<'_, 'a>,
    here: LocalMention<'_, '_, 'a>,
    call: Call<'_, 'a>,
    is_free: bool,
) -> Use<'a>
    ensures { use_view result ≡ allowed_if (is_statement_or_value (call_view call.entry).place && (is_free
        && are_members (known_view known.entry) (local_view here.entry.local) (map body_view here.entry.bodies.now)))
        (try here.entry.local.number (started_literal (only_argument (call_view call.entry))) ∷ []) }
{
    let is_allowed = is_statement_or_value(call.place)
        && is_free
        && are_all_members(known, here.local, here.bodies);
    allowed_if(
        is_allowed,
        Event::Try {
            group: here.local.number,
            literal: started_literal(only_argument(call)),
        },
    )
}

/// `g.Wait()` at a call place, and under `defer`; in literals where each one between runs once, and not as an item.
pub fn group_awaited<'a>(
    edition: Edition,
    here: LocalMention<'_, '_, 'a>,
    call: Call<'_, 'a>,
) -> Use<'a>
    ensures { use_view result ≡ group_awaited edition (local_view here.entry.local)
        (map body_view here.entry.bodies.now) (call_view call.entry) }
{
    let body = here.local.body;
    if !has_no_argument(call) || !run_all_once(edition, body, here.bodies) {
        return Use::NotAllowed;
    }
    let group = here.local.number;
    if is_statement_or_value(call.place)
        || (is_item_place(call.place) && is_body(body, here.bodies))
    {
        return Use::Does(Event::Wait { group });
    }
    if is_deferred_place(call.place) {
        return Use::Does(Event::DeferWait { group });
    }
    Use::NotAllowed
}

/// `g.SetLimit(..)` as a statement.
pub fn group_limited<'a>(here: LocalMention<'_, '_, 'a>, call: Call<'_, 'a>) -> Use<'a>
    ensures { use_view result ≡ group_limited (local_view here.entry.local) (map body_view here.entry.bodies.now)
        (call_view call.entry) }
{
    if is_statement_place(call.place) && is_body(here.local.body, here.bodies) {
        Use::Silent
    } else {
        Use::NotAllowed
    }
}

/// Argument g or `&g` at a position of type `*errgroup.Group`, at a call place.
pub fn group_lent<'a>(
    known: Known<'_, 'a>,
    here: LocalMention<'_, '_, 'a>,
    position: usize,
    call: Call<'_, 'a>,
) -> Use<'a>
    ensures { use_view result ≡ group_lent (known_view known.entry) (local_view here.entry.local)
        (map body_view here.entry.bodies.now) (mention_view here.entry.mention).named.selected position
        (call_view call.entry) }
{
    if here.mention.named.selected.is_some() || !is_body(here.local.body, here.bodies) {
        return Use::NotAllowed;
    }
    let is_allowed = takes(known, call, TrackedType::Group, position) && is_call_place(call.place);
    allowed_if(
        is_allowed,
        Event::Lend {
            group: here.local.number,
            callee: callee_of(known, call.callee),
            position,
        },
    )
}
