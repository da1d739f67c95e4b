//! In which form a name stands.

ghost use Rattle.std.specs.Prelude.{◌≡◌, map};
ghost use Rattle.mentions.specs.MarkViews.{body_view, mention_view, named_view, role_view};
ghost use Rattle.reasons.specs.WordViews.{callee_view, reason_view as reason_meant, told_view};
ghost use Rattle.tracked_rows.specs.RowViews.{known_view};
ghost use Rattle.use_reasons.specs.ReasonViews.{reason_view, text_view};
ghost use Rattle.use_reasons.specs.UseReasons.{callee_known, callee_told, cancel_told, form_of_cancel, form_of_group, group_told, is_comparison, told_as, told_text};

use crate::pointers::is_captured;
use crate::reason::{ReasonText, UseReason};
use mentions::{BodyPlace, Mention, Named, Role};
use reasons::{
    KnownCallee, NameTold, Reason, Told, cancel_reason, errgroup_reason, giver_reason, group_reason,
};
use tracked::variable_of;
use tracked_rows::{Known, facts_of, last_name};

/// What is known of the function that is called with the name.
fn callee_known(known: Known<'_, '_>, role: Role<'_, '_>) -> KnownCallee
    ensures { callee_view result ≡ callee_known (known_view known.entry) (role_view role.entry) }
{
    match role {
        Role::Argument(_, _, call) => match facts_of(known, call.callee) {
            Some(_) => KnownCallee::Known,
            None => KnownCallee::Unknown,
        },
        _ => KnownCallee::Unknown,
    }
}

/// The function that is called with the name.
fn callee_told<'a>(named: Named<'a>, role: Role<'_, 'a>) -> &'a str
    ensures { result.now ≡ callee_told (named_view named.entry) (role_view role.entry) }
{
    match role {
        Role::Argument(_, _, call) => last_name(call.callee),
        _ => last_name(named),
    }
}

fn told_text<'a>(told: Told, mention: Mention<'_, 'a>) -> ReasonText<'a>
    ensures { text_view result ≡ told_text (told_view told) (mention_view mention.entry) }
{
    match told.name {
        NameTold::NoName => ReasonText::Words(told.before),
        NameTold::CalleeName => ReasonText::Named(
            told.before,
            callee_told(mention.named, mention.role),
            told.after,
        ),
        NameTold::OwnName => {
            ReasonText::Named(told.before, last_name(mention.named), told.after)
        }
    }
}

/// Tells the reason of the mention.
pub fn told_as<'a>(reason: Reason, mention: Mention<'_, 'a>) -> UseReason<'a>
    ensures { reason_view result ≡ told_as (reason_meant reason) (mention_view mention.entry) }
{
    UseReason {
        at: mention.named.at,
        text: told_text(reason.told(), mention),
    }
}

/// Whether the mention tells that its name is compared.
pub fn is_comparison(role: Role<'_, '_>) -> bool
    ensures { result ≡ is_comparison (role_view role.entry) }
{
    match role {
        Role::FoundNil(_) => true,
        Role::FoundError(_, _) => true,
        _ => false,
    }
}

fn form_of_cancel(
    known: Known<'_, '_>,
    bodies: &[BodyPlace<'_>],
    mention: Mention<'_, '_>,
) -> Reason
    ensures { reason_meant result ≡ form_of_cancel (known_view known.entry) (map body_view bodies.now)
        (mention_view mention.entry) }
{
    match variable_of(known, mention) {
        Some(number) => cancel_reason(
            callee_known(known, mention.role),
            is_captured(number, bodies),
            mention.named.selected,
            mention.role,
        ),
        None => giver_reason(mention.role),
    }
}

fn form_of_group(known: Known<'_, '_>, bodies: &[BodyPlace<'_>], mention: Mention<'_, '_>) -> Reason
    ensures { reason_meant result ≡ form_of_group (known_view known.entry) (map body_view bodies.now)
        (mention_view mention.entry) }
{
    match variable_of(known, mention) {
        Some(number) => group_reason(
            callee_known(known, mention.role),
            is_captured(number, bodies),
            mention.named.selected,
            mention.role,
        ),
        None => errgroup_reason(mention.role),
    }
}

/// The reason of a mention of a cancel variable, a maker or a giver, in these bodies.
pub fn cancel_told<'a>(
    known: Known<'_, '_>,
    bodies: &[BodyPlace<'_>],
    mention: Mention<'_, 'a>,
) -> UseReason<'a>
    ensures { reason_view result ≡ cancel_told (known_view known.entry) (map body_view bodies.now)
        (mention_view mention.entry) }
{
    told_as(form_of_cancel(known, bodies, mention), mention)
}

/// The reason of a mention of a group variable, or of the package `errgroup`, in these bodies.
pub fn group_told<'a>(
    known: Known<'_, '_>,
    bodies: &[BodyPlace<'_>],
    mention: Mention<'_, 'a>,
) -> UseReason<'a>
    ensures { reason_view result ≡ group_told (known_view known.entry) (map body_view bodies.now)
        (mention_view mention.entry) }
{
    told_as(form_of_group(known, bodies, mention), mention)
}
