//! The literals between the body that declares a variable and a mention of it.

ghost use Rattle.std.specs.Prelude.{◌≡◌, map};
ghost use Rattle.std.specs.List.{list_all};
ghost use Rattle.meaning.specs.Uses.{literals_between, is_deferred_use, is_run, runs_once, is_started_by_it, are_members};
ghost use Rattle.mentions.specs.MarkViews.{body_view, use_view};
ghost use Rattle.tracked.specs.LocalViews.{local_view};
ghost use Rattle.tracked_rows.specs.RowViews.{known_view};

use mentions::{BodyPlace, LiteralUse};
use tracked::Local;
use tracked_rows::{Known, local_meant};
use tree::Edition;

fn is_deferred(literal: LiteralUse<'_>) -> bool
    ensures { result ≡ is_deferred_use (use_view literal.entry) }
{
    match literal {
        LiteralUse::DeferredCall => true,
        _ => false,
    }
}

/// Under `defer` or `go`.
fn is_run(literal: LiteralUse<'_>) -> bool
    ensures { result ≡ is_run (use_view literal.entry) }
{
    match literal {
        LiteralUse::DeferredCall => true,
        LiteralUse::CallUnderGo => true,
        _ => false,
    }
}

/// Whether the literal runs once, where its statement is reached: in the first edition one under `defer` alone.
fn runs_once(edition: Edition, literal: BodyPlace<'_>) -> bool
    ensures { result ≡ runs_once edition (body_view literal.entry) }
{
    match edition {
        Edition::First => is_deferred(literal.literal),
        Edition::Second => is_run(literal.literal),
    }
}

/// Whether each of the literals between runs once.
pub fn run_all_once(edition: Edition, body: u32, bodies: &[BodyPlace<'_>]) -> bool
    ensures { result ≡ list_all (runs_once edition) (literals_between body (map body_view bodies.now)) }
{
    for literal in bodies {
        if literal.at == body {
            return true;
        }
        if !runs_once(edition, *literal) {
            return false;
        }
    }
    true
}

fn is_started_by(known: Known<'_, '_>, local: Local<'_>, literal: LiteralUse<'_>) -> bool
    ensures { result ≡ is_started_by_it (known_view known.entry) (local_view local.entry) (use_view literal.entry) }
{
    match literal {
        LiteralUse::StartedBy(named) => match local_meant(known, named.at, None) {
            Some(meant) => meant == local.number,
            None => false,
        },
        _ => false,
    }
}

/// Whether the variable is declared in one of these bodies, the innermost of which is the first, and starts each of the
/// literals between.
pub fn are_all_members(known: Known<'_, '_>, local: Local<'_>, bodies: &[BodyPlace<'_>]) -> bool
    ensures { result ≡ are_members (known_view known.entry) (local_view local.entry) (map body_view bodies.now) }
{
    for literal in bodies {
        if literal.at == local.body {
            return true;
        }
        if !is_started_by(known, local, literal.literal) {
            return false;
        }
    }
    false
}
