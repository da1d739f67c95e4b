//! Who takes what is given.

ghost use Rattle.std.specs.Prelude.{◌≡◌};
ghost use Rattle.meaning.specs.Kept.{is_taken_by, takes_it};
ghost use Rattle.mentions.specs.MarkViews.{named_view, taker_view};
ghost use Rattle.tracked_rows.specs.RowViews.{known_view};

use mentions::{Named, Taker};
use tracked_rows::{Known, may_be_field, means_universe};

/// Whether a function of that name takes what it is given: Go's own functions keep nothing, but for `append`.
fn is_taken_by(known: Known<'_, '_>, named: Named<'_>) -> bool
    ensures { result ≡ is_taken_by (known_view known.entry) (named_view named.entry) }
{
    named.selected.is_some() || !means_universe(known, named.at) || named.name == "append"
}

/// Whether the taker may see to the call of what it is given; a call of a field gives nothing.
pub fn takes_it(known: Known<'_, '_>, taker: Taker<'_, '_>) -> bool
    ensures { result ≡ takes_it (known_view known.entry) (taker_view taker.entry) }
{
    match taker {
        Taker::Nobody => false,
        Taker::CalledFunction(Some(call)) => is_taken_by(known, call.callee),
        Taker::CalledFunction(None) => true,
        Taker::Appending(named) => means_universe(known, named.at),
        Taker::Method(name) => !may_be_field(known.fields, name),
        Taker::Someone => true,
    }
}
