//! Mentions of makers and givers.

ghost use Rattle.std.specs.Prelude.{◌≡◌, OnOk, map};
ghost use Rattle.tracked.specs.LocalViews.{seen_view, Sees};
ghost use Rattle.meaning.specs.Uses.{fault_at, cancel_discarded, last_name, row_call_faults, call_faults, is_only_called, giving_role_faults, giving_faults, if_not, hands_on, body_gives, last_fault, cancel_used_otherwise};
ghost use Rattle.mentions.specs.MarkViews.{named_view, row_view, place_view, body_view, role_view, mention_view};
ghost use Rattle.tracked_rows.specs.RowViews.{known_view, giving_view};
ghost use Rattle.uses.specs.OutcomeViews.{AddsFaults};
ghost use Rattle.meaning.specs.Tracked.{row_giving, giving_of};

use crate::at::At;
use crate::blanks::has_blank;
use crate::faults::{UseCode, UseFault, add_fault, add_last};
use allowed_uses::{body_gives, hands_on};
use mentions::{CallPlace, Named, Role, Row};
use std::alloc::{AllocError, Global};
use tracked::{Seen, row_binds};
use tracked_rows::{Giving, Known, are_locals, giving_of, is_maker, last_name, row_giving};
use tree::Edition;

/// A maker or giver whose cancel function nothing obtains.
fn add_discarded<'a>(
    faults: &mut Vec<UseFault<'a>>,
    at: u32,
    named: Named<'a>,
) -> Result<(), AllocError>
    ensures { OnOk result (AddsFaults faults.old.items faults.new.items (fault_at at cancel_discarded
        (last_name (named_view named.entry)))) }
{
    add_fault(faults, at, UseCode::CancelDiscarded, last_name(named))
}

/// A call that is the only value of a row.
fn add_row_call<'a>(
    seen: &Seen<'_, '_, 'a>,
    named: Named<'a>,
    row: Row<'a>,
    faults: &mut Vec<UseFault<'a>>,
) -> Result<(), AllocError>
    requires { Sees seen.now }
    ensures { OnOk result (AddsFaults faults.old.items faults.new.items (row_call_faults (seen_view seen.now)
        (named_view named.entry) (row_view row.entry) (row_giving (seen_view seen.now).known (row_view row.entry)))) }
{
    let giving = match row_giving(seen.known, row) {
        Some(giving) => giving,
        None => return add_last(faults, UseCode::CancelUsedOtherwise, named),
    };
    if has_blank(row, giving.gives) {
        return add_discarded(faults, row.statement, named);
    }
    if are_locals(seen.known, row, giving.gives) && row_binds(seen, row) {
        return Ok(());
    }
    add_last(faults, UseCode::CancelUsedOtherwise, named)
}

/// A call that is an item of a return list.
fn add_item_call<'a>(
    alloc: Global,
    at: At<'_, '_, '_, 'a>,
    giving: Giving<'_>,
    item: usize,
    faults: &mut Vec<UseFault<'a>>,
) -> Result<(), AllocError>
    ensures { OnOk result (AddsFaults faults.old.items faults.new.items (if_not (hands_on (body_gives
        (seen_view at.entry.seen.now).known (map body_view at.entry.bodies.now)) item (giving_view giving.entry))
        (last_fault cancel_used_otherwise (mention_view at.entry.mention.now).named))) }
{
    let gives = body_gives(alloc, at.seen.known, at.bodies)?;
    if hands_on(&gives, item, giving) {
        return Ok(());
    }
    add_last(faults, UseCode::CancelUsedOtherwise, at.mention.named)
}

/// A call.
fn add_call<'a>(
    alloc: Global,
    at: At<'_, '_, '_, 'a>,
    giving: Giving<'_>,
    place: CallPlace<'_, 'a>,
    faults: &mut Vec<UseFault<'a>>,
) -> Result<(), AllocError>
    requires { Sees at.seen.now }
    ensures { OnOk result (AddsFaults faults.old.items faults.new.items (call_faults (seen_view at.entry.seen.now)
        (map body_view at.entry.bodies.now) (mention_view at.entry.mention.now) (giving_view giving.entry)
        (place_view place.entry))) }
{
    let named = at.mention.named;
    match place {
        CallPlace::Statement => add_discarded(faults, at.mention.site, named),
        CallPlace::OnlyValue(row) => add_row_call(at.seen, named, *row, faults),
        CallPlace::ReturnItem(item) => add_item_call(alloc, at, giving, item, faults),
        CallPlace::Nowhere => add_last(faults, UseCode::CancelUsedOtherwise, named),
        CallPlace::Deferred => add_last(faults, UseCode::CancelUsedOtherwise, named),
        CallPlace::UnderGo => add_last(faults, UseCode::CancelUsedOtherwise, named),
    }
}

/// Whether a maker or a giver may be named only where it is called: in the first edition a maker, in the second each.
fn is_only_called(known: Known<'_, '_>, named: Named<'_>) -> bool
    ensures { result ≡ is_only_called (known_view known.entry).edition (known_view known.entry)
        (named_view named.entry) }
{
    match known.edition {
        Edition::First => is_maker(known, named),
        Edition::Second => true,
    }
}

/// A maker or giver in its role. A call of an instance is no call here, so that what it names stands elsewhere.
fn add_role<'a>(
    alloc: Global,
    at: At<'_, '_, '_, 'a>,
    giving: Giving<'_>,
    faults: &mut Vec<UseFault<'a>>,
) -> Result<(), AllocError>
    requires { Sees at.seen.now }
    ensures { OnOk result (AddsFaults faults.old.items faults.new.items (giving_role_faults
        (seen_view at.entry.seen.now) (map body_view at.entry.bodies.now) (mention_view at.entry.mention.now)
        (giving_view giving.entry) (role_view at.entry.mention.now.role))) }
{
    let named = at.mention.named;
    match at.mention.role {
        Role::Called(call) => add_call(alloc, at, giving, call.place, faults),
        Role::CalledInBrackets => add_last(faults, UseCode::CancelUsedOtherwise, named),
        _ => {
            if is_only_called(at.seen.known, named) {
                return add_last(faults, UseCode::CancelUsedOtherwise, named);
            }
            Ok(())
        }
    }
}

/// Adds the faults of a mention as one of a maker or a giver.
///
/// # Errors
///
/// Memory was refused.
pub fn add_giving<'a>(
    alloc: Global,
    at: At<'_, '_, '_, 'a>,
    faults: &mut Vec<UseFault<'a>>,
) -> Result<(), AllocError>
    requires { Sees at.seen.now }
    ensures { OnOk result (AddsFaults faults.old.items faults.new.items (giving_faults (seen_view at.entry.seen.now)
        (map body_view at.entry.bodies.now) (mention_view at.entry.mention.now) (giving_of
        (seen_view at.entry.seen.now).known (named_view at.entry.mention.now.named)))) }
{
    match giving_of(at.seen.known, at.mention.named) {
        Some(giving) => add_role(alloc, at, giving, faults),
        None => Ok(()),
    }
}
