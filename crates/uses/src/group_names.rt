//! Mentions of the package `errgroup`.

ghost use Rattle.std.specs.Prelude.{◌≡◌, IfOk, OnOk};
ghost use Rattle.tracked.specs.LocalViews.{seen_view, Sees};
ghost use Rattle.meaning.specs.Uses.{is_making_place, is_made_or_parameter, errgroup_faults};
ghost use Rattle.mentions.specs.MarkViews.{named_view, place_view, role_view, mention_view};
ghost use Rattle.uses.specs.OutcomeViews.{AddsFaults};
ghost use Rattle.meaning.specs.FunctionFacts.{is_selected};

use crate::bindings::makes_group;
use crate::faults::{UseCode, UseFault, add_last};
use facts::is_import;
use mentions::{CallPlace, Mention, Named, Role};
use names::ERRGROUP;
use std::alloc::{AllocError, Global};
use tracked::Seen;
use tracked_rows::{is_of_universe, meaning};

fn is_selected(name: &str, named: Named<'_>) -> bool
    ensures { result ≡ is_selected name.now (named_view named.entry).selected }
{
    match named.selected {
        Some(member) => member == name,
        None => false,
    }
}

fn is_making_place(
    alloc: Global,
    seen: &Seen<'_, '_, '_>,
    place: CallPlace<'_, '_>,
) -> Result<bool, AllocError>
    requires { Sees seen.now }
    ensures { IfOk result (λ makes. makes ≡ is_making_place (seen_view seen.now) (place_view place.entry)) }
{
    match place {
        CallPlace::OnlyValue(row) => makes_group(alloc, seen, *row),
        _ => Ok(false),
    }
}

/// Whether it stands in a making, or is a whole type of a parameter.
fn is_made_or_parameter(
    alloc: Global,
    seen: &Seen<'_, '_, '_>,
    mention: &Mention<'_, '_>,
) -> Result<bool, AllocError>
    requires { Sees seen.now }
    ensures { IfOk result (λ is. is ≡ is_made_or_parameter (seen_view seen.now) (mention_view mention.now)
        (role_view mention.now.role)) }
{
    match mention.role {
        Role::ParameterPointer => Ok(is_selected("Group", mention.named)),
        Role::NamesType(row) => makes_group(alloc, seen, *row),
        Role::NewLiteral(row) => makes_group(alloc, seen, *row),
        Role::Called(call) => {
            if is_selected("WithContext", mention.named) {
                is_making_place(alloc, seen, call.place)
            } else {
                Ok(false)
            }
        }
        Role::Argument(_, _, call) => {
            if is_of_universe(seen.known, "new", call.callee) {
                is_making_place(alloc, seen, call.place)
            } else {
                Ok(false)
            }
        }
        _ => Ok(false),
    }
}

/// Adds the faults of a mention as one of the package `errgroup`.
///
/// # Errors
///
/// Memory was refused.
pub fn add_errgroup<'a>(
    alloc: Global,
    seen: &Seen<'_, '_, 'a>,
    mention: &Mention<'_, 'a>,
    faults: &mut Vec<UseFault<'a>>,
) -> Result<(), AllocError>
    requires { Sees seen.now }
    ensures { OnOk result (AddsFaults faults.old.items faults.new.items (errgroup_faults (seen_view seen.now)
        (mention_view mention.now))) }
{
    if !is_import(ERRGROUP, meaning(seen.known, mention.named.at)) {
        return Ok(());
    }
    let is_allowed = is_made_or_parameter(alloc, seen, mention)?;
    if is_allowed {
        return Ok(());
    }
    add_last(faults, UseCode::GroupUsedOtherwise, mention.named)
}
