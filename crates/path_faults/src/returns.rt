//! Faults at a return.

ghost use Rattle.std.specs.Prelude.{◌≡◌, OnOk, map};
ghost use Rattle.tracked_rows.specs.EventViews.{handed_view};
ghost use Rattle.path_faults.specs.FaultViews.{AddsFaults};
ghost use Rattle.path_faults.specs.FoundFaults.{is_left_to, is_uncalled, is_open_there, returns_open, open_faults, returns_left, left_faults, returns_uncalled, returns_live, live_faults, return_faults};
ghost use Rattle.events.specs.VariableViews.{variable_view};

use crate::at_node::AtNode;
use crate::fault::{PathCode, PathFault, add_if};
use crate::kinds::{is_declared, is_handed_kept, owes_call};
use crate::live::Lives;
use crate::losses::is_live_group;
use bodies::{Arrivals, CancelClass};
use events::Variable;
use std::alloc::AllocError;
use tracked_rows::Handed;

/// Whether the cancel variable at that place in the list may be pending at the node in a group that may be live there.
pub fn is_left_to<A: Arrivals, L: Lives>(at: &AtNode<'_, '_, A, L>, place: usize) -> bool
    ensures { result ≡ is_left_to (map variable_view at.now.variables.now)
        (A.cancels at.now.arrivals.now place at.now.node.node)
        (L.lives at.now.live.now at.now.node) }
{
    for (group_place, group) in at.variables.iter().enumerate() {
        if group.kind.is_group()
            && at
                .arrivals
                .has_cancel(place, at.node.node, CancelClass::Pending(group.number))
            && at.live.is_live(at.node, group_place)
        {
            return true;
        }
    }
    false
}

/// Whether the cancel variable at that place in the list may be open at the node, or kept in an object, or left there
/// to a live group, whatever a return hands on.
pub fn is_uncalled<A: Arrivals, L: Lives>(at: &AtNode<'_, '_, A, L>, variable: usize) -> bool
    ensures { result ≡ is_uncalled (map variable_view at.now.variables.now)
        (A.cancels at.now.arrivals.now variable at.now.node.node)
        (L.lives at.now.live.now at.now.node) }
{
    at.arrivals
        .has_cancel(variable, at.node.node, CancelClass::Opened)
        || at
            .arrivals
            .has_cancel(variable, at.node.node, CancelClass::Kept)
        || is_left_to(at, variable)
}

/// Whether the cancel variable of that number, at that place in the list, may be open at the node, or kept in an object
/// that a return of these does not hand on.
fn is_open_there<A: Arrivals, L>(
    at: &AtNode<'_, '_, A, L>,
    handed: &[Handed],
    place: usize,
    number: u32,
) -> bool
    ensures { result ≡ is_open_there number (map handed_view handed.now)
        (A.cancels at.now.arrivals.now place at.now.node.node) }
{
    at.arrivals
        .has_cancel(place, at.node.node, CancelClass::Opened)
        || (at
            .arrivals
            .has_cancel(place, at.node.node, CancelClass::Kept)
            && !is_handed_kept(number, handed))
}

/// Whether the variable at that place in the list is a cancel variable that is owed at a return, and may be open there,
/// or kept in an object that is not handed on.
fn returns_open<'a, A: Arrivals, L>(
    at: &AtNode<'_, 'a, A, L>,
    handed: &[Handed],
    place: usize,
    variable: Variable<'a>,
) -> bool
    ensures { result ≡ returns_open (A.cancels at.now.arrivals.now) at.now.node.node (map handed_view handed.now) place
        (variable_view variable.entry) }
{
    owes_call(variable, handed) && is_open_there(at, handed, place, variable.number)
}

fn add_open<'a, A: Arrivals, L>(
    at: &AtNode<'_, 'a, A, L>,
    handed: &[Handed],
    faults: &mut Vec<PathFault<'a>>,
) -> Result<(), AllocError>
    ensures { OnOk result (AddsFaults faults.old.items faults.new.items (open_faults
        (map variable_view at.now.variables.now) (A.cancels at.now.arrivals.now) at.now.node.node at.now.node.at
        (map handed_view handed.now))) }
{
    for (place, variable) in at.variables.iter().enumerate() {
        let is_open = returns_open(at, handed, place, *variable);
        add_if(
            is_open,
            at.node.at,
            PathCode::NotCalled,
            variable.name,
            faults,
        )?;
    }
    Ok(())
}

/// Whether the variable at that place in the list is a cancel variable that is owed at a return, and may be left there
/// to a live group.
fn returns_left<'a, A: Arrivals, L: Lives>(
    at: &AtNode<'_, 'a, A, L>,
    handed: &[Handed],
    place: usize,
    variable: Variable<'a>,
) -> bool
    ensures { result ≡ returns_left (map variable_view at.now.variables.now) (A.cancels at.now.arrivals.now)
        (L.lives at.now.live.now at.now.node) at.now.node.node (map handed_view handed.now) place
        (variable_view variable.entry) }
{
    owes_call(variable, handed) && is_left_to(at, place)
}

fn add_left<'a, A: Arrivals, L: Lives>(
    at: &AtNode<'_, 'a, A, L>,
    handed: &[Handed],
    faults: &mut Vec<PathFault<'a>>,
) -> Result<(), AllocError>
    ensures { OnOk result (AddsFaults faults.old.items faults.new.items (left_faults
        (map variable_view at.now.variables.now) (A.cancels at.now.arrivals.now)
        (L.lives at.now.live.now at.now.node) at.now.node.node at.now.node.at
        (map handed_view handed.now))) }
{
    for (place, variable) in at.variables.iter().enumerate() {
        let is_left = returns_left(at, handed, place, *variable);
        add_if(
            is_left,
            at.node.at,
            PathCode::LeftToLiveGroup,
            variable.name,
            faults,
        )?;
    }
    Ok(())
}

/// Whether the variable at that place in the list is a cancel variable that is owed at a return, and may not have been
/// called there.
pub fn returns_uncalled<'a, A: Arrivals, L: Lives>(
    at: &AtNode<'_, 'a, A, L>,
    handed: &[Handed],
    place: usize,
    variable: Variable<'a>,
) -> bool
    ensures { result ≡ returns_uncalled (map variable_view at.now.variables.now) (A.cancels at.now.arrivals.now)
        (L.lives at.now.live.now at.now.node) at.now.node.node (map handed_view handed.now) place
        (variable_view variable.entry) }
{
    owes_call(variable, handed)
        && (is_open_there(at, handed, place, variable.number) || is_left_to(at, place))
}

/// Whether the variable at that place in the list is a group that the body declares, and may be live at a return.
pub fn returns_live<A: Arrivals>(
    arrivals: &A,
    node: usize,
    place: usize,
    variable: Variable<'_>,
) -> bool
    ensures { result ≡ returns_live (A.groups arrivals.now) node place (variable_view variable.entry) }
{
    is_declared(variable.role) && is_live_group(arrivals, node, place, variable)
}

fn add_live<'a, A: Arrivals, L>(
    at: &AtNode<'_, 'a, A, L>,
    faults: &mut Vec<PathFault<'a>>,
) -> Result<(), AllocError>
    ensures { OnOk result (AddsFaults faults.old.items faults.new.items (live_faults
        (map variable_view at.now.variables.now) (A.groups at.now.arrivals.now) at.now.node.node at.now.node.at)) }
{
    for (place, variable) in at.variables.iter().enumerate() {
        let is_live = returns_live(at.arrivals, at.node.node, place, *variable);
        add_if(
            is_live,
            at.node.at,
            PathCode::GroupIsLive,
            variable.name,
            faults,
        )?;
    }
    Ok(())
}

/// Adds the faults of a return that hands these on.
pub fn add_return<'a, A: Arrivals, L: Lives>(
    at: &AtNode<'_, 'a, A, L>,
    handed: &[Handed],
    faults: &mut Vec<PathFault<'a>>,
) -> Result<(), AllocError>
    ensures { OnOk result (AddsFaults faults.old.items faults.new.items (return_faults
        (map variable_view at.now.variables.now) (A.cancels at.now.arrivals.now) (A.groups at.now.arrivals.now)
        (L.lives at.now.live.now at.now.node) at.now.node.node at.now.node.at
        (map handed_view handed.now))) }
{
    add_open(at, handed, faults)?;
    add_left(at, handed, faults)?;
    add_live(at, faults)
}
