//! What a node does of which a class may be a fault, and which variables are a fault of it.

ghost use Rattle.std.specs.Prelude.{◌≡◌, map};
ghost use Rattle.bodies.specs.NodeEvents.{node_event_view};
ghost use Rattle.events.specs.VariableViews.{variable_view};
ghost use Rattle.path_faults.specs.FaultViews.{deed_view};
ghost use Rattle.path_faults.specs.FoundFaults.{deed_of, is_return_deed, is_return, is_fault};
ghost use Rattle.tracked_rows.specs.EventViews.{event_view};

use crate::at_node::AtNode;
use crate::live::Lives;
use crate::losses::{loses_cancel, loses_group};
use crate::returns::{returns_live, returns_uncalled};
use bodies::{Arrivals, NodeEvent};
use events::Variable;
use tracked_rows::{Event, Handed, VariableAt};

/// What a node does of which a class of a variable may be a fault.
#[derive(Clone, Copy)]
pub enum Deed<'e> {
    /// Nothing such.
    Nothing,
    /// It binds the cancel variable.
    Binds(VariableAt),
    /// It makes the group.
    Makes(VariableAt),
    /// It returns, and hands these on.
    Returns(&'e [Handed]),
}

fn deed_of_event<'e>(event: &'e Event<'_>) -> Deed<'e>
    ensures { deed_view result ≡ deed_of (event_view event.now) }
{
    match event {
        Event::Obtain { variable, .. }
        | Event::ObtainKept { variable, .. }
        | Event::Clear { variable } => Deed::Binds(*variable),
        Event::Make { variable, .. } => Deed::Makes(*variable),
        Event::Return { handed } => Deed::Returns(handed),
        Event::Renew { .. }
        | Event::Keep { .. }
        | Event::CallKept { .. }
        | Event::DeferKept { .. }
        | Event::Give { .. }
        | Event::GiveField { .. }
        | Event::Call { .. }
        | Event::DeferCall { .. }
        | Event::Pass { .. }
        | Event::DeferPass { .. }
        | Event::Lend { .. }
        | Event::Start { .. }
        | Event::Try { .. }
        | Event::Wait { .. }
        | Event::DeferWait { .. }
        | Event::DeferLiteral { .. }
        | Event::GoCall { .. }
        | Event::GoPass { .. }
        | Event::GoLiteral { .. } => Deed::Nothing,
    }
}

/// What the node does of which a class may be a fault; the end of the body is a return.
pub fn deed_of<'e>(event: NodeEvent<'e, '_>) -> Deed<'e>
    ensures { deed_view result ≡ deed_of (node_event_view event.entry) }
{
    match event {
        NodeEvent::Other => Deed::Nothing,
        NodeEvent::FallsOff => Deed::Returns(&[]),
        NodeEvent::Does(event) => deed_of_event(event),
    }
}

/// Whether it is a return.
pub fn is_return_deed(deed: Deed<'_>) -> bool
    ensures { result ≡ is_return_deed (deed_view deed.entry) }
{
    match deed {
        Deed::Returns(_) => true,
        Deed::Nothing | Deed::Binds(_) | Deed::Makes(_) => false,
    }
}

/// Whether the node is a return; the end of the body is one.
pub fn is_return(event: NodeEvent<'_, '_>) -> bool
    ensures { result ≡ is_return (node_event_view event.entry) }
{
    is_return_deed(deed_of(event))
}

/// Whether the variable at that place in the list is a fault of what the node does.
pub fn is_fault<'a, A: Arrivals, L: Lives>(
    at: &AtNode<'_, 'a, A, L>,
    deed: Deed<'_>,
    place: usize,
    variable: Variable<'a>,
) -> bool
    ensures { result ≡ is_fault (map variable_view at.now.variables.now) (A.cancels at.now.arrivals.now)
        (A.groups at.now.arrivals.now) (A.pending_groups at.now.arrivals.now)
        (L.lives at.now.live.now at.now.node) at.now.node.node (deed_view deed.entry) place
        (variable_view variable.entry) }
{
    match deed {
        Deed::Nothing => false,
        Deed::Binds(bound) => loses_cancel(at, bound.number, place, variable),
        Deed::Makes(made) => loses_group(at, made.number, place, variable),
        Deed::Returns(handed) => {
            returns_uncalled(at, handed, place, variable)
                || returns_live(at.arrivals, at.node.node, place, variable)
        }
    }
}
