//! What is lost where a variable is bound or made again.

ghost use Rattle.std.specs.Prelude.{◌≡◌, map};
ghost use Rattle.path_faults.specs.FoundFaults.{is_left_outside, may_be_lost, loses_cancel, loses_group, is_live_group};
ghost use Rattle.events.specs.VariableViews.{variable_view};

use crate::at_node::AtNode;
use crate::kinds::makes_it;
use bodies::{Arrivals, CancelClass, GroupClass};
use events::Variable;
use tracked_rows::GroupState;

/// Whether the cancel variable may be pending in a group that the body does not make, where the node comes next.
fn is_left_outside<A: Arrivals>(
    variables: &[Variable<'_>],
    arrivals: &A,
    variable: usize,
    node: usize,
) -> bool
    ensures { result ≡ is_left_outside (map variable_view variables.now) (A.cancels arrivals.now variable node)
        (A.pending_groups arrivals.now) }
{
    for group in arrivals.pending_groups() {
        if arrivals.has_cancel(variable, node, CancelClass::Pending(*group))
            && !makes_it(variables, *group)
        {
            return true;
        }
    }
    false
}

/// Whether what the cancel variable may hold where the node comes next is lost if it is bound again.
fn may_be_lost<A: Arrivals>(
    variables: &[Variable<'_>],
    arrivals: &A,
    variable: usize,
    node: usize,
) -> bool
    ensures { result ≡ may_be_lost (map variable_view variables.now) (A.cancels arrivals.now variable node)
        (A.pending_groups arrivals.now) }
{
    arrivals.has_cancel(variable, node, CancelClass::Opened)
        || arrivals.has_cancel(variable, node, CancelClass::Kept)
        || is_left_outside(variables, arrivals, variable, node)
}

/// Whether the variable at that place in the list is a cancel variable of that number, and may lose at the node what
/// it holds.
pub fn loses_cancel<'a, A: Arrivals, L>(
    at: &AtNode<'_, 'a, A, L>,
    number: u32,
    place: usize,
    variable: Variable<'a>,
) -> bool
    ensures { result ≡ loses_cancel (map variable_view at.now.variables.now) (A.cancels at.now.arrivals.now)
        (A.pending_groups at.now.arrivals.now) at.now.node.node number place (variable_view variable.entry) }
{
    variable.kind.is_cancel()
        && variable.number == number
        && may_be_lost(at.variables, at.arrivals, place, at.node.node)
}

/// Whether the variable at that place in the list is a group that may be live where the node comes next.
pub fn is_live_group<A: Arrivals>(
    arrivals: &A,
    node: usize,
    place: usize,
    variable: Variable<'_>,
) -> bool
    ensures { result ≡ is_live_group (variable_view variable.entry) (A.groups arrivals.now place node) }
{
    variable.kind.is_group()
        && arrivals.has_group(place, node, GroupClass::InState(GroupState::Live))
}

/// Whether the variable at that place in the list is a group of that number that may be live where the node comes
/// next.
pub fn loses_group<'a, A: Arrivals, L>(
    at: &AtNode<'_, 'a, A, L>,
    number: u32,
    place: usize,
    variable: Variable<'a>,
) -> bool
    ensures { result ≡ loses_group (A.groups at.now.arrivals.now) at.now.node.node number place
        (variable_view variable.entry) }
{
    variable.number == number && is_live_group(at.arrivals, at.node.node, place, variable)
}
