//! Whether some return of a body is reached.

ghost use Rattle.std.specs.Prelude.{◌≡◌, ◌↔◌, IsTrue, Some, map, slice_get};
ghost use Rattle.bodies.specs.Classified.{Classifies};
ghost use Rattle.bodies.specs.NodeEvents.{events_graph, IsGraphOf};
ghost use Rattle.facts.specs.FactViews.{kind_view};
ghost use Rattle.meaning.specs.BodyEvents.{Variable as MeantVariable};
ghost use Rattle.meaning_packages.specs.PathFaults.{Paths, ComesBack};
ghost use Rattle.path_faults.specs.FoundFaults.{is_reached, some_return_is_reached};
ghost use Rattle.events.specs.VariableViews.{variable_view};

use crate::answers::is_pending;
use crate::deeds::is_return;
use bodies::{Arrivals, CancelClass, GroupClass, NodeEvent};
use events::Variable;
use facts::VariableKind;
use flow::Graph;
use tracked_rows::GroupState;

/// Whether some class of the variable at that place in the list arrives at the node.
fn is_reached<A: Arrivals>(arrivals: &A, node: usize, variable: usize, kind: VariableKind) -> bool
    ensures { result ≡ is_reached (A.cancels arrivals.now variable node) (A.groups arrivals.now variable node)
        (A.pending_groups arrivals.now) (kind_view kind) }
{
    match kind {
        VariableKind::Cancel => {
            arrivals.has_cancel(variable, node, CancelClass::Unset)
                || arrivals.has_cancel(variable, node, CancelClass::Opened)
                || arrivals.has_cancel(variable, node, CancelClass::Kept)
                || arrivals.has_cancel(variable, node, CancelClass::Safe)
                || is_pending(arrivals, node, variable)
        }
        VariableKind::Group => {
            arrivals.has_group(variable, node, GroupClass::Unmade)
                || arrivals.has_group(variable, node, GroupClass::InState(GroupState::Idle))
                || arrivals.has_group(variable, node, GroupClass::InState(GroupState::Live))
                || arrivals.has_group(variable, node, GroupClass::Awaited)
        }
    }
}

/// Whether some class of the variable at that place in the list arrives at a return.
fn some_return_is_reached<A: Arrivals>(
    graph: &Graph<NodeEvent<'_, '_>>,
    arrivals: &A,
    variable: usize,
    kind: VariableKind,
) -> bool
    ensures { result ≡ some_return_is_reached (A.cancels arrivals.now) (A.groups arrivals.now)
        (A.pending_groups arrivals.now) (events_graph graph.now).nodes variable (kind_view kind) }
{
    for (number, node) in graph.nodes.iter().enumerate() {
        if is_return(node.occurrence.event) && is_reached(arrivals, number, variable, kind) {
            return true;
        }
    }
    false
}

/// Whether some list of the body's events comes to a return, as a variable at that place in the list tells: some class
/// of it arrives there. Where there is no such variable, it says no.
pub fn comes_back<'a, A: Arrivals>(
    graph: &Graph<NodeEvent<'_, 'a>>,
    variables: &[Variable<'a>],
    arrivals: &A,
    variable: usize,
) -> bool
    ensures { (b : Paths) → IsGraphOf b.code graph.now → b.variables ≡ map variable_view variables.now
        → Classifies b.code b.promises b.variables (A.cancels arrivals.now) (A.groups arrivals.now)
        → (v : MeantVariable) → slice_get b.variables variable ≡ Some v
        → IsTrue result ↔ ComesBack b }
{
    match variables.get(variable) {
        Some(found) => some_return_is_reached(graph, arrivals, variable, found.kind),
        None => false,
    }
}
