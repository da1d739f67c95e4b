//! Whether a variable is called, or settled, at each return.

ghost use Rattle.std.specs.Prelude.{◌≡◌, ◌≤◌, ◌↔◌, IsTrue, Some, IfOk, length, map, slice_get};
ghost use Rattle.std.specs.List.{list_any};
ghost use Rattle.bodies.specs.Classified.{Classifies};
ghost use Rattle.bodies.specs.NodeEvents.{events_graph, IsGraphOf};
ghost use Rattle.facts.specs.FactViews.{kind_view};
ghost use Rattle.meaning.specs.BodyEvents.{Variable as MeantVariable};
ghost use Rattle.meaning.specs.Classes.{pending};
ghost use Rattle.meaning.specs.FunctionFacts.{cancel};
ghost use Rattle.meaning_packages.specs.Credits.{Settles};
ghost use Rattle.meaning_packages.specs.PathFaults.{Paths, KeepsCall};
ghost use Rattle.path_faults.specs.FoundFaults.{breaks_call, is_unsettled, breaks_settling};
ghost use Rattle.path_faults.specs.LiveViews.{has_live};
ghost use Rattle.events.specs.VariableViews.{variable_view};

use crate::at_node::AtNode;
use crate::deeds::is_return;
use crate::live::{LiveGroups, live_groups};
use crate::returns::is_uncalled;
use bodies::{Arrivals, CancelClass, GroupClass, NodeEvent};
use events::Variable;
use facts::VariableKind;
use flow::{Graph, NodePlace};
use std::alloc::{AllocError, Global};
use tracked_rows::GroupState;

/// Whether the cancel variable at that place in the list may be uncalled at some return.
fn breaks_call<'a, A: Arrivals>(
    graph: &Graph<NodeEvent<'_, 'a>>,
    variables: &[Variable<'a>],
    arrivals: &A,
    live: &LiveGroups,
    variable: usize,
) -> bool
    ensures { result ≡ breaks_call (map variable_view variables.now) (A.cancels arrivals.now) (has_live live.now)
        (events_graph graph.now).nodes variable }
{
    for (number, node) in graph.nodes.iter().enumerate() {
        let occurrence = node.occurrence;
        let at = AtNode {
            variables: &*variables,
            arrivals: &*arrivals,
            live: &*live,
            node: NodePlace {
                at: occurrence.at,
                order: occurrence.order,
                node: number,
            },
        };
        if is_return(occurrence.event) && is_uncalled(&at, variable) {
            return true;
        }
    }
    false
}

/// Whether the cancel variable at that place in the list has been called at each return that a list of the body's
/// events comes to: it is neither open there, nor kept in an object, nor pending in a group that may be live there.
///
/// # Errors
///
/// Memory was refused.
pub fn keeps_call<'a, A: Arrivals>(
    alloc: Global,
    graph: &Graph<NodeEvent<'_, 'a>>,
    variables: &[Variable<'a>],
    arrivals: &A,
    variable: usize,
) -> Result<bool, AllocError>
    ensures { IfOk result (λ keeps. (b : Paths) → IsGraphOf b.code graph.now
        → b.variables ≡ map variable_view variables.now
        → Classifies b.code b.promises b.variables (A.cancels arrivals.now) (A.groups arrivals.now)
        → (v : MeantVariable) → slice_get b.variables variable ≡ Some v → v.kind ≡ cancel
        → IsTrue keeps ↔ KeepsCall b v) }
{
    let live = live_groups(alloc, graph, variables, arrivals)?;
    Ok(!breaks_call(graph, variables, arrivals, &live, variable))
}

/// Whether the cancel variable at that place in the list may be pending at the node.
pub fn is_pending<A: Arrivals>(arrivals: &A, node: usize, variable: usize) -> bool
    ensures { result ≡ list_any (λ g. A.cancels arrivals.now variable node (pending g))
        (A.pending_groups arrivals.now) }
{
    for group in arrivals.pending_groups() {
        if arrivals.has_cancel(variable, node, CancelClass::Pending(*group)) {
            return true;
        }
    }
    false
}

/// Whether the variable at that place in the list may be unsettled at the node: a cancel variable not safe, a group
/// live.
fn is_unsettled<A: Arrivals>(arrivals: &A, node: usize, variable: usize, kind: VariableKind) -> bool
    ensures { result ≡ is_unsettled (A.cancels arrivals.now variable node) (A.groups arrivals.now variable node)
        (A.pending_groups arrivals.now) (kind_view kind) }
{
    match kind {
        VariableKind::Cancel => {
            arrivals.has_cancel(variable, node, CancelClass::Unset)
                || arrivals.has_cancel(variable, node, CancelClass::Opened)
                || arrivals.has_cancel(variable, node, CancelClass::Kept)
                || is_pending(arrivals, node, variable)
        }
        VariableKind::Group => {
            arrivals.has_group(variable, node, GroupClass::InState(GroupState::Live))
        }
    }
}

/// Whether the variable at that place in the list may be unsettled at some return.
pub fn breaks_settling<A: Arrivals>(
    graph: &Graph<NodeEvent<'_, '_>>,
    arrivals: &A,
    variable: usize,
    kind: VariableKind,
) -> bool
    ensures { result ≡ breaks_settling (A.cancels arrivals.now) (A.groups arrivals.now)
        (A.pending_groups arrivals.now) (events_graph graph.now).nodes variable (kind_view kind) }
{
    for (number, node) in graph.nodes.iter().enumerate() {
        if is_return(node.occurrence.event) && is_unsettled(arrivals, number, variable, kind) {
            return true;
        }
    }
    false
}

/// Whether each list of the body's events that comes to a return leaves the variable at that place in the list settled:
/// a cancel variable safe, a group not live. Where there is no such variable, it says yes.
pub fn settles<'a, A: Arrivals>(
    graph: &Graph<NodeEvent<'_, 'a>>,
    variables: &[Variable<'a>],
    arrivals: &A,
    variable: usize,
) -> bool
    ensures settled { (b : Paths) → IsGraphOf b.code graph.now → b.variables ≡ map variable_view variables.now
        → Classifies b.code b.promises b.variables (A.cancels arrivals.now) (A.groups arrivals.now)
        → (v : MeantVariable) → slice_get b.variables variable ≡ Some v
        → IsTrue result ↔ Settles b v }
    ensures past { length variables.now ≤ variable → IsTrue result }
{
    match variables.get(variable) {
        Some(found) => !breaks_settling(graph, arrivals, variable, found.kind),
        None => true,
    }
}
