//! The faults of a body's paths.

ghost use Rattle.std.specs.Prelude.{◌≡◌, ◌↔◌, Contains, IfOk, OnOk, map};
ghost use Rattle.bodies.specs.Classified.{Classifies};
ghost use Rattle.bodies.specs.NodeEvents.{node_event_view, events_graph, IsGraphOf};
ghost use Rattle.meaning_packages.specs.PathFaults.{Paths, PathFault as MeantFault, IsPathFault};
ghost use Rattle.path_faults.specs.FaultViews.{deed_view, fault_view, AddsFaults};
ghost use Rattle.path_faults.specs.FoundFaults.{deed_faults, event_faults, faults_of_nodes};
ghost use Rattle.path_faults.specs.LiveViews.{has_live};
ghost use Rattle.events.specs.VariableViews.{variable_view};

use crate::at_node::AtNode;
use crate::bindings::{add_binding, add_making};
use crate::deeds::{Deed, deed_of};
use crate::fault::PathFault;
use crate::live::{LiveGroups, Lives, live_groups};
use crate::returns::add_return;
use bodies::{Arrivals, NodeEvent};
use events::Variable;
use flow::{Graph, NodePlace};
use std::alloc::{AllocError, Global};

/// Adds the faults of what a node does.
fn add_deed<'a, A: Arrivals, L: Lives>(
    at: &AtNode<'_, 'a, A, L>,
    deed: Deed<'_>,
    faults: &mut Vec<PathFault<'a>>,
) -> Result<(), AllocError>
    ensures { OnOk result (AddsFaults faults.old.items faults.new.items (deed_faults
        (map variable_view at.now.variables.now) (A.cancels at.now.arrivals.now) (A.groups at.now.arrivals.now)
        (A.pending_groups at.now.arrivals.now) (L.lives at.now.live.now at.now.node)
        at.now.node.node at.now.node.at (deed_view deed.entry))) }
{
    match deed {
        Deed::Nothing => Ok(()),
        Deed::Binds(bound) => add_binding(at, bound, faults),
        Deed::Makes(made) => add_making(at, made, faults),
        Deed::Returns(handed) => add_return(at, handed, faults),
    }
}

/// Adds the faults of a node.
fn add_node<'a, A: Arrivals>(
    at: &AtNode<'_, 'a, A, LiveGroups>,
    event: NodeEvent<'_, '_>,
    faults: &mut Vec<PathFault<'a>>,
) -> Result<(), AllocError>
    ensures { OnOk result (AddsFaults faults.old.items faults.new.items (event_faults
        (map variable_view at.now.variables.now) (A.cancels at.now.arrivals.now) (A.groups at.now.arrivals.now)
        (A.pending_groups at.now.arrivals.now) (has_live at.now.live.now at.now.node.at at.now.node.order)
        at.now.node.node at.now.node.at (node_event_view event.entry))) }
{
    add_deed(at, deed_of(event), faults)
}

/// Adds the faults of all nodes.
fn add_nodes<'a, A: Arrivals>(
    graph: &Graph<NodeEvent<'_, 'a>>,
    variables: &[Variable<'a>],
    arrivals: &A,
    live: &LiveGroups,
    faults: &mut Vec<PathFault<'a>>,
) -> Result<(), AllocError>
    ensures { OnOk result (AddsFaults faults.old.items faults.new.items (faults_of_nodes
        (map variable_view variables.now) (A.cancels arrivals.now) (A.groups arrivals.now)
        (A.pending_groups arrivals.now) (has_live live.now) (events_graph graph.now).nodes)) }
{
    for (number, node) in graph.nodes.iter().enumerate() {
        let occurrence = node.occurrence;
        let at = AtNode {
            variables: &*variables,
            arrivals: &*arrivals,
            live: &*live,
            node: NodePlace {
                at: occurrence.at,
                order: occurrence.order,
                node: number,
            },
        };
        add_node(&at, occurrence.event, faults)?;
    }
    Ok(())
}

/// The faults of a body's paths, read off the classes that arrive at the nodes of its graph; one may come twice.
///
/// # Errors
///
/// Memory was refused.
pub fn path_faults<'a, A: Arrivals>(
    alloc: Global,
    graph: &Graph<NodeEvent<'_, 'a>>,
    variables: &[Variable<'a>],
    arrivals: &A,
) -> Result<Vec<PathFault<'a>>, AllocError>
    ensures { IfOk result (λ faults. (b : Paths) → IsGraphOf b.code graph.now
        → b.variables ≡ map variable_view variables.now
        → Classifies b.code b.promises b.variables (A.cancels arrivals.now) (A.groups arrivals.now)
        → (f : MeantFault)
        → Contains (map fault_view faults.items) f ↔ IsPathFault b f) }
{
    let live = live_groups(alloc, graph, variables, arrivals)?;
    let mut faults: Vec<PathFault<'a>> = Vec::new(alloc);
    add_nodes(graph, variables, arrivals, &live, &mut faults)?;
    Ok(faults)
}
