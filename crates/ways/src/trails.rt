//! What is read off the steps of a search: the first that ends at the fault.

ghost use Rattle.std.specs.Prelude.{◌≡◌, map};
ghost use Rattle.bodies.specs.NodeEvents.{events_graph};
ghost use Rattle.events.specs.VariableViews.{variable_view};
ghost use Rattle.path_faults.specs.FaultViews.{fault_view};
ghost use Rattle.ways.specs.Found.{first_from, is_end_step};

use crate::ends::End;
use bodies::NodeEvent;
use flow::{Graph, NodePlace};
use path_faults::Lives;
use searches::Step;

/// Whether the step ends at the fault.
fn is_end_step<L: Lives>(graph: &Graph<NodeEvent<'_, '_>>, end: &End<'_, '_, L>, step: Step) -> bool
    ensures { result ≡ is_end_step (events_graph graph.now) (map variable_view end.now.variables.now)
        end.now.groups.now (L.lives end.now.live.now) (variable_view end.now.variable) (fault_view end.now.fault)
        step }
{
    let Some(node) = graph.nodes.get(step.node) else {
        return false;
    };
    let place = NodePlace {
        at: node.occurrence.at,
        order: node.occurrence.order,
        node: step.node,
    };
    end.is_at(place, node.occurrence.event, step.class)
}

/// The number of the first step that ends at the fault. Of all that do so it is one with the shortest way.
pub fn first_end<L: Lives>(
    graph: &Graph<NodeEvent<'_, '_>>,
    end: &End<'_, '_, L>,
    steps: &[Step],
) -> Option<usize>
    ensures { result ≡ first_from (is_end_step (events_graph graph.now) (map variable_view end.now.variables.now)
        end.now.groups.now (L.lives end.now.live.now) (variable_view end.now.variable) (fault_view end.now.fault))
        0 steps.now }
{
    for (number, step) in steps.iter().enumerate() {
        if is_end_step(graph, end, *step) {
            return Some(number);
        }
    }
    None
}
