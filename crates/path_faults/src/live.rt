//! Groups that may be live at nodes.

ghost use Rattle.std.specs.Prelude.{◌≡◌, ◌&&◌, ℕ, Bool, IfOk, OnOk, map};
ghost use Rattle.bodies.specs.NodeEvents.{events_graph};
ghost use Rattle.path_faults.specs.FoundFaults.{is_same_place, is_live_at, is_live_there};
ghost use Rattle.path_faults.specs.LiveViews.{has_live, AddsLive};
ghost use Rattle.events.specs.VariableViews.{variable_view};
ghost use Rattle.flow.specs.declared.order.NodePlace;

use crate::losses::is_live_group;
use bodies::{Arrivals, NodeEvent};
use events::Variable;
use flow::{Graph, NodePlace};
use indexmap::IndexSet;
use std::alloc::{AllocError, Global};

/// Which groups may be live at nodes.
pub trait Lives {
    ghost lives: { Self → NodePlace.NodePlace → ℕ → Bool };

    /// Whether the group of that place in the list of variables may be live where the node comes next.
    fn is_live(&self, node: NodePlace, group: usize) -> bool
        ensures { result ≡ lives self.now node group };
}

/// A group by its place in the list of variables, with the byte offset of a node and its order there.
#[derive(Clone, Copy, PartialEq, Eq, Hash)]
struct LivePlace {
    at: u32,
    order: usize,
    group: usize,
}

/// The groups that may be live where the nodes at an offset and of an order there come next.
#[derive(Drop)]
pub struct LiveGroups {
    places: IndexSet<LivePlace>,
}

impl Lives for LiveGroups {
    ghost lives = { λ live node j. has_live live node.at node.order j };

    fn is_live(&self, node: NodePlace, group: usize) -> bool {
        self.places.contains(&LivePlace {
            at: node.at,
            order: node.order,
            group,
        })
    }
}

impl LiveGroups {
    /// Adds a group at a place, if it may be live there.
    fn add_if(
        &mut self,
        is_live: bool,
        at: u32,
        order: usize,
        group: usize,
    ) -> Result<(), AllocError>
        ensures { OnOk result (AddsLive self.old self.new (λ other_at other_order other. is_live
            && is_same_place at order group other_at other_order other)) }
    {
        if is_live {
            self.places.insert(LivePlace { at, order, group })?;
        }
        Ok(())
    }

    /// Adds the groups that may be live where the node comes next.
    fn add_node<A: Arrivals>(
        &mut self,
        variables: &[Variable<'_>],
        arrivals: &A,
        node: NodePlace,
    ) -> Result<(), AllocError>
        ensures { OnOk result (AddsLive self.old self.new (is_live_at (map variable_view variables.now)
            (A.groups arrivals.now) node.node node.at node.order)) }
    {
        for (place, variable) in variables.iter().enumerate() {
            let is_live = is_live_group(arrivals, node.node, place, *variable);
            self.add_if(is_live, node.at, node.order, place)?;
        }
        Ok(())
    }
}

/// The groups that may be live, for all nodes of a graph.
///
/// # Errors
///
/// Memory was refused.
pub fn live_groups<A: Arrivals>(
    alloc: Global,
    graph: &Graph<NodeEvent<'_, '_>>,
    variables: &[Variable<'_>],
    arrivals: &A,
) -> Result<LiveGroups, AllocError>
    ensures { IfOk result (λ live. (at order group : ℕ) → has_live live at order group
        ≡ is_live_there (map variable_view variables.now) (A.groups arrivals.now) (events_graph graph.now).nodes at
        order group) }
{
    let mut live = LiveGroups {
        places: IndexSet::new(alloc),
    };
    for (number, node) in graph.nodes.iter().enumerate() {
        let occurrence = node.occurrence;
        let place = NodePlace {
            at: occurrence.at,
            order: occurrence.order,
            node: number,
        };
        live.add_node(variables, arrivals, place)?;
    }
    Ok(live)
}
