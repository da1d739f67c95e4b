//! The nodes in the order of the text.

ghost use Rattle.std.specs.Prelude.{IfOk};
ghost use Rattle.std.specs.List.Sorted.{IsPermutation};
ghost use Rattle.flow.specs.GraphViews.{occurrences_of};
ghost use Rattle.flow.specs.NodeOrder.{places, AreInOrder};

use crate::graph::Graph;
use std::alloc::{AllocError, Global};
use std::cmp::Reverse;

/// Where a node stands: the offset of its statement, keyword or brace, its index among the events there, and its number
/// in the graph.
#[derive(Clone, Copy)]
pub struct NodePlace {
    pub at: u32,
    pub order: usize,
    pub node: usize,
}

/// The nodes of a graph by their offsets; of one offset, by their order there; of one order, as the code has them.
///
/// # Errors
///
/// Memory was refused.
pub fn in_order<E: Copy>(alloc: Global, graph: &Graph<E>) -> Result<Vec<NodePlace>, AllocError>
    ensures same { IfOk result (λ ps. IsPermutation (places 0 (occurrences_of graph.now.nodes.items)) ps.items) }
    ensures ordered { IfOk result (λ ps. AreInOrder ps.items) }
{
    let mut ordered = Vec::new(alloc);
    for (node, kept) in graph.nodes.iter().enumerate() {
        ordered.push(NodePlace {
            at: kept.occurrence.at,
            order: kept.occurrence.order,
            node,
        })?;
    }
    ordered.sort_unstable_by_key(|place| (place.at, place.order, Reverse(place.node)));
    Ok(ordered)
}
