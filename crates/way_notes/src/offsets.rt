//! Where the nodes of a way stand.

ghost use Rattle.std.specs.Prelude.{◌≡◌, ◌++◌, ◌↔◌, ℕ, Contains, IfOk, OnOk, slice_get};
ghost use Rattle.std.specs.List.Sorted.{IsStrictlyIncreasing};
ghost use Rattle.bodies.specs.NodeEvents.{events_graph};
ghost use Rattle.way_notes.specs.Offsets.{offset_of, offsets_at, AreOffsets};

use bodies::NodeEvent;
use flow::Graph;
use std::alloc::{AllocError, Global};

/// Adds the offset of the node of that number.
fn add_offset(
    graph: &Graph<NodeEvent<'_, '_>>,
    node: usize,
    offsets: &mut Vec<u32>,
) -> Result<(), AllocError>
    ensures { OnOk result (offsets.new.items
        ≡ offsets.old.items ++ offset_of (slice_get (events_graph graph.now).nodes node)) }
{
    let Some(found) = graph.nodes.get(node) else {
        return Ok(());
    };
    offsets.push(found.occurrence.at)?;
    Ok(())
}

/// The offsets of these nodes.
fn offsets_at(
    alloc: Global,
    graph: &Graph<NodeEvent<'_, '_>>,
    nodes: &[usize],
) -> Result<Vec<u32>, AllocError>
    ensures { IfOk result (λ offsets. offsets.items ≡ offsets_at (events_graph graph.now) nodes.now) }
{
    let mut offsets = Vec::new(alloc);
    for node in nodes {
        add_offset(graph, *node, &mut offsets)?;
    }
    Ok(offsets)
}

/// The numbers in their order, each once.
fn in_order(offsets: Vec<u32>) -> Vec<u32>
    ensures ordered { IsStrictlyIncreasing result.items }
    ensures same { (at : ℕ) → Contains result.items at ↔ Contains offsets.items at }
{
    let mut ordered = offsets;
    ordered.sort_unstable();
    ordered.dedup();
    ordered
}

/// The byte offsets at which these nodes stand, in the order of the text, each once.
///
/// # Errors
///
/// Memory was refused.
pub fn offsets_of(
    alloc: Global,
    graph: &Graph<NodeEvent<'_, '_>>,
    nodes: &[usize],
) -> Result<Vec<u32>, AllocError>
    ensures { IfOk result (λ offsets. AreOffsets (events_graph graph.now) nodes.now offsets.items) }
{
    Ok(in_order(offsets_at(alloc, graph, nodes)?))
}
