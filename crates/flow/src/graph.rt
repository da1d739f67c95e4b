//! Graphs.

ghost use Rattle.std.specs.Prelude.{◌≡◌, IfOk};
ghost use Rattle.code.specs.CodeViews.{code_view};
ghost use Rattle.flow.specs.GraphViews.{graph_view};
ghost use Rattle.flow.specs.Walks.{graph_of, WalksAreLists};

use crate::exits::Exits;
use crate::link::{GraphSoFar, link};
use crate::turns::{TurnSizes, count};
use code::{Code, Occurrence};
use std::alloc::{AllocError, Global};

/// A node: an occurrence, and the nodes that can follow it.
#[derive(Drop)]
pub struct Node<E> {
    pub occurrence: Occurrence<E>,
    pub next: Vec<usize>,
}

/// The graph of a code. Nodes go by numbers: the number of a node is that of the nodes behind it in the code, so that
/// the first in the code is the last in the list.
#[derive(Drop)]
pub struct Graph<E> {
    pub nodes: Vec<Node<E>>,
    /// The nodes that can come first.
    pub starts: Vec<usize>,
}

/// The graph of a code: its walks are the lists of the code.
///
/// # Errors
///
/// Memory was refused.
pub fn build<E: Copy>(alloc: Global, code: &Code<'_, E>) -> Result<Graph<E>, AllocError>
    ensures graph { IfOk result (λ graph. graph_view graph ≡ graph_of (code_view code.now)) }
    ensures walks { IfOk result (λ graph. WalksAreLists (code_view code.now) (graph_view graph)) }
{
    let mut counted = Vec::new(alloc);
    count(code, &mut counted)?;
    let mut graph = GraphSoFar {
        nodes: Vec::new(alloc),
        exits: Exits {
            entries: Vec::new(alloc),
        },
        sizes: TurnSizes { left: &counted },
    };
    let starts = link(alloc, code, Vec::new(alloc), &mut graph)?;
    Ok(Graph {
        nodes: graph.nodes,
        starts,
    })
}
