//! The graph of a body's code: its nodes are the occurrences, and an edge leads to each that can come next. The
//! definitions are those of `specs/GraphOfCode.antt` and `specs/Walks.antt`.
#![tactic(auto)]

ghost use Rattle.flow.specs.Walks.{GraphsWalk};

pub mod exits;
mod firsts;
pub mod graph;
mod link;
mod node_lists;
pub mod order;
mod turns;

pub use graph::{Graph, Node, build};
pub use order::{NodePlace, in_order};

/// The walks of a code's graph are its lists.
pub fn graphs_walk<E>()
    ensures { GraphsWalk E }
{}
