//! What the faults at a node are read off.

use events::Variable;
use flow::NodePlace;

/// A node of a body's graph, and what is known where it comes next.
#[derive(Drop)]
pub struct AtNode<'c, 'a, A, L> {
    /// The body's variables.
    pub variables: &'c [Variable<'a>],
    /// Which classes of them arrive at which nodes.
    pub arrivals: &'c A,
    /// Which groups may be live at which nodes.
    pub live: &'c L,
    pub node: NodePlace,
}
