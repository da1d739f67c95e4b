//! The states at the nodes of a graph: which classes of all variables arrive there. The nodes are gone over in the
//! order of the code, and where the state of an earlier one grows, again from there.

ghost use Rattle.std.specs.Prelude.{◌≡◌, ◌<◌, [], ◌∷◌, length, slice_get, IfOk};
ghost use Rattle.bodies.specs.JoinedStates.{has_at, IsFresh, IsImageOf, Joins, Follows, TellsColumns};
ghost use Rattle.bodies.specs.States.{Fit};

use crate::node::NodeEvent;
use crate::promises::Promises;
use crate::state::{State, StateVariables};
use flow::Graph;
use std::alloc::{AllocError, Global};

/// The states so far, and how many nodes, counted from the first, are to be followed still. The number of a node is
/// that of the nodes behind it in the code, so the last of these is the next one.
#[derive(Drop)]
pub struct Sweep {
    pub states: Vec<State>,
    pub left: usize,
}

/// Whether the bit is set in the state at the node; of what is not there, none is.
pub fn has_at(states: &[State], node: usize, bit: usize) -> bool
    ensures { result ≡ has_at states.now node bit }
{
    match states.get(node) {
        Some(state) => state.has_bit(bit),
        None => false,
    }
}

/// What the node makes of the state.
fn image_of<P: Promises>(
    state: &State,
    event: NodeEvent<'_, '_>,
    promises: &P,
    variables: &StateVariables<'_>,
) -> State
    requires fits { Fit variables.now }
    ensures { IsImageOf (P.promises promises.now) variables.now event.entry state.now.words result.words }
{
    let mut image = *state;
    match event {
        NodeEvent::Does(event) => image.apply(promises, event, variables),
        NodeEvent::Other | NodeEvent::FallsOff => {}
    }
    image
}

impl Sweep {
    /// Nothing arrives at any of so many nodes.
    ///
    /// # Errors
    ///
    /// Memory was refused.
    fn new(alloc: Global, nodes: usize) -> Result<Self, AllocError>
        ensures { IfOk result (λ sweep. IsFresh nodes sweep) }
    {
        let states = vec![in alloc; State::empty(); nodes]?;
        Ok(Sweep { states, left: 0 })
    }

    /// Joins the image to the state at the node, which is to be followed if it grew. A node that is not there is
    /// passed over.
    fn join_at(&mut self, node: usize, image: &State)
        ensures { Joins (node ∷ []) image.now.words self.old self.new }
    {
        if node >= self.states.len() {
            return;
        }
        let mut state = self.states[node];
        if state.join(image) {
            self.states[node] = state;
            self.left = self.left.max(node + 1);
        }
    }

    /// Joins the image to the states at the nodes.
    fn join_each(&mut self, nodes: &[usize], image: &State)
        ensures { Joins nodes.now image.now.words self.old self.new }
    {
        for node in nodes {
            self.join_at(*node, image);
        }
    }

    /// Joins what the next node makes of its state to the states at the nodes that can follow.
    fn follow<P: Promises>(
        &mut self,
        graph: &Graph<NodeEvent<'_, '_>>,
        promises: &P,
        variables: &StateVariables<'_>,
    )
        requires fits { Fit variables.now }
        requires counted { length self.old.states.items ≡ length graph.now.nodes.items }
        ensures { Follows (P.promises promises.now) variables.now (slice_get graph.now.nodes.items self.old.left)
            self.old self.new }
    {
        if let Some(node) = graph.nodes.get(self.left) {
            let state = self.states[self.left];
            let image = image_of(&state, node.occurrence.event, promises, variables);
            self.join_each(&node.next, &image);
        }
    }
}

/// The states at the nodes of the graph: for each variable exactly the bits that walks carry there, which start with
/// those of the entry.
///
/// # Errors
///
/// Memory was refused.
pub fn states_at_nodes<P: Promises>(
    alloc: Global,
    graph: &Graph<NodeEvent<'_, '_>>,
    promises: &P,
    variables: &StateVariables<'_>,
    entry: &State,
) -> Result<Vec<State>, AllocError>
    requires fits { Fit variables.now }
    ensures { IfOk result (λ states. TellsColumns (P.promises promises.now) variables.now entry.now.words graph.now
        states.items) }
{
    let mut sweep = Sweep::new(alloc, graph.nodes.len())?;
    sweep.join_each(&graph.starts, entry);
    while sweep.left > 0 {
        sweep.left -= 1;
        sweep.follow(graph, promises, variables);
    }
    Ok(sweep.states)
}
