//! The search through a graph: breadth first, over pairs of a node and the number of a class.

ghost use Rattle.std.specs.Prelude.{◌≡◌, ◌<◌, ◌*◌, ◌∷◌, [], IfOk, OnOk, length, slice_get, Some};
ghost use Rattle.flow.specs.GraphViews.{graph_view};
ghost use Rattle.searches.specs.Searched.{ComeEarlier, IsTrail, IsWholeSearch};
ghost use Rattle.searches.specs.Searching.{Adds, FollowsStep, HasRoom, IsFresh};
ghost use Rattle.searches.specs.declared.carry.TheConstants.{CLASSES};

use crate::carry::{CLASSES, Carry};
use flow::Graph;
use std::alloc::{AllocError, Global};

/// A step of a search: a node, the number of the class that arrives there, and the step before it, if it is no start.
#[derive(Clone, Copy)]
pub struct Step {
    pub node: usize,
    pub class: usize,
    pub before: Option<usize>,
}

/// The steps so far, of which the first ones were followed, and which pairs have a step.
#[derive(Drop)]
pub struct Progress {
    pub steps: Vec<Step>,
    /// For each node whether there is a step with each of the classes.
    pub seen: Vec<bool>,
    pub followed: usize,
    /// How many nodes the graph has.
    pub nodes: usize,
}

impl Progress {
    /// No step yet, in a graph of so many nodes.
    fn new(alloc: Global, nodes: usize) -> Result<Self, AllocError>
        ensures { IfOk result (λ search. IsFresh nodes search) }
    {
        let Some(places) = nodes.checked_mul(CLASSES) else {
            return Err(AllocError);
        };
        let seen = vec![in alloc; false; places]?;
        Ok(Progress {
            steps: Vec::new(alloc),
            seen,
            followed: 0,
            nodes,
        })
    }

    /// Adds the pair behind that step, if it has none, and is one of the graph.
    fn add<E>(&mut self, node: usize, class: usize, before: Option<usize>) -> Result<(), AllocError>
        requires room { HasRoom self.old }
        ensures { OnOk result (Adds E (node ∷ []) class before self.old self.new) }
    {
        if class >= CLASSES {
            return Ok(());
        }
        if node >= self.nodes {
            return Ok(());
        }
        let place = node * CLASSES + class;
        if self.seen[place] {
            return Ok(());
        }
        self.steps.push(Step {
            node,
            class,
            before,
        })?;
        self.seen[place] = true;
        Ok(())
    }

    /// Adds the pairs of these nodes with the class behind that step.
    fn add_each<E>(
        &mut self,
        nodes: &[usize],
        class: usize,
        before: Option<usize>,
    ) -> Result<(), AllocError>
        requires room { HasRoom self.old }
        ensures { OnOk result (Adds E nodes.now class before self.old self.new) }
    {
        for node in nodes {
            self.add::<E>(*node, class, before)?;
        }
        Ok(())
    }

    /// Adds what follows the step of that number, which is the next one that was not followed.
    fn follow<E: Copy, C: Carry<E>>(
        &mut self,
        graph: &Graph<E>,
        carry: &C,
        step: Step,
    ) -> Result<(), AllocError>
        requires room { HasRoom self.old }
        requires within { self.old.followed < length self.old.steps.items }
        ensures { OnOk result (FollowsStep (C.step carry.now) (graph_view graph.now) step self.old self.new) }
    {
        let number = self.followed;
        self.followed += 1;
        let Some(node) = graph.nodes.get(step.node) else {
            return Ok(());
        };
        let class = carry.after(node.occurrence.event, step.class);
        self.add_each::<E>(&node.next, class, Some(number))
    }
}

/// Goes through the graph from its starts, where the variable has the class of that number: a step for each pair of a
/// node and a class to which a walk comes, in the order of the lengths of the shortest ones.
///
/// # Errors
///
/// Memory was refused.
pub fn search_graph<E: Copy, C: Carry<E>>(
    alloc: Global,
    graph: &Graph<E>,
    carry: &C,
    entry: usize,
) -> Result<Vec<Step>, AllocError>
    requires within { entry < CLASSES }
    ensures { IfOk result (λ steps. IsWholeSearch (graph_view graph.now) (C.step carry.now) entry steps.items) }
{
    let mut search = Progress::new(alloc, graph.nodes.len())?;
    search.add_each::<E>(&graph.starts, entry, None)?;
    while search.followed < search.steps.len() {
        let step = search.steps[search.followed];
        search.follow(graph, carry, step)?;
    }
    Ok(search.steps)
}

/// The nodes of the step of that number and of those before it, its own first.
///
/// # Errors
///
/// Memory was refused.
pub fn nodes_back(alloc: Global, steps: &[Step], last: usize) -> Result<Vec<usize>, AllocError>
    requires earlier { ComeEarlier steps.now }
    requires within { last < length steps.now }
    ensures { IfOk result (λ nodes. IsTrail steps.now last nodes.items) }
{
    let mut nodes = Vec::new(alloc);
    let mut next = Some(last);
    while let Some(number) = next {
        let step = steps[number];
        nodes.push(step.node)?;
        next = step.before;
    }
    Ok(nodes)
}
