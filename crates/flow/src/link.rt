//! The nodes of a code, and which can follow each.

ghost use Rattle.std.specs.Prelude.{None, IfOk, map};
ghost use Rattle.code.specs.CodeViews.{code_view, occurrence_view, backward, one_of};
ghost use Rattle.flow.specs.GraphViews.{AddsNode, Adds};
ghost use Rattle.flow.specs.TurnSizes.{turn_sizes, all_turn_sizes, Takes};
ghost use Rattle.meaning.specs.Code.{skip};

use crate::exits::Exits;
use crate::firsts::firsts_of_turn;
use crate::graph::Node;
use crate::node_lists::{copied, joined, only};
use crate::turns::TurnSizes;
use code::{Code, Occurrence};
use std::alloc::{AllocError, Global};

/// A graph that is being made, from the end of the code on: the nodes that were added, where the ways out lead, and the
/// sizes of the turns that are still to come.
#[derive(Drop)]
pub struct GraphSoFar<'a, 's, E> {
    pub nodes: Vec<Node<E>>,
    pub exits: Exits<'a>,
    pub sizes: TurnSizes<'s>,
}

/// Adds a node.
fn add<E: Copy>(
    alloc: Global,
    occurrence: Occurrence<E>,
    next: Vec<usize>,
    nodes: &mut Vec<Node<E>>,
) -> Result<Vec<usize>, AllocError>
    ensures { IfOk result (λ first. AddsNode (occurrence_view occurrence) next.items nodes.old.items
        nodes.new.items first.items) }
{
    let node = nodes.len();
    nodes.push(Node { occurrence, next })?;
    only(alloc, node)
}

/// Adds the nodes of a code, the last one first, and gives those that can come first. The sizes of its turns come first
/// in those that are left, and are taken.
///
/// # Errors
///
/// Memory was refused.
#[cycle(link)]
pub fn link<'a, E: Copy>(
    alloc: Global,
    code: &Code<'a, E>,
    next: Vec<usize>,
    graph: &mut GraphSoFar<'a, '_, E>,
) -> Result<Vec<usize>, AllocError>
    ensures { IfOk result (λ first. Takes (turn_sizes (code_view code.now)) graph.old.sizes.left.now
        graph.new.sizes.left.now
        (Adds (code_view code.now) next.items graph.old.exits graph.new.exits graph.old.nodes graph.new.nodes
        first)) }
{
    match code {
        Code::Skip => Ok(next),
        Code::Does(occurrence) => add(alloc, *occurrence, next, &mut graph.nodes),
        Code::Alone(occurrence) => add(alloc, *occurrence, next, &mut graph.nodes),
        Code::Leave(way) => copied(alloc, graph.exits.at(*way)),
        Code::Then(first, second) => {
            let later = link(alloc, second, next, graph)?;
            link(alloc, first, later, graph)
        }
        Code::Sequence(codes) => link_sequence(alloc, codes, next, graph),
        Code::Choice(codes) => link_choice(alloc, codes, &next, graph),
        Code::Repeats(turn) => {
            let first = firsts_of_turn(
                alloc,
                graph.nodes.len(),
                turn,
                &mut graph.exits,
                &mut graph.sizes,
            )?;
            let behind = copied(alloc, &first)?;
            link(alloc, turn, behind, graph)?;
            Ok(first)
        }
        Code::UpTo(way, inner) => {
            graph.exits.enter(alloc, *way, &next)?;
            let first = link(alloc, inner, next, graph)?;
            graph.exits.leave();
            Ok(first)
        }
        Code::UpToFalls(falls, inner) => {
            graph.exits.enter_falls(alloc, falls, &next)?;
            let first = link(alloc, inner, next, graph)?;
            graph.exits.leave();
            Ok(first)
        }
    }
}

/// The same of codes of which each stands before the one before it in the list.
#[cycle(link)]
fn link_sequence<'a, E: Copy>(
    alloc: Global,
    codes: &[Code<'a, E>],
    next: Vec<usize>,
    graph: &mut GraphSoFar<'a, '_, E>,
) -> Result<Vec<usize>, AllocError>
    ensures { IfOk result (λ first. Takes (all_turn_sizes (map code_view codes.now)) graph.old.sizes.left.now
        graph.new.sizes.left.now (Adds (backward (map code_view codes.now) skip) next.items graph.old.exits
        graph.new.exits graph.old.nodes graph.new.nodes first)) }
{
    let mut first = next;
    for code in codes {
        first = link(alloc, code, first, graph)?;
    }
    Ok(first)
}

#[cycle(link)]
fn link_choice<'a, E: Copy>(
    alloc: Global,
    codes: &[Code<'a, E>],
    next: &[usize],
    graph: &mut GraphSoFar<'a, '_, E>,
) -> Result<Vec<usize>, AllocError>
    ensures { IfOk result (λ first. Takes (all_turn_sizes (map code_view codes.now)) graph.old.sizes.left.now
        graph.new.sizes.left.now (Adds (one_of (map code_view codes.now) None) next.now graph.old.exits
        graph.new.exits graph.old.nodes graph.new.nodes first)) }
{
    let mut first = Vec::new(alloc);
    for code in codes {
        let after = copied(alloc, next)?;
        let own = link(alloc, code, after, graph)?;
        first = joined(own, &first)?;
    }
    Ok(first)
}
