//! Which nodes can come first in a code that is not in the graph yet.

ghost use Rattle.std.specs.Prelude.{◌≡◌, ◌+◌, ◌≤◌, [], ◌∷◌, None, IfOk, map};
ghost use Rattle.code.specs.CodeViews.{code_view, backward, one_of};
ghost use Rattle.flow.specs.GraphViews.{most, Firsts};
ghost use Rattle.flow.specs.TurnSizes.{FirstsOfTurn};
ghost use Rattle.meaning.specs.Code.{skip};

use crate::exits::Exits;
use crate::node_lists::{copied, joined, only};
use crate::turns::{TurnSizes, begins_with_event};
use code::Code;
use std::alloc::{AllocError, Global};

/// The nodes that can come first in the turn of a loop, where `from` occurrences stand behind it. If it begins with an
/// event, that is the one, and the size of the turn is taken from `sizes`; else the turn is gone over.
///
/// # Errors
///
/// Memory was refused.
pub fn firsts_of_turn<'a, E: Copy>(
    alloc: Global,
    from: usize,
    turn: &Code<'a, E>,
    exits: &mut Exits<'a>,
    sizes: &mut TurnSizes<'_>,
) -> Result<Vec<usize>, AllocError>
    ensures { IfOk result (λ nodes. FirstsOfTurn from (code_view turn.now) exits.old exits.new sizes.old.left.now
        sizes.new.left.now nodes) }
{
    if begins_with_event(turn) {
        let past = from.saturating_add(sizes.take());
        return only(alloc, past.saturating_sub(1));
    }
    let mut behind = from;
    firsts(alloc, &mut behind, turn, &[], exits)
}

/// The node of an event, where `behind` occurrences stand behind it; it is added to that number.
fn first_node(alloc: Global, behind: &mut usize) -> Result<Vec<usize>, AllocError>
    ensures node { IfOk result (λ nodes. nodes.items ≡ behind.old ∷ []) }
    ensures past { behind.old + 1 ≤ most → behind.new ≡ behind.old + 1 }
{
    let node = *behind;
    *behind = node.saturating_add(1);
    only(alloc, node)
}

/// The nodes that can come first in the code, where `behind` occurrences stand behind it; its own are added to that
/// number, as far as it can tell.
#[cycle(firsts)]
fn firsts<'a, E: Copy>(
    alloc: Global,
    behind: &mut usize,
    code: &Code<'a, E>,
    next: &[usize],
    exits: &mut Exits<'a>,
) -> Result<Vec<usize>, AllocError>
    ensures { IfOk result (λ nodes. Firsts behind.old behind.new (code_view code.now) next.now exits.old exits.new
        nodes) }
{
    match code {
        Code::Skip => copied(alloc, next),
        Code::Does(_) => first_node(alloc, behind),
        Code::Alone(_) => first_node(alloc, behind),
        Code::Leave(way) => copied(alloc, exits.at(*way)),
        Code::Then(first, second) => {
            let later = firsts(alloc, behind, second, next, exits)?;
            firsts(alloc, behind, first, &later, exits)
        }
        Code::Sequence(codes) => firsts_of_sequence(alloc, behind, codes, next, exits),
        Code::Choice(codes) => firsts_of_choice(alloc, behind, codes, next, exits),
        Code::Repeats(turn) => firsts(alloc, behind, turn, &[], exits),
        Code::UpTo(way, inner) => {
            exits.enter(alloc, *way, next)?;
            let nodes = firsts(alloc, behind, inner, next, exits)?;
            exits.leave();
            Ok(nodes)
        }
        Code::UpToFalls(falls, inner) => {
            exits.enter_falls(alloc, falls, next)?;
            let nodes = firsts(alloc, behind, inner, next, exits)?;
            exits.leave();
            Ok(nodes)
        }
    }
}

/// The same of codes of which each stands before the one before it in the list.
#[cycle(firsts)]
fn firsts_of_sequence<'a, E: Copy>(
    alloc: Global,
    behind: &mut usize,
    codes: &[Code<'a, E>],
    next: &[usize],
    exits: &mut Exits<'a>,
) -> Result<Vec<usize>, AllocError>
    ensures { IfOk result (λ nodes. Firsts behind.old behind.new (backward (map code_view codes.now) skip) next.now
        exits.old exits.new nodes) }
{
    let Some((last, others)) = codes.split_first() else {
        return copied(alloc, next);
    };
    let mut nodes = firsts(alloc, behind, last, next, exits)?;
    for code in others {
        nodes = firsts(alloc, behind, code, &nodes, exits)?;
    }
    Ok(nodes)
}

#[cycle(firsts)]
fn firsts_of_choice<'a, E: Copy>(
    alloc: Global,
    behind: &mut usize,
    codes: &[Code<'a, E>],
    next: &[usize],
    exits: &mut Exits<'a>,
) -> Result<Vec<usize>, AllocError>
    ensures { IfOk result (λ nodes. Firsts behind.old behind.new (one_of (map code_view codes.now) None) next.now
        exits.old exits.new nodes) }
{
    let mut nodes = Vec::new(alloc);
    for code in codes {
        let own = firsts(alloc, behind, code, next, exits)?;
        nodes = joined(own, &nodes)?;
    }
    Ok(nodes)
}
