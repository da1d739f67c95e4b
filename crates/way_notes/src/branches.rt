//! Which branch a way takes.

ghost use Rattle.std.specs.Prelude.{◌≡◌, map, option_map, slice_get, Some};
ghost use Rattle.bodies.specs.NodeEvents.{events_graph};
ghost use Rattle.reasons.specs.WordViews.{branch_view};
ghost use Rattle.way_notes.specs.Notes.{branch_at, branch_note, could_go_else, is_elsewhere, told_branch};
ghost use Rattle.way_notes.specs.NoteViews.{note_view};

use crate::note::Note;
use bodies::NodeEvent;
use flow::Graph;
use reasons::{Branch, place_at, word_at};

/// Whether the node of that number stands at another offset.
fn is_elsewhere(graph: &Graph<NodeEvent<'_, '_>>, at: u32, node: usize) -> bool
    ensures { result ≡ is_elsewhere at (slice_get (events_graph graph.now).nodes node) }
{
    match graph.nodes.get(node) {
        Some(found) => found.occurrence.at != at,
        None => false,
    }
}

/// Whether a way could go on from these at another offset.
fn could_go_else(graph: &Graph<NodeEvent<'_, '_>>, at: u32, next: &[usize]) -> bool
    ensures { result ≡ could_go_else (events_graph graph.now) at (Some next.now) }
{
    for node in next {
        if is_elsewhere(graph, at, *node) {
            return true;
        }
    }
    false
}

/// What is told of the first of these that begins at the offset, where the way goes on at `next`.
fn told_branch(branches: &[Branch], at: u32, next: u32) -> Option<Note>
    ensures { option_map note_view result
        ≡ option_map (told_branch next) (branch_at (map branch_view branches.now) at) }
{
    for branch in branches {
        if branch.span.start == at {
            return Some(Note {
                at: place_at(branch, next),
                word: word_at(branch, next),
            });
        }
    }
    None
}

/// What is told where the way goes from the node, which stands at `at`, on to the offset `next`.
pub fn branch_note(
    graph: &Graph<NodeEvent<'_, '_>>,
    branches: &[Branch],
    node: usize,
    at: u32,
    next: u32,
) -> Option<Note>
    ensures { option_map note_view result
        ≡ branch_note (events_graph graph.now) (map branch_view branches.now) node at next }
{
    if at == next {
        return None;
    }
    match graph.nodes.get(node) {
        Some(found) => {
            if could_go_else(graph, next, &found.next) {
                told_branch(branches, at, next)
            } else {
                None
            }
        }
        None => None,
    }
}
