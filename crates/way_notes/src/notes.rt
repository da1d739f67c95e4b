//! The notes of a way.

ghost use Rattle.std.specs.Prelude.{◌≡◌, ◌++◌, map, IfOk, OnOk, option_map, reverse, slice_get};
ghost use Rattle.bodies.specs.NodeEvents.{events_graph};
ghost use Rattle.reasons.specs.WordViews.{branch_view};
ghost use Rattle.way_notes.specs.Notes.{binds_there, node_notes, notes_of_way, one_or_none};
ghost use Rattle.way_notes.specs.NoteViews.{note_view, told_view};

use crate::branches::branch_note;
use crate::event_notes::{event_note, is_binding};
use crate::note::{Note, Told};
use bodies::NodeEvent;
use flow::Graph;
use reasons::Branch;
use std::alloc::{AllocError, Global};

fn add(note: Option<Note>, notes: &mut Vec<Note>) -> Result<(), AllocError>
    ensures { OnOk result (map note_view notes.new.items
        ≡ map note_view notes.old.items ++ one_or_none (option_map note_view note)) }
{
    if let Some(note) = note {
        notes.push(note)?;
    }
    Ok(())
}

/// Adds what is told of a node of the way, and of the next one, the last of it first.
fn add_node(
    graph: &Graph<NodeEvent<'_, '_>>,
    branches: &[Branch],
    told: Told,
    node: usize,
    next: usize,
    notes: &mut Vec<Note>,
) -> Result<(), AllocError>
    ensures { OnOk result (map note_view notes.new.items ≡ map note_view notes.old.items
        ++ reverse (node_notes (events_graph graph.now) (map branch_view branches.now) (told_view told) node
        (slice_get (events_graph graph.now).nodes node) (slice_get (events_graph graph.now).nodes next))) }
{
    let Some(there) = graph.nodes.get(node) else {
        return Ok(());
    };
    let Some(after) = graph.nodes.get(next) else {
        return Ok(());
    };
    let at = there.occurrence.at;
    let taken = branch_note(graph, branches, node, at, after.occurrence.at);
    add(taken, notes)?;
    add(event_note(told, at, there.occurrence.event), notes)
}

/// Whether the node binds the variable.
fn binds(graph: &Graph<NodeEvent<'_, '_>>, told: Told, node: usize) -> bool
    ensures { result ≡ binds_there (told_view told) (slice_get (events_graph graph.now).nodes node) }
{
    match graph.nodes.get(node) {
        Some(found) => is_binding(told, found.occurrence.event),
        None => false,
    }
}

fn reversed(mut notes: Vec<Note>) -> Vec<Note>
    ensures { result.items ≡ reverse notes.items }
{
    notes.reverse();
    notes
}

/// The notes of a way through these nodes, of which the last one stands first: from the last binding on.
///
/// # Errors
///
/// Memory was refused.
pub fn notes_of(
    alloc: Global,
    graph: &Graph<NodeEvent<'_, '_>>,
    branches: &[Branch],
    told: Told,
    nodes: &[usize],
) -> Result<Vec<Note>, AllocError>
    ensures { IfOk result (λ notes. map note_view notes.items
        ≡ notes_of_way (events_graph graph.now) (map branch_view branches.now) (told_view told) nodes.now) }
{
    let mut notes = Vec::new(alloc);
    let Some((last, before)) = nodes.split_first() else {
        return Ok(notes);
    };
    let mut next = *last;
    for node in before {
        add_node(graph, branches, told, *node, next, &mut notes)?;
        if binds(graph, told, *node) {
            return Ok(reversed(notes));
        }
        next = *node;
    }
    Ok(reversed(notes))
}
