//! What an event of the way tells.

ghost use Rattle.std.specs.Prelude.{◌≡◌, option_map};
ghost use Rattle.bodies.specs.NodeEvents.{node_event_view};
ghost use Rattle.tracked_rows.specs.EventViews.{event_view};
ghost use Rattle.way_notes.specs.Notes.{event_note, is_binding, is_group_told, note_if};
ghost use Rattle.way_notes.specs.NoteViews.{note_view, told_view};
ghost use Rattle.reasons.specs.WordViews.{word_view};

use crate::note::{Note, Told};
use bodies::NodeEvent;
use reasons::Word;
use tracked_rows::Event;

fn note_if(is_told: bool, at: u32, word: Word) -> Option<Note>
    ensures { option_map note_view result ≡ note_if is_told at (word_view word) }
{
    if is_told {
        Some(Note { at, word })
    } else {
        None
    }
}

fn is_group_told(told: Told, group: u32) -> bool
    ensures { result ≡ is_group_told told.group group }
{
    match told.group {
        Some(number) => number == group,
        None => false,
    }
}

fn note_of_event(told: Told, at: u32, event: &Event<'_>) -> Option<Note>
    ensures { option_map note_view result ≡ event_note (told_view told) at (event_view event.now) }
{
    match event {
        Event::Obtain { variable, .. } => {
            note_if(variable.number == told.number, variable.at, Word::Obtained)
        }
        Event::ObtainKept { variable, .. } => {
            note_if(variable.number == told.number, variable.at, Word::Obtained)
        }
        Event::Make { variable, .. } => {
            note_if(variable.number == told.number, variable.at, Word::Made)
        }
        Event::Start { group, .. } => note_if(is_group_told(told, *group), at, Word::Started),
        Event::Try { group, .. } => note_if(is_group_told(told, *group), at, Word::Started),
        Event::Lend { group, .. } => note_if(is_group_told(told, *group), at, Word::Started),
        Event::Clear { .. } => None,
        Event::Call { .. } => None,
        Event::DeferCall { .. } => None,
        Event::Renew { .. } => None,
        Event::Keep { .. } => None,
        Event::CallKept { .. } => None,
        Event::DeferKept { .. } => None,
        Event::Give { .. } => None,
        Event::GiveField { .. } => None,
        Event::Pass { .. } => None,
        Event::DeferPass { .. } => None,
        Event::Wait { .. } => None,
        Event::DeferWait { .. } => None,
        Event::DeferLiteral { .. } => None,
        Event::GoCall { .. } => None,
        Event::GoPass { .. } => None,
        Event::GoLiteral { .. } => None,
        Event::Return { .. } => None,
    }
}

/// What is told of what a node does at that offset.
pub fn event_note(told: Told, at: u32, event: NodeEvent<'_, '_>) -> Option<Note>
    ensures { option_map note_view result ≡ event_note (told_view told) at (node_event_view event.entry) }
{
    match event {
        NodeEvent::Does(event) => note_of_event(told, at, event),
        NodeEvent::Other => None,
        NodeEvent::FallsOff => None,
    }
}

fn event_binds(told: Told, event: &Event<'_>) -> bool
    ensures { result ≡ is_binding (told_view told) (event_view event.now) }
{
    match event {
        Event::Obtain { variable, .. } => variable.number == told.number,
        Event::ObtainKept { variable, .. } => variable.number == told.number,
        Event::Make { variable, .. } => variable.number == told.number,
        Event::Start { .. } => false,
        Event::Try { .. } => false,
        Event::Lend { .. } => false,
        Event::Clear { .. } => false,
        Event::Call { .. } => false,
        Event::DeferCall { .. } => false,
        Event::Renew { .. } => false,
        Event::Keep { .. } => false,
        Event::CallKept { .. } => false,
        Event::DeferKept { .. } => false,
        Event::Give { .. } => false,
        Event::GiveField { .. } => false,
        Event::Pass { .. } => false,
        Event::DeferPass { .. } => false,
        Event::Wait { .. } => false,
        Event::DeferWait { .. } => false,
        Event::DeferLiteral { .. } => false,
        Event::GoCall { .. } => false,
        Event::GoPass { .. } => false,
        Event::GoLiteral { .. } => false,
        Event::Return { .. } => false,
    }
}

/// Whether it binds the variable.
pub fn is_binding(told: Told, event: NodeEvent<'_, '_>) -> bool
    ensures { result ≡ is_binding (told_view told) (node_event_view event.entry) }
{
    match event {
        NodeEvent::Does(event) => event_binds(told, event),
        NodeEvent::Other => false,
        NodeEvent::FallsOff => false,
    }
}
