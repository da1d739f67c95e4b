//! What nodes do.

use tracked_rows::Event;

/// What a node of a body's graph does.
#[derive(Clone, Copy)]
pub enum NodeEvent<'e, 'a> {
    /// Nothing that concerns a variable.
    Other,
    /// The body's end is reached, and nothing is handed on.
    FallsOff,
    /// What a mark of the body tells.
    Does(&'e Event<'a>),
}
