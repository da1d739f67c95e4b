//! What threads pass before they work on a piece.

/// Where a thread passes before it works on a piece, while it has nothing that others wait for.
pub trait BodyGate {
    /// Lets the thread pass that is to work on the piece of that number.
    fn enter(&self, piece: usize);
}

/// It lets each pass, and does nothing.
#[derive(Clone, Copy)]
pub struct Free;

impl BodyGate for Free {
    fn enter(&self, _piece: usize) {}
}
