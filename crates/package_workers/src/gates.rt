//! What is passed before a package is judged.

/// What is passed once before each package is judged: by the worker that took it, while it does not have the board. For
/// those that are judged once all workers have ended it is passed before the first of these: such are packages without
/// a rank, and whatever has to be judged anew, for which it is passed again.
pub trait Gate {
    /// Lets pass who is to judge the package at that place.
    fn enter(&self, place: usize);
}

/// It lets each pass, and does nothing.
#[derive(Clone, Copy)]
pub struct Open;

impl Gate for Open {
    fn enter(&self, _place: usize) {}
}
