//! What workers do with packages, and what a board answers them.

/// What a worker did with a package, which is told by its place in the list of packages.
#[derive(Clone, Copy, PartialEq, Eq, Debug)]
pub enum Entry {
    /// The worker took the package, to judge it.
    Take { worker: usize, place: usize },
    /// It brought what came of the package.
    Deliver { worker: usize, place: usize },
    /// It gave the package back, with nothing.
    Back { worker: usize, place: usize },
}

/// How far a package is, with the worker that took it.
#[derive(Clone, Copy, PartialEq, Eq, Debug)]
pub enum Phase {
    Untaken,
    Taken(usize),
    Delivered(usize),
    GivenBack(usize),
}

/// What a worker has to do.
#[derive(Clone, Copy, PartialEq, Eq, Debug)]
pub enum Task {
    /// It judges the package at that place.
    Work(usize),
    /// It waits until a package is delivered or given back, and asks again.
    Wait,
    /// There is nothing more to do.
    Over,
}

/// Why a worker can't deliver a package, or give it back. Where several hold, the first of them is answered.
#[derive(Clone, Copy, PartialEq, Eq, Debug)]
pub enum DeliverFault {
    /// No package with a rank has that place.
    Stranger,
    /// Nobody took it.
    NotTaken,
    /// Another worker took it.
    TakenByAnother,
    /// The worker delivered it, or gave it back.
    AlreadyClosed,
}
