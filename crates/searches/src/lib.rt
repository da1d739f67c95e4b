//! A search through the graph of a code, breadth first, over pairs of a node and the number of a class that a walk
//! carries there. What it finds says `specs/Searched.antt`.
#![tactic(auto)]

ghost use Rattle.searches.specs.Searched.{SearchesFindNearest};

mod carry;
mod search;

pub use carry::{CLASSES, Carry};
pub use search::{Step, nodes_back, search_graph};

/// A whole search has a step for each pair of a node and a class that a walk comes to, and no walk to it is shorter.
pub fn searches_find_nearest<E>()
    ensures { SearchesFindNearest E }
{}
