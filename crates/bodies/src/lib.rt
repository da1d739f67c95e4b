//! The bodies of a file that was told of, and which classes their variables have where. Each body has its variables,
//! and the graph of its code, with the events that the file's marks gave. It is made once, and whoever asks for its
//! paths takes it.
//! What is known of each tracked variable after each event is its class, by `meaning/specs/Classes.antt`. Classes have
//! numbers, and sets of them are packed into states. `solve` finds the least solution of a body's graph: which classes
//! arrive at each node. What a solution tells is said in `specs/Classified.antt`. It is read off the states at the
//! nodes, which have the flags that the walks of the graph carry there, as `specs/Carried.antt` defines them.
#![tactic(auto)]

ghost use Rattle.bodies.specs.Carried.{ReachedByWalks, ReachedByLists};
ghost use Rattle.bodies.specs.MemoryLists.{GraphsTellLists};

mod arrivals;
mod bits;
mod body;
mod body_sites;
mod cancels;
mod changed;
mod changes;
mod graph;
mod groups;
mod images;
mod masks;
mod node;
mod places;
mod promises;
mod solution;
mod state;
mod sweep;

pub use arrivals::Arrivals;
pub use bits::{
    CANCEL_CLASSES, FIRST_PENDING, GROUP_CLASSES, KEPT, cancel_bit, cancel_bits_are_inverse,
    cancel_class, group_bit, group_bits_are_inverse, group_class,
};
pub use body::{Body, bodies, body_at};
pub use cancels::{CancelClass, change_cancel, entry_cancel};
pub use changes::{Change, cancel_bit_after, group_bit_after};
pub use graph::{BodyGraph, ordered_graph};
pub use groups::{GroupClass, change_group, entry_group};
pub use masks::{has_cancel, has_known_bits, may_be_cancel, may_be_group, with_bit};
pub use node::NodeEvent;
pub use promises::Promises;
pub use solution::{Solution, solve};
pub use state::{
    CANCEL_BITS, CANCELS_BEGIN, GROUPS_BEGIN, STATE_WORDS, State, StateVariables, WORD_BITS,
};

/// A graph in memory that is the graph of a code has the code's nodes, and its walks are the code's lists.
pub fn graphs_tell_lists()
    ensures { GraphsTellLists }
{}

/// A flag is reached at a node exactly if a walk from where the graph starts carries it there.
pub fn reached_by_walks<E, K>()
    ensures { ReachedByWalks E K }
{}

/// In the graph of a code, the flags that are reached are those that the code's lists carry.
pub fn reached_by_lists<E, K>()
    ensures { ReachedByLists E K }
{}
