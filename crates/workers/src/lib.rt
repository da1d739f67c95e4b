//! Work on many items that several threads share: files by a queue, and the pieces of one list by helpers. What comes
//! of it is what one thread makes.
#![tactic(auto)]

mod count;
mod gates;
mod helpers;
mod lists;
mod part;
mod piece;
mod places;
mod queue;
mod shares;

pub use count::{MOST_WORKERS, Workers};
pub use gates::{BodyGate, Free};
pub use helpers::{Helpers, PieceFault, work_all};
pub use lists::joined;
pub use piece::Piece;
pub use shares::{Work, outcomes};
