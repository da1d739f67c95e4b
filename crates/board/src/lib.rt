//! Which package is judged next, and what came of each: for workers that share it.
#![tactic(auto)]

ghost use Rattle.board.specs.Examples.{AreTold};
ghost use Rattle.board.specs.ThreeWorkers.{AreStopped};

pub mod core_board;
pub mod entries;
mod importers;
pub mod outcome;
mod ready;
mod refusals;

pub use core_board::Core;
pub use entries::{DeliverFault, Entry, Phase, Task};
pub use outcome::Outcome;

/// What two workers are told who work on two packages, of which the second one imports the first: each answer is the
/// only one that is allowed.
pub fn two_workers_are_told()
    ensures { AreTold }
{}

/// What three workers are told who work on three packages that import nothing: each gets another one, and once one was
/// given back the others may still deliver theirs, and nobody gets more.
pub fn three_workers_are_stopped()
    ensures { AreStopped }
{}
