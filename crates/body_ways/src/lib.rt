//! The faults of a body's paths, each with the notes of a shortest way to it. What is told says `specs/BodyWays.antt`.
//! A search is made for each variable of a fault's name, so nothing here is asked for before a report has the fault.
#![tactic(auto)]

mod groups;
mod told;

pub use told::{ToldFault, told_faults};
