//! Packages that several threads judge. What is said of them is what is said by one thread.
#![tactic(auto)]

mod checking;
mod faults;
mod gates;
mod jobs;
mod judging;
mod naming;
mod results;
mod shared_board;
mod sharing;
mod threads;
mod working;

pub use checking::{Crew, check_by_workers};
pub use faults::CheckFault;
pub use gates::{Gate, Open};
