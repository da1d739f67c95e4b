//! Which of their parameters functions are known to call, kept by the names of the functions and the paths of packages.
//! What it stands for is said in `specs/Called.antt`.
#![tactic(auto)]

mod called;

pub use called::{Called, FunctionParameter, ImportedCalls};
