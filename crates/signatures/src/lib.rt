//! What is known of the functions of a package by their signatures (the Go specification, "Function types"): which
//! parameters are cancel functions and groups, and which results are cancel functions. In the second edition their
//! returns say besides which of these are given only where an error is nil.
#![tactic(auto)]

mod by_signature;
mod in_file;
mod unless;

pub use by_signature::signatures;
