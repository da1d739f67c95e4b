//! The tables of packages that were judged, as plain values: what they say of each function, in the order of the names.
//! What is in them is said in `specs/Tables.antt`.
#![tactic(auto)]

mod tables;

pub use tables::{function_of, names_in_order, package_table};
