//! Why uses stand in a report that the rules don't allow: in which form the name stands, or where to look for the
//! literal that captures the variable, or for the result that has a name. The definitions are those of
//! `specs/UseReasons.antt`.
#![tactic(auto)]

mod forms;
mod pointers;
mod reason;
mod table;
mod uses;

pub use reason::{ReasonText, UseReason};
pub use uses::{AskedOf, AskedUse, use_reasons};
