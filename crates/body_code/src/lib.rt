//! What a body does, as a code in memory: in which order the events of its sites can come (the Go specification, from
//! "Terminating statements" to "Defer statements"). The definitions are those of `meaning/specs/StatementCode.antt`.
//! Which events a site has is not known here.
#![tactic(auto)]

mod body;
mod clauses;
mod falls;
mod jumping;
mod site;
pub mod sites;

pub use body::body_code;
pub use sites::Sites;
