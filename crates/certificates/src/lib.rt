//! Certificates of the bodies of packages that were judged: what was found of each body, so that others can check it.
//! A certificate is a row of masks for each node of the body's graph, and it is the least one: it has exactly the
//! classes that the walks of the graph carry to the nodes.
#![tactic(auto)]

ghost use Rattle.certificates.specs.LeastLaws.{LeastHolds, LeastSettles, LeastIsWithin};

mod body_rows;
mod masks;
mod rows;

pub use body_rows::least_rows;
pub use rows::rows_of;

/// A least certificate holds, where the body's paths have no fault and each claim is kept.
pub fn least_holds()
    ensures { LeastHolds }
{}

/// A least certificate settles exactly the variables that the body settles.
pub fn least_settles()
    ensures { LeastSettles }
{}

/// A certificate that holds has each class that the least one has.
pub fn least_is_within()
    ensures { LeastIsWithin }
{}
