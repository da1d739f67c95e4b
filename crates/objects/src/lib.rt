//! Objects, in whose fields cancel functions may be kept, and the left sides `x.f` into which makers and givers give
//! what fields keep. The definitions are those of `meaning/specs/Objects.antt`.
#![tactic(auto)]

mod addresses;
mod kinds;
mod lefts;
mod looked;
mod pointers;
mod rows;

pub use addresses::{is_value_in, points_to, unaddressed};
pub use looked::{object_in, see};
pub use rows::local_named;
