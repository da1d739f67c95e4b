//! Elements of composite literals that may stand in fields, and what is given where something goes to others: by the
//! form alone. The definitions are those of `meaning/specs/Kept.antt`.
#![tactic(auto)]

mod element;
mod elements;
mod gift;
mod literal_type;
mod takers;

pub use element::Element;
pub use elements::role_fields;
pub use gift::{Gift, gifts};
pub use takers::takes_it;
