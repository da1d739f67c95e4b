//! The locals that a literal mentions, in the order of their places.
#![tactic(auto)]

mod mentioned;

pub use mentioned::{MentionAt, mentioned_in_order};
