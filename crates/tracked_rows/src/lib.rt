//! What names mean to a file, which left sides a row obtains, makes or clears by its form (makers and givers of
//! cancel functions, and makings of groups: the documentation of `context` and `golang.org/x/sync/errgroup`), and the
//! events that a body can have. The definitions are those of `meaning/specs/Tracked.antt`, and of clearing and events
//! those of `meaning/specs/Uses.antt`.
#![tactic(auto)]

pub mod calls;
pub mod event;
pub mod fields;
pub mod known;
pub mod lefts;
pub mod makings;
mod universe;

pub use calls::{Giving, called_in, giving_of, is_maker, only, only_call, row_giving};
pub use event::{Callee, Event, Handed, Sent, VariableAt, callee_of, last_name};
pub use fields::{Fields, ObjectLeft, PlacedLeft, has_field, may_be_field, some_keep};
pub use known::{Known, facts_of, is_named, is_of_universe, local_meant, meaning, object_left};
pub use lefts::{
    Left, count, is_binding_form, is_blank_at, is_outer_at, left_of, local_at, may_bind,
    own_variable,
};
pub use makings::{GroupState, are_locals, is_given, row_clears, row_makes, row_obtains};
pub use universe::means_universe;
