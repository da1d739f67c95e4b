//! What the place of a name asks of it: as the callee of a call, an argument, an item of a return list, on a left side,
//! or elsewhere (the Go specification, "Calls", "Statements"). Nothing is known here of what a name means.
#![tactic(auto)]

mod around;
pub mod fields;
pub mod found;
mod kept;
pub mod mark;
pub mod named;
pub mod parts;

pub use around::is_body;
pub use fields::field_left;
pub use found::{found_nil, guard_marks};
pub use kept::Marks;
pub use mark::{
    Assigned, BodyPlace, Call, CallPlace, FieldLeft, FieldMark, LiteralUse, Mark, Mention, Moment,
    Named, Role, Row, RowForm, Spot, Standing, Taker,
};
pub use named::{
    addressed_within, as_bare, as_bracketed, as_named, as_new_literal, as_pointer, bare_within,
};
pub use parts::call_of;
