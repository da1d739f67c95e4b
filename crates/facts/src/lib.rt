//! What is known of a function: which parameters are cancel functions and groups, which results are cancel functions,
//! and which of these are given only where an error is nil. With the types by which signatures tell it (the Go
//! specification, "Function types"), and tables of it by name.
#![tactic(auto)]

pub mod facts;
mod given;
pub mod items;
pub mod kinds;
pub mod table;

pub use facts::{CancelResult, FunctionFacts, TrackedParameter, Unless};
pub use given::cancel_results;
pub use items::{Item, parameter_items};
pub use kinds::{
    CancelType, TrackedType, VariableKind, cancel_type_named, is_import, is_of, item_type,
    tracked_type,
};
pub use table::{Imported, Table};
