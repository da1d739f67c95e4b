//! Which fields of a package keep cancel functions: those that its bodies call, into which a body puts one, and which
//! get nothing else. The definitions are those of `meaning/specs/KeepingFields.antt`.
#![tactic(auto)]

mod cancels;
mod fields;
mod files;
mod may_put;
mod noted;
mod plain;
mod putting;
mod values;

pub use fields::{FieldNames, keeping_fields};
pub use putting::skipped_put_nothing;
