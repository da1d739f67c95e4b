//! What the report says of the files of a package that has no fault as a whole. The rules are those of
//! `meaning_reports/specs/PackageReports.antt`.
#![tactic(auto)]

mod entries;
mod fields;
mod found;

pub use entries::add_use_faults;
pub use fields::fields_to_tell;
pub use found::{add_body, add_file, add_passes_by_calls, find_faults};
