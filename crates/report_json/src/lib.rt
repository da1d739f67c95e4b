//! A report as JSON, written into whatever takes bytes.
#![tactic(auto)]

mod causes;
mod in_functions;
mod json_report;
mod note_kinds;
mod places;
mod step_ends;
mod turns;
mod way_lines;

pub use json_report::write_json;
pub use way_lines::lines_are_in_order;
