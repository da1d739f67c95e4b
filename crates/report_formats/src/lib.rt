//! A report in its forms: as text, as JSON and as SARIF, written into whatever takes bytes; and the report of a unit.
#![tactic(auto)]

mod formats;
mod laws;
mod report_lines;
mod unit_json;
mod unit_text;

pub use formats::write_report;
pub use laws::each_note_begins_with_a_tab;
pub use unit_json::write_unit_json;
pub use unit_text::write_unit_text;
