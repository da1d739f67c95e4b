//! What is told of packages that were judged: the text of their report, whether each is yes, and how much there is to
//! say.
#![tactic(auto)]

mod reports;
mod text;
mod unit;

pub use reports::{Counts, Report, explained_text, report_from, told};
pub use text::Text;
pub use unit::{UnitForm, UnitShape, unit_text};
