//! What is to be said of all packages, and what is known of their functions. The rules are those of
//! `meaning_reports/specs/PackageReports.antt` and `meaning_reports/specs/PackageTables.antt`.
#![tactic(auto)]

mod known_imports;
mod packages;
mod progress;

pub use packages::{check_by_rules, judge_left};
pub use progress::Progress;
