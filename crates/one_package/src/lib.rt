//! What is to be said of one package by what is known of its imports. The rules are those of
//! `meaning_reports/specs/PackageReports.antt` and `meaning_reports/specs/PackageTables.antt`.
#![tactic(auto)]

mod by_paths;
mod dots;
mod file_rules;
mod grounds;
mod hands;
mod judged;
mod judging;
mod known_imports;
mod needed;
mod told_package;
mod verdicts;

pub use by_paths::{ByPaths, JudgedBodies, judge_bodies};
pub use file_rules::{FileRules, FoundFiles, Judges};
pub use grounds::tell_unless_faulty;
pub use hands::{Alone, HandWork, Hands};
pub use judged::{Around, Judged};
pub use judging::{around, around_beside, judge_beside, judge_package};
pub use known_imports::{KnownImports, NotYes};
pub use told_package::{Tellers, ToldPackage, tell_package};
pub use verdicts::is_yes;
