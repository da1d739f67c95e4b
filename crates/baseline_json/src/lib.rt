//! The findings of an earlier report, read from its JSON. What a value says is in `specs/BaselineValues.antt`, and key
//! by key in `specs/BaselineReports.antt`; which texts are those of a report, and why some are none, in
//! `specs/BaselineTexts.antt`.
#![tactic(auto)]

ghost use Rattle.baseline_json.specs.BaselineLaws.{OneAnswer, WhatReportsSay};

mod baseline;
mod fault;
mod findings;
mod packages;
mod read;

pub use baseline::{Baseline, BaselineFinding};
pub use fault::BaselineFault;
pub use read::from_json;

/// What is read of a value is what it has, key by key: the version, the packages, and the findings of each.
pub fn what_reports_say()
    ensures { WhatReportsSay }
{}

/// A text tells of the findings of one report at most, and one that tells of some is refused for want of memory alone.
pub fn one_answer()
    ensures { OneAnswer }
{}
