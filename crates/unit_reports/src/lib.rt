//! Judges one package by what was kept of its imports, for the go command: what is said of it, in some format, and what
//! is to be kept of it. What that is says `specs/Units.antt`, and of the bytes of its files `specs/OneUnit.antt`.
#![tactic(auto)]

mod laws;
mod one_unit;
mod units;

pub use laws::{
    quiet_given_units, quiet_units, silent_units_are_yes, unit_runs_are_the_report,
    yes_units_are_quiet,
};
pub use one_unit::{UnitReportFault, report_of_unit};
pub use told_reports::{UnitForm, UnitShape};
pub use units::{ImportedUnit, UnitReport, unit_report_of};
