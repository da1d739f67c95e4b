//! What the go command tells a vet tool of a unit, read from its configuration: which values are those of a unit is in
//! `specs/UnitValues.antt`, which bytes are a configuration, and why some are none, in `specs/UnitTexts.antt`.
#![tactic(auto)]

ghost use Rattle.unit_config.specs.UnitLaws.{OneAnswer};

mod fault;
mod members;
mod read;
mod texts;
mod unit;
mod values;

pub use fault::UnitFault;
pub use read::read_unit;
pub use texts::{KeyedText, Texts};
pub use unit::Unit;

/// Bytes are the configuration of one unit at most, and those that are one are refused for want of memory alone.
pub fn one_answer()
    ensures { OneAnswer }
{}
