//! Values that are no list and no object.

ghost use Rattle.std.specs.Prelude.{IfErr, IfOk};
ghost use Rattle.std.specs.Prelude.{◌≡◌, Some, option_and_then};
ghost use Rattle.serde_json.specs.Data.{Data};
ghost use Rattle.serde_json.specs.Find.{as_number, as_u64};
ghost use Rattle.json_reading.specs.Standing.{value_at, ReadsLeaf, Stops};

use crate::pass::pass_rest;
use crate::start::{Start, take_start};
use crate::stop::Stop;
use json::Reader;

/// A value, as far as it is none that holds others.
#[derive(Clone, Copy, Drop)]
pub enum Leaf<'a> {
    Text(&'a str),
    /// A number, where it is an unsigned one of 64 bits.
    Number(Option<u64>),
    Bool(bool),
    /// Any other value.
    Other,
}

/// Reads the next value.
///
/// # Errors
///
/// No value stands there.
pub fn read_leaf<'a>(reader: &mut Reader<'a>, depth: usize) -> Result<Leaf<'a>, Stop>
    ensures ok { IfOk result (ReadsLeaf (value_at depth reader.old) reader.new) }
    ensures err { IfErr result (Stops (value_at depth reader.old)) }
{
    let begun = take_start(reader, depth)?;
    pass_rest(reader, depth, begun)?;
    match begun {
        Start::Text(text) => Ok(Leaf::Text(text)),
        Start::Number(number) => Ok(Leaf::Number(number)),
        Start::Bool(is_true) => Ok(Leaf::Bool(is_true)),
        Start::List | Start::Object | Start::Null => Ok(Leaf::Other),
    }
}

/// Reads the next value as a whole number of 64 bits; `None` where it is none.
///
/// # Errors
///
/// No value stands there.
pub fn read_number(reader: &mut Reader<'_>, depth: usize) -> Result<Option<u64>, Stop>
    ensures ok { IfOk result (λ number. (value : Data) × (value_at depth reader.old ≡ Some (value, reader.new))
        × (number ≡ option_and_then as_u64 (as_number value))) }
    ensures err { IfErr result (Stops (value_at depth reader.old)) }
{
    match read_leaf(reader, depth)? {
        Leaf::Number(number) => Ok(number),
        Leaf::Text(_) | Leaf::Bool(_) | Leaf::Other => Ok(None),
    }
}
