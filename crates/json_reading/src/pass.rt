//! Passing over values.

ghost use Rattle.std.specs.Prelude.{IfErr, OnOk, ◌<◌, ◌≤◌, length, List};
ghost use Rattle.json.specs.Token.{Token};
ghost use Rattle.serde_json.specs.Data.{no_members};
ghost use Rattle.json_reading.specs.Standing.{items_at, members_at, value_at, Passes, Stops};
ghost use Rattle.json_reading.specs.Starting.{Starts};

use crate::start::{Start, take_start};
use crate::stop::Stop;
use json::Reader;

/// Passes the next value.
///
/// # Errors
///
/// No value stands there.
#[cycle(pass)]
pub fn pass_value(reader: &mut Reader<'_>, depth: usize) -> Result<(), Stop>
    ensures ok { OnOk result (Passes (value_at depth reader.old) reader.new) }
    ensures shorter { OnOk result (length reader.new < length reader.old) }
    ensures err { IfErr result (Stops (value_at depth reader.old)) }
{
    let begun = take_start(reader, depth)?;
    pass_rest(reader, depth, begun)
}

/// Passes what is left of a value that was started.
///
/// # Errors
///
/// It does not end.
#[cycle(pass)]
pub fn pass_rest(reader: &mut Reader<'_>, depth: usize, begun: Start<'_>) -> Result<(), Stop>
    ensures ok { OnOk result ((old : List Token) → Starts depth old begun.entry reader.old
        → Passes (value_at depth old) reader.new) }
    ensures shorter { OnOk result (length reader.new ≤ length reader.old) }
    ensures err { IfErr result (λ stop. (old : List Token) → Starts depth old begun.entry reader.old
        → Stops (value_at depth old) stop) }
{
    match begun {
        Start::List => if depth == 0 {
            Ok(())
        } else {
            pass_items(reader, depth - 1)
        },
        Start::Object => if depth == 0 {
            Ok(())
        } else {
            pass_members(reader, depth - 1)
        },
        Start::Text(_) | Start::Number(_) | Start::Bool(_) | Start::Null => Ok(()),
    }
}

/// Passes the items that are left of a list.
#[cycle(pass)]
fn pass_items(reader: &mut Reader<'_>, depth: usize) -> Result<(), Stop>
    ensures ok { OnOk result (Passes (items_at depth reader.old) reader.new) }
    ensures shorter { OnOk result (length reader.new < length reader.old) }
    ensures err { IfErr result (Stops (items_at depth reader.old)) }
{
    while !reader.take_end_array() {
        pass_value(reader, depth)?;
    }
    Ok(())
}

/// Passes the members that are left of an object.
#[cycle(pass)]
fn pass_members(reader: &mut Reader<'_>, depth: usize) -> Result<(), Stop>
    ensures ok { OnOk result (Passes (members_at depth no_members reader.old) reader.new) }
    ensures shorter { OnOk result (length reader.new < length reader.old) }
    ensures err { IfErr result (Stops (members_at depth no_members reader.old)) }
{
    while let Some(_) = reader.next_key()? {
        pass_value(reader, depth)?;
    }
    Ok(())
}
