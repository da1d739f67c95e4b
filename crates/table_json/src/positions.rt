//! Positions, and lists of them.

ghost use Rattle.std.specs.Prelude.{◌≡◌, IfErr, IfOk, option_and_then, option_map};
ghost use Rattle.json_reading.specs.Standing.{value_at, ReadsAs, Refutes, Stops};
ghost use Rattle.table_json.specs.MembersRead.{ArePositions, IsPosition};
ghost use Rattle.table_json.specs.TableValues.{if_fits};

use crate::order::positions_in_order;
use json::Reader;
use json_reading::{ReadItem, Stop, read_list, read_number};
use std::alloc::Global;

/// The number, if a table can have it: it is below 2^32.
pub fn if_fits(number: usize) -> Option<u32>
    ensures { result ≡ if_fits number }
{
    u32::try_from(number).ok()
}

/// The number, if it is one of at most 32 bits.
pub fn fitting(number: Option<u64>) -> Option<u32>
    ensures { result ≡ option_and_then if_fits number }
{
    let number = number?;
    u32::try_from(number).ok()
}

/// Reads the next value as a position: a whole number of at most 32 bits.
pub(crate) fn read_position(reader: &mut Reader<'_>, depth: usize) -> Result<Option<u32>, Stop>
    ensures ok { IfOk result (ReadsAs IsPosition (Refutes IsPosition) (value_at depth reader.old) reader.new) }
    ensures err { IfErr result (Stops (value_at depth reader.old)) }
{
    let number = read_number(reader, depth)?;
    Ok(fitting(number))
}

/// Positions, one by one: whole numbers of at most 32 bits.
#[derive(Clone, Copy, Drop)]
pub struct Positions;

impl ReadItem for Positions {
    ghost use Rattle.json_reading.specs.Standing.{Refutes};
    ghost use Rattle.table_json.specs.MembersRead.{IsPosition};

    type Item = u32;

    ghost is_item = { λ _. IsPosition };

    ghost is_none = { λ _. Refutes IsPosition };

    fn read_item(
        &self,
        _: Global,
        reader: &mut Reader<'_>,
        depth: usize,
    ) -> Result<Option<u32>, Stop> {
        read_position(reader, depth)
    }
}

/// Reads the next value as a list of positions, in their order.
///
/// # Errors
///
/// No value stands there, or memory was refused.
pub(crate) fn read_positions(
    alloc: Global,
    reader: &mut Reader<'_>,
    depth: usize,
) -> Result<Option<Vec<u32>>, Stop>
    ensures ok { IfOk result (λ found. ReadsAs ArePositions (Refutes ArePositions)
        (value_at depth reader.old) reader.new (option_map (λ list. list.items) found)) }
    ensures err { IfErr result (Stops (value_at depth reader.old)) }
{
    match read_list(alloc, &Positions, reader, depth)? {
        Some(given) => Ok(positions_in_order(given)),
        None => Ok(None),
    }
}
