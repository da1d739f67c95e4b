//! Strings, lists of them, and truth values.

ghost use Rattle.std.specs.Prelude.{◌≡◌, Some, IfErr, IfOk, map, option_and_then, option_map, string_bytes};
ghost use Rattle.serde_json.specs.Find.{as_bool, as_str};
ghost use Rattle.json_reading.specs.Standing.{value_at, Stops};
ghost use Rattle.unit_config.specs.UnitRead.{ReadsIn};
ghost use Rattle.unit_config.specs.UnitValues.{filled, filled_under, strings_in};

use json::Reader;
use json_reading::{Leaf, ReadItem, Stop, read_leaf, read_list};
use std::alloc::Global;

/// Reads the next value as a string; `None` where it is none.
pub(crate) fn read_string(
    alloc: Global,
    reader: &mut Reader<'_>,
    depth: usize,
) -> Result<Option<String>, Stop>
    ensures ok { IfOk result (λ found. ReadsIn as_str (value_at depth reader.old) reader.new
        (option_map string_bytes found)) }
    ensures err { IfErr result (Stops (value_at depth reader.old)) }
{
    match read_leaf(reader, depth)? {
        Leaf::Text(text) => Ok(Some(String::from_str(alloc, text)?)),
        Leaf::Number(_) | Leaf::Bool(_) | Leaf::Other => Ok(None),
    }
}

/// Reads the next value as a truth value; `None` where it is none.
pub(crate) fn read_bool(reader: &mut Reader<'_>, depth: usize) -> Result<Option<bool>, Stop>
    ensures ok { IfOk result (ReadsIn as_bool (value_at depth reader.old) reader.new) }
    ensures err { IfErr result (Stops (value_at depth reader.old)) }
{
    match read_leaf(reader, depth)? {
        Leaf::Bool(is_true) => Ok(Some(is_true)),
        Leaf::Number(_) | Leaf::Text(_) | Leaf::Other => Ok(None),
    }
}

/// The string, if it is not empty.
fn filled(text: Option<String>) -> Option<String>
    ensures { option_map string_bytes result ≡ option_and_then filled (option_map string_bytes text) }
{
    let text = text?;
    if text.is_empty() { None } else { Some(text) }
}

/// Reads the next value as a string that is not empty; `None` where it is none.
pub(crate) fn read_filled(
    alloc: Global,
    reader: &mut Reader<'_>,
    depth: usize,
) -> Result<Option<String>, Stop>
    ensures ok { IfOk result (λ found. ReadsIn (λ value. filled_under (Some value)) (value_at depth reader.old)
        reader.new (option_map string_bytes found)) }
    ensures err { IfErr result (Stops (value_at depth reader.old)) }
{
    let text = read_string(alloc, reader, depth)?;
    Ok(filled(text))
}

/// The strings of a list.
#[derive(Clone, Copy, Drop)]
struct Strings;

impl ReadItem for Strings {
    ghost use Rattle.std.specs.Prelude.{◌≡◌, None, Some, string_bytes};
    ghost use Rattle.serde_json.specs.Find.{as_str};

    type Item = String;

    ghost is_item = { λ _ value text. as_str value ≡ Some (string_bytes text) };

    ghost is_none = { λ _ value. as_str value ≡ None };

    fn read_item(
        &self,
        alloc: Global,
        reader: &mut Reader<'_>,
        depth: usize,
    ) -> Result<Option<String>, Stop> {
        read_string(alloc, reader, depth)
    }
}

/// Reads the next value as a list of strings; `None` where it is none.
pub(crate) fn read_strings(
    alloc: Global,
    reader: &mut Reader<'_>,
    depth: usize,
) -> Result<Option<Vec<String>>, Stop>
    ensures ok { IfOk result (λ found. ReadsIn strings_in (value_at depth reader.old) reader.new
        (option_map (λ list. map string_bytes list.items) found)) }
    ensures err { IfErr result (Stops (value_at depth reader.old)) }
{
    read_list(alloc, &Strings, reader, depth)
}
