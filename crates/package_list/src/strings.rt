//! Strings, and lists of them.

ghost use Rattle.std.specs.Prelude.{◌≡◌, Some, IfErr, IfOk, map, option_and_then, option_map, string_bytes};
ghost use Rattle.serde_json.specs.Find.{as_bool, as_str};
ghost use Rattle.json_reading.specs.Standing.{value_at, Stops};
ghost use Rattle.package_list.specs.ListedValues.{filled, filled_under, module_under, strings_in};
ghost use Rattle.package_list.specs.ListRead.{both_lists, ReadsIn};

use json::Reader;
use json_reading::{
    Leaf, ReadItem, ReadMember, Stop, pass_value, read_leaf, read_list, read_object,
};
use std::alloc::{AllocError, Global};

/// Reads the next value as a string; `None` where it is none.
pub(crate) fn read_string(
    alloc: Global,
    reader: &mut Reader<'_>,
    depth: usize,
) -> Result<Option<String>, Stop>
    ensures ok { IfOk result (λ found. ReadsIn as_str (value_at depth reader.old) reader.new
        (option_map string_bytes found)) }
    ensures err { IfErr result (Stops (value_at depth reader.old)) }
{
    match read_leaf(reader, depth)? {
        Leaf::Text(text) => Ok(Some(String::from_str(alloc, text)?)),
        Leaf::Number(_) | Leaf::Bool(_) | Leaf::Other => Ok(None),
    }
}

/// Reads the next value as a truth value; `None` where it is none.
pub(crate) fn read_bool(reader: &mut Reader<'_>, depth: usize) -> Result<Option<bool>, Stop>
    ensures ok { IfOk result (ReadsIn as_bool (value_at depth reader.old) reader.new) }
    ensures err { IfErr result (Stops (value_at depth reader.old)) }
{
    match read_leaf(reader, depth)? {
        Leaf::Bool(is_true) => Ok(Some(is_true)),
        Leaf::Number(_) | Leaf::Text(_) | Leaf::Other => Ok(None),
    }
}

/// The string, if it is not empty.
fn filled(text: Option<String>) -> Option<String>
    ensures { option_map string_bytes result ≡ option_and_then filled (option_map string_bytes text) }
{
    let text = text?;
    if text.is_empty() { None } else { Some(text) }
}

/// Reads the next value as a string that is not empty; `None` where it is none.
pub(crate) fn read_filled(
    alloc: Global,
    reader: &mut Reader<'_>,
    depth: usize,
) -> Result<Option<String>, Stop>
    ensures ok { IfOk result (λ found. ReadsIn (λ value. filled_under (Some value)) (value_at depth reader.old)
        reader.new (option_map string_bytes found)) }
    ensures err { IfErr result (Stops (value_at depth reader.old)) }
{
    let text = read_string(alloc, reader, depth)?;
    Ok(filled(text))
}

/// The strings of a list.
#[derive(Clone, Copy, Drop)]
struct Strings;

impl ReadItem for Strings {
    ghost use Rattle.std.specs.Prelude.{◌≡◌, None, Some, string_bytes};
    ghost use Rattle.serde_json.specs.Find.{as_str};

    type Item = String;

    ghost is_item = { λ _ value text. as_str value ≡ Some (string_bytes text) };

    ghost is_none = { λ _ value. as_str value ≡ None };

    fn read_item(
        &self,
        alloc: Global,
        reader: &mut Reader<'_>,
        depth: usize,
    ) -> Result<Option<String>, Stop> {
        read_string(alloc, reader, depth)
    }
}

/// Reads the next value as a list of strings; `None` where it is none.
pub(crate) fn read_strings(
    alloc: Global,
    reader: &mut Reader<'_>,
    depth: usize,
) -> Result<Option<Vec<String>>, Stop>
    ensures ok { IfOk result (λ found. ReadsIn strings_in (value_at depth reader.old) reader.new
        (option_map (λ list. map string_bytes list.items) found)) }
    ensures err { IfErr result (Stops (value_at depth reader.old)) }
{
    read_list(alloc, &Strings, reader, depth)
}

/// Strings and then others, where both are there.
pub(crate) fn both_lists(
    first: Option<Vec<String>>,
    second: Option<Vec<String>>,
) -> Result<Option<Vec<String>>, AllocError>
    ensures { IfOk result (λ both. option_map (λ list. map string_bytes list.items) both
        ≡ both_lists (option_map (λ list. map string_bytes list.items) first)
        (option_map (λ list. map string_bytes list.items) second)) }
{
    let Some(mut strings) = first else {
        return Ok(None);
    };
    let Some(mut others) = second else {
        return Ok(None);
    };
    strings.append(&mut others)?;
    Ok(Some(strings))
}

/// What was read of the members of a module.
#[derive(Drop)]
struct ModuleMembers {
    path: Option<String>,
}

impl ReadMember for ModuleMembers {
    ghost use Rattle.std.specs.Prelude.{◌≡◌, codes, option_and_then, option_map, string_bytes};
    ghost use Rattle.serde_json.specs.Find.{as_str, get_member};

    ghost holds = { λ _ read ms. option_map string_bytes read.path
        ≡ option_and_then as_str (get_member (codes "Path") ms) };

    fn read_member(
        &mut self,
        alloc: Global,
        key: &str,
        reader: &mut Reader<'_>,
        depth: usize,
    ) -> Result<(), Stop> {
        if key == "Path" {
            self.path = read_string(alloc, reader, depth)?;
        } else {
            pass_value(reader, depth)?;
        }
        Ok(())
    }
}

/// A module with this path, if it has one.
fn with_path(path: Option<String>) -> Option<Option<String>>
    ensures { option_map (option_map string_bytes) result ≡ option_map Some (option_map string_bytes path) }
{
    let path = path?;
    Some(Some(path))
}

/// Reads the next value as a module, and answers its path; `None` where it is none.
pub(crate) fn read_module(
    alloc: Global,
    reader: &mut Reader<'_>,
    depth: usize,
) -> Result<Option<Option<String>>, Stop>
    ensures ok { IfOk result (λ found. ReadsIn (λ value. module_under (Some value)) (value_at depth reader.old)
        reader.new (option_map (option_map string_bytes) found)) }
    ensures err { IfErr result (Stops (value_at depth reader.old)) }
{
    let mut members = ModuleMembers { path: None };
    if read_object(alloc, &mut members, reader, depth)? {
        Ok(with_path(members.path))
    } else {
        Ok(None)
    }
}
