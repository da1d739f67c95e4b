//! Findings, and lists of them.

ghost use Rattle.std.specs.Prelude.{◌≡◌, IfErr, IfOk, map, option_map, string_bytes};
ghost use Rattle.serde_json.specs.Find.{as_str};
ghost use Rattle.json_reading.specs.Standing.{value_at, Stops};
ghost use Rattle.baseline_json.specs.BaselineRead.{finding_with, ReadsIn};
ghost use Rattle.baseline_json.specs.BaselineValues.{accepted_in, entry_of, findings_in};

use crate::baseline::BaselineFinding;
use json::Reader;
use json_reading::{
    Leaf, ReadItem, ReadMember, Stop, pass_value, read_leaf, read_list, read_object,
};
use std::alloc::Global;

/// Reads the next value as a string; `None` where it is none.
fn read_string(alloc: Global, reader: &mut Reader<'_>, depth: usize) -> Result<Option<String>, Stop>
    ensures ok { IfOk result (λ found. ReadsIn as_str (value_at depth reader.old) reader.new
        (option_map string_bytes found)) }
    ensures err { IfErr result (Stops (value_at depth reader.old)) }
{
    match read_leaf(reader, depth)? {
        Leaf::Text(text) => Ok(Some(String::from_str(alloc, text)?)),
        Leaf::Number(_) | Leaf::Bool(_) | Leaf::Other => Ok(None),
    }
}

/// Reads the next value as a reason why something was accepted, which is a string: so it was. `None` where it is none.
fn read_accepted(reader: &mut Reader<'_>, depth: usize) -> Result<Option<bool>, Stop>
    ensures ok { IfOk result (ReadsIn accepted_in (value_at depth reader.old) reader.new) }
    ensures err { IfErr result (Stops (value_at depth reader.old)) }
{
    match read_leaf(reader, depth)? {
        Leaf::Text(_) => Ok(Some(true)),
        Leaf::Number(_) | Leaf::Bool(_) | Leaf::Other => Ok(None),
    }
}

/// What was read of the members of a finding: of each `None` where it is unfit, or missing and must not be.
#[derive(Drop)]
struct FindingMembers {
    file: Option<String>,
    code: Option<String>,
    name: Option<String>,
    was_accepted: Option<bool>,
}

impl ReadMember for FindingMembers {
    ghost use Rattle.baseline_json.specs.BaselineRead.{HasMembers};

    ghost holds = { λ _. HasMembers };

    fn read_member(
        &mut self,
        alloc: Global,
        key: &str,
        reader: &mut Reader<'_>,
        depth: usize,
    ) -> Result<(), Stop> {
        if key == "file" {
            self.file = read_string(alloc, reader, depth)?;
        } else if key == "code" {
            self.code = read_string(alloc, reader, depth)?;
        } else if key == "name" {
            self.name = read_string(alloc, reader, depth)?;
        } else if key == "accepted" {
            self.was_accepted = read_accepted(reader, depth)?;
        } else {
            pass_value(reader, depth)?;
        }
        Ok(())
    }
}

/// The finding of an object with such members.
#[tactic(auto, unfolding(crate::specs::BaselineRead::finding_with))]
fn finding_with(members: FindingMembers) -> Option<BaselineFinding>
    ensures { option_map entry_of result ≡ finding_with (option_map string_bytes members.file)
        (option_map string_bytes members.code) (option_map string_bytes members.name) members.was_accepted }
{
    Some(BaselineFinding {
        file: members.file?,
        code: members.code?,
        name: members.name?,
        was_accepted: members.was_accepted?,
    })
}

/// The findings of a list.
#[derive(Clone, Copy, Drop)]
struct Findings;

impl ReadItem for Findings {
    ghost use Rattle.std.specs.Prelude.{◌≡◌, None, Some};
    ghost use Rattle.baseline_json.specs.BaselineValues.{entry_of, finding_in};

    type Item = BaselineFinding;

    ghost is_item = { λ _ value found. finding_in value ≡ Some (entry_of found) };

    ghost is_none = { λ _ value. finding_in value ≡ None };

    fn read_item(
        &self,
        alloc: Global,
        reader: &mut Reader<'_>,
        depth: usize,
    ) -> Result<Option<BaselineFinding>, Stop> {
        let mut members = FindingMembers {
            file: None,
            code: None,
            name: None,
            was_accepted: Some(false),
        };
        if read_object(alloc, &mut members, reader, depth)? {
            Ok(finding_with(members))
        } else {
            Ok(None)
        }
    }
}

/// Reads the next value as a list of findings; `None` where it is none.
pub(crate) fn read_findings(
    alloc: Global,
    reader: &mut Reader<'_>,
    depth: usize,
) -> Result<Option<Vec<BaselineFinding>>, Stop>
    ensures ok { IfOk result (λ found. ReadsIn findings_in (value_at depth reader.old) reader.new
        (option_map (λ list. map entry_of list.items) found)) }
    ensures err { IfErr result (Stops (value_at depth reader.old)) }
{
    read_list(alloc, &Findings, reader, depth)
}
