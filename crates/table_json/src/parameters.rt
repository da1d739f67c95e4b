//! Parameters, and lists of them.

ghost use Rattle.std.specs.Prelude.{◌≡◌, IfErr, IfOk, option_map};
ghost use Rattle.json_reading.specs.Standing.{value_at, Judges, ReadsAs, Refutes, Stops};
ghost use Rattle.table_json.specs.MembersRead.{parameter_with, AreParameters, IsKind, IsKindText, IsTruth};

use crate::order::parameters_in_order;
use crate::positions::read_position;
use crate::table::Parameter;
use json::Reader;
use json_reading::{
    Leaf, ReadItem, ReadMember, Stop, pass_value, read_leaf, read_list, read_object,
};
use std::alloc::Global;

/// The kinds of parameters.
#[derive(Clone, Copy, Drop)]
pub(crate) enum Kind {
    Cancel,
    Cause,
    Group,
}

fn kind_of(text: &str) -> Option<Kind>
    ensures { Judges IsKindText (Refutes IsKindText) text.now result }
{
    if text == "cancel" {
        Some(Kind::Cancel)
    } else if text == "cause" {
        Some(Kind::Cause)
    } else if text == "group" {
        Some(Kind::Group)
    } else {
        None
    }
}

fn read_kind(reader: &mut Reader<'_>, depth: usize) -> Result<Option<Kind>, Stop>
    ensures ok { IfOk result (ReadsAs IsKind (Refutes IsKind) (value_at depth reader.old) reader.new) }
    ensures err { IfErr result (Stops (value_at depth reader.old)) }
{
    match read_leaf(reader, depth)? {
        Leaf::Text(text) => Ok(kind_of(text)),
        Leaf::Number(_) | Leaf::Bool(_) | Leaf::Other => Ok(None),
    }
}

fn read_truth(reader: &mut Reader<'_>, depth: usize) -> Result<Option<bool>, Stop>
    ensures ok { IfOk result (ReadsAs IsTruth (Refutes IsTruth) (value_at depth reader.old) reader.new) }
    ensures err { IfErr result (Stops (value_at depth reader.old)) }
{
    match read_leaf(reader, depth)? {
        Leaf::Bool(is_true) => Ok(Some(is_true)),
        Leaf::Text(_) | Leaf::Number(_) | Leaf::Other => Ok(None),
    }
}

/// Truth values, one by one.
#[derive(Clone, Copy, Drop)]
pub struct Truths;

impl ReadItem for Truths {
    ghost use Rattle.json_reading.specs.Standing.{Refutes};
    ghost use Rattle.table_json.specs.MembersRead.{IsTruth};

    type Item = bool;

    ghost is_item = { λ _. IsTruth };

    ghost is_none = { λ _. Refutes IsTruth };

    fn read_item(
        &self,
        _: Global,
        reader: &mut Reader<'_>,
        depth: usize,
    ) -> Result<Option<bool>, Stop> {
        read_truth(reader, depth)
    }
}

/// What was read of the members of a parameter.
#[derive(Clone, Copy, Drop)]
struct ParameterMembers {
    at: Option<u32>,
    calls: Option<bool>,
    has_calls: bool,
    kind: Option<Kind>,
    has_other: bool,
}

impl ReadMember for ParameterMembers {
    ghost use Rattle.table_json.specs.MembersRead.{HasParameterMembers};

    ghost holds = { λ _ read. HasParameterMembers read.has_other read.has_calls read.at read.calls read.kind };

    fn read_member(
        &mut self,
        _: Global,
        key: &str,
        reader: &mut Reader<'_>,
        depth: usize,
    ) -> Result<(), Stop> {
        if key == "at" {
            self.at = read_position(reader, depth)?;
        } else if key == "calls" {
            self.calls = read_truth(reader, depth)?;
            self.has_calls = true;
        } else if key == "kind" {
            self.kind = read_kind(reader, depth)?;
        } else {
            pass_value(reader, depth)?;
            self.has_other = true;
        }
        Ok(())
    }
}

/// The parameter of an object with these members.
#[tactic(auto, unfolding(crate::specs::MembersRead::parameter_with))]
fn parameter_with(members: ParameterMembers) -> Option<Parameter>
    ensures { result
        ≡ parameter_with members.has_other members.has_calls members.at members.calls members.kind }
{
    if members.has_other {
        return None;
    }
    let at = members.at?;
    match members.kind? {
        Kind::Cancel => Some(Parameter::Cancel {
            at,
            calls: members.calls?,
        }),
        Kind::Cause => Some(Parameter::Cause {
            at,
            calls: members.calls?,
        }),
        Kind::Group => if members.has_calls {
            None
        } else {
            Some(Parameter::Group { at })
        },
    }
}

/// The parameters of a list.
#[derive(Clone, Copy, Drop)]
struct Parameters;

impl ReadItem for Parameters {
    ghost use Rattle.json_reading.specs.Standing.{Refutes};
    ghost use Rattle.table_json.specs.declared.table.Parameter.{Parameter as TableParameter};
    ghost use Rattle.table_json.specs.MembersRead.{IsParameter};

    type Item = Parameter;

    ghost is_item = { λ _. IsParameter };

    ghost is_none = { λ _. Refutes IsParameter };

    fn read_item(
        &self,
        alloc: Global,
        reader: &mut Reader<'_>,
        depth: usize,
    ) -> Result<Option<Parameter>, Stop> {
        let mut members = ParameterMembers {
            at: None,
            calls: None,
            has_calls: false,
            kind: None,
            has_other: false,
        };
        if read_object(alloc, &mut members, reader, depth)? {
            Ok(parameter_with(members))
        } else {
            Ok(None)
        }
    }
}

/// Reads the next value as a list of parameters, in the order of their positions.
///
/// # Errors
///
/// No value stands there, or memory was refused.
pub(crate) fn read_parameters(
    alloc: Global,
    reader: &mut Reader<'_>,
    depth: usize,
) -> Result<Option<Vec<Parameter>>, Stop>
    ensures ok { IfOk result (λ found. ReadsAs AreParameters (Refutes AreParameters)
        (value_at depth reader.old) reader.new (option_map (λ list. list.items) found)) }
    ensures err { IfErr result (Stops (value_at depth reader.old)) }
{
    match read_list(alloc, &Parameters, reader, depth)? {
        Some(given) => Ok(parameters_in_order(given)),
        None => Ok(None),
    }
}
