//! Functions, and lists of them.

ghost use Rattle.std.specs.Prelude.{◌≡◌, ◌==◌, IfErr, IfOk, option_map, map, string_bytes};
ghost use Rattle.std.specs.List.{list_all, list_any};
ghost use Rattle.json_reading.specs.Standing.{value_at, ReadsAs, Refutes, Stops};
ghost use Rattle.table_json.specs.MembersRead.{newer_with, older_with, AreFunctionsIn, IsText};
ghost use Rattle.table_json.specs.Tables.{are_apart, entry_of};
ghost use Rattle.table_json.specs.TableValues.{is_older};

use crate::order::functions_in_order;
use crate::parameters::read_parameters;
use crate::positions::read_positions;
use crate::table::{Function, Parameter, Version};
use json::Reader;
use json_reading::{
    Leaf, MakeItem, ReadItem, ReadMember, Stop, pass_value, read_leaf, read_list, read_made,
};
use std::alloc::Global;

/// Whether a position is one of these.
fn is_in(position: u32, positions: &[u32]) -> bool
    ensures { result ≡ list_any (λ n. n == position) positions.now }
{
    positions.contains(&position)
}

/// Whether no position is in both.
fn are_apart(gives: &[u32], causes: &[u32]) -> bool
    ensures { result ≡ are_apart gives.now causes.now }
{
    for position in gives {
        if is_in(*position, causes) {
            return false;
        }
    }
    true
}

/// Whether the older version has this parameter.
fn is_older(parameter: Parameter) -> bool
    ensures { result ≡ is_older parameter }
{
    match parameter {
        Parameter::Cause { .. } => false,
        Parameter::Cancel { .. } | Parameter::Group { .. } => true,
    }
}

/// Whether the older version has all of these.
fn are_older(parameters: &[Parameter]) -> bool
    ensures { result ≡ list_all is_older parameters.now }
{
    for parameter in parameters {
        if !is_older(*parameter) {
            return false;
        }
    }
    true
}

/// Reads the next value as a text.
fn read_text(alloc: Global, reader: &mut Reader<'_>, depth: usize) -> Result<Option<String>, Stop>
    ensures ok { IfOk result (λ found. ReadsAs IsText (Refutes IsText)
        (value_at depth reader.old) reader.new (option_map string_bytes found)) }
    ensures err { IfErr result (Stops (value_at depth reader.old)) }
{
    match read_leaf(reader, depth)? {
        Leaf::Text(text) => Ok(Some(String::from_str(alloc, text)?)),
        Leaf::Number(_) | Leaf::Bool(_) | Leaf::Other => Ok(None),
    }
}

/// Texts, one by one.
#[derive(Clone, Copy, Drop)]
pub struct Texts;

impl ReadItem for Texts {
    ghost use Rattle.std.specs.Prelude.{string_bytes};
    ghost use Rattle.json_reading.specs.Standing.{Refutes};
    ghost use Rattle.table_json.specs.MembersRead.{IsText};

    type Item = String;

    ghost is_item = { λ _ value text. IsText value (string_bytes text) };

    ghost is_none = { λ _. Refutes IsText };

    fn read_item(
        &self,
        alloc: Global,
        reader: &mut Reader<'_>,
        depth: usize,
    ) -> Result<Option<String>, Stop> {
        read_text(alloc, reader, depth)
    }
}

/// What was read of the members of a function in this version.
#[derive(Drop)]
pub struct FunctionMembers {
    version: Version,
    causes: Option<Vec<u32>>,
    has_causes: bool,
    gives: Option<Vec<u32>>,
    name: Option<String>,
    params: Option<Vec<Parameter>>,
    has_other: bool,
}

impl FunctionMembers {
    ghost use Rattle.std.specs.Prelude.{◌≡◌, option_map, string_bytes};
    ghost use Rattle.serde_json.specs.Data.{no_members};
    ghost use Rattle.table_json.specs.MembersRead.{HasFunctionMembers};

    /// What was read before the first one.
    pub fn new(version: Version) -> FunctionMembers
        ensures version { result.version ≡ version }
        ensures members { HasFunctionMembers result.has_other result.has_causes
            (option_map (λ list. list.items) result.causes) (option_map (λ list. list.items) result.gives)
            (option_map string_bytes result.name) (option_map (λ list. list.items) result.params) no_members }
    {
        FunctionMembers {
            version,
            causes: None,
            has_causes: false,
            gives: None,
            name: None,
            params: None,
            has_other: false,
        }
    }
}

impl ReadMember for FunctionMembers {
    ghost use Rattle.std.specs.Prelude.{◌≡◌, option_map, string_bytes};
    ghost use Rattle.table_json.specs.MembersRead.{HasFunctionMembers};

    ghost holds = { λ begun read found. (read.version ≡ begun.version)
        × HasFunctionMembers read.has_other read.has_causes
        (option_map (λ list. list.items) read.causes) (option_map (λ list. list.items) read.gives)
        (option_map string_bytes read.name) (option_map (λ list. list.items) read.params) found };

    fn read_member(
        &mut self,
        alloc: Global,
        key: &str,
        reader: &mut Reader<'_>,
        depth: usize,
    ) -> Result<(), Stop> {
        if key == "causes" {
            self.causes = read_positions(alloc, reader, depth)?;
            self.has_causes = true;
        } else if key == "gives" {
            self.gives = read_positions(alloc, reader, depth)?;
        } else if key == "name" {
            self.name = read_text(alloc, reader, depth)?;
        } else if key == "params" {
            self.params = read_parameters(alloc, reader, depth)?;
        } else {
            pass_value(reader, depth)?;
            self.has_other = true;
        }
        Ok(())
    }
}

/// The function of an object with these members in the newer version.
#[tactic(auto, unfolding(crate::specs::MembersRead::newer_with))]
fn newer_with(members: FunctionMembers) -> Option<Function>
    ensures { option_map entry_of result ≡ newer_with members.has_other
        (option_map (λ list. list.items) members.causes) (option_map (λ list. list.items) members.gives)
        (option_map string_bytes members.name) (option_map (λ list. list.items) members.params) }
{
    if members.has_other {
        return None;
    }
    let causes = members.causes?;
    let gives = members.gives?;
    if !are_apart(&gives, &causes) {
        return None;
    }
    Some(Function {
        name: members.name?,
        gives,
        causes,
        params: members.params?,
    })
}

/// The function of an object with these members in the older version.
#[tactic(auto, unfolding(crate::specs::MembersRead::older_with))]
fn older_with(alloc: Global, members: FunctionMembers) -> Option<Function>
    ensures { option_map entry_of result ≡ older_with members.has_other members.has_causes
        (option_map (λ list. list.items) members.gives)
        (option_map string_bytes members.name) (option_map (λ list. list.items) members.params) }
{
    if members.has_other {
        return None;
    }
    if members.has_causes {
        return None;
    }
    let params = members.params?;
    if !are_older(&params) {
        return None;
    }
    Some(Function {
        gives: members.gives?,
        name: members.name?,
        causes: Vec::new(alloc),
        params,
    })
}

impl MakeItem for FunctionMembers {
    ghost use Rattle.serde_json.specs.Data.{object};
    ghost use Rattle.json_reading.specs.Standing.{Refutes};
    ghost use Rattle.table_json.specs.Tables.{entry_of};
    ghost use Rattle.table_json.specs.TableValues.{IsFunctionIn};

    type Item = Function;

    ghost is_made = { λ begun ms function. IsFunctionIn begun.version (object ms) (entry_of function) };

    ghost is_none = { λ begun ms. Refutes (IsFunctionIn begun.version) (object ms) };

    fn make(self, alloc: Global) -> Option<Function> {
        match self.version {
            Version::Older => older_with(alloc, self),
            Version::Newer => newer_with(self),
        }
    }
}

/// The functions of a list, in this version.
#[derive(Clone, Copy, Drop)]
struct Functions {
    version: Version,
}

impl ReadItem for Functions {
    ghost use Rattle.json_reading.specs.Standing.{Refutes};
    ghost use Rattle.table_json.specs.Tables.{entry_of};
    ghost use Rattle.table_json.specs.TableValues.{IsFunctionIn};

    type Item = Function;

    ghost is_item = { λ items value function. IsFunctionIn items.version value (entry_of function) };

    ghost is_none = { λ items. Refutes (IsFunctionIn items.version) };

    fn read_item(
        &self,
        alloc: Global,
        reader: &mut Reader<'_>,
        depth: usize,
    ) -> Result<Option<Function>, Stop> {
        let members = FunctionMembers::new(self.version);
        read_made(alloc, members, reader, depth)
    }
}

/// Reads the next value as a list of functions in this version, in the order of their names and each with its positions
/// in order, however they stand there; `None` where one is no function of that version, or a name comes twice.
fn read_functions(
    alloc: Global,
    version: Version,
    reader: &mut Reader<'_>,
    depth: usize,
) -> Result<Option<Vec<Function>>, Stop>
    ensures ok { IfOk result (λ found. ReadsAs (AreFunctionsIn version) (Refutes (AreFunctionsIn version))
        (value_at depth reader.old) reader.new (option_map (λ list. map entry_of list.items) found)) }
    ensures err { IfErr result (Stops (value_at depth reader.old)) }
{
    match read_list(alloc, &Functions { version }, reader, depth)? {
        Some(given) => Ok(functions_in_order(given)),
        None => Ok(None),
    }
}

/// Lists of functions in this version.
#[derive(Clone, Copy, Drop)]
pub struct FunctionLists {
    pub version: Version,
}

impl ReadItem for FunctionLists {
    ghost use Rattle.std.specs.Prelude.{map};
    ghost use Rattle.json_reading.specs.Standing.{Refutes};
    ghost use Rattle.table_json.specs.MembersRead.{AreFunctionsIn};
    ghost use Rattle.table_json.specs.Tables.{entry_of};

    type Item = Vec<Function>;

    ghost is_item = { λ lists value list. AreFunctionsIn lists.version value (map entry_of list.items) };

    ghost is_none = { λ lists. Refutes (AreFunctionsIn lists.version) };

    fn read_item(
        &self,
        alloc: Global,
        reader: &mut Reader<'_>,
        depth: usize,
    ) -> Result<Option<Vec<Function>>, Stop> {
        read_functions(alloc, self.version, reader, depth)
    }
}
