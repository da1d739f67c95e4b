//! The unit of a configuration.

ghost use Rattle.std.specs.Prelude.{◌≡◌, IfErr, IfOk, map, option_map, string_bytes};
ghost use Rattle.serde_json.specs.Data.{Data};
ghost use Rattle.json_reading.specs.Standing.{Judges};
ghost use Rattle.unit_config.specs.KeyedTexts.{texts_of};
ghost use Rattle.unit_config.specs.UnitRead.{unit_with, RefusesBytes};
ghost use Rattle.unit_config.specs.UnitTexts.{IsJsonOf, IsUnitFault, IsUnitText};
ghost use Rattle.unit_config.specs.UnitValues.{unit_of, IsNoUnit, IsUnit};

use crate::fault::UnitFault;
use crate::members::UnitMembers;
use crate::unit::Unit;
use json::Reader;
use json_reading::{ReadItem, Stop, read_object, read_whole};
use std::alloc::Global;

/// The unit of an object with such members.
#[tactic(auto, unfolding(crate::specs::UnitRead::unit_with))]
fn unit_with(members: UnitMembers) -> Option<Unit>
    ensures { option_map unit_of result ≡ unit_with
        (option_map string_bytes members.id) (option_map string_bytes members.folder)
        (option_map string_bytes members.path) (option_map string_bytes members.output)
        (option_map (λ list. map string_bytes list.items) members.files)
        (option_map texts_of members.imports) (option_map texts_of members.told) members.is_silent }
{
    Some(Unit {
        id: members.id?,
        folder: members.folder?,
        path: members.path?,
        files: members.files?,
        imports: members.imports?,
        told: members.told?,
        is_silent: members.is_silent?,
        output: members.output?,
    })
}

/// The unit of which a value tells.
#[derive(Clone, Copy, Drop)]
struct Units;

impl ReadItem for Units {
    ghost use Rattle.unit_config.specs.UnitValues.{unit_of, IsNoUnit, IsUnit};

    type Item = Unit;

    ghost is_item = { λ _ value unit. IsUnit value (unit_of unit) };

    ghost is_none = { λ _. IsNoUnit };

    fn read_item(
        &self,
        alloc: Global,
        reader: &mut Reader<'_>,
        depth: usize,
    ) -> Result<Option<Unit>, Stop> {
        let mut members = UnitMembers::new(alloc);
        if !read_object(alloc, &mut members, reader, depth)? {
            return Ok(None);
        }
        Ok(unit_with(members))
    }
}

/// The unit of which bytes tell, if they tell of one.
fn read_bytes(alloc: Global, bytes: &[u8]) -> Result<Option<Unit>, Stop>
    ensures ok { IfOk result (λ found. (value : Data) × IsJsonOf bytes.now value
        × Judges (λ v unit. IsUnit v (unit_of unit)) IsNoUnit value found) }
    ensures err { IfErr result (RefusesBytes bytes.now) }
{
    match str::from_utf8(bytes) {
        Ok(text) => read_whole(alloc, &Units, text),
        Err(_) => Err(Stop::NotJson),
    }
}

/// The unit of which the configuration tells that the go command writes for a vet tool. Of its object `ID`, `Dir`,
/// `ImportPath`, `GoFiles`, `ImportMap`, `PackageVetx`, `VetxOnly` and `VetxOutput` count; other keys are passed over,
/// and of equal keys the last counts. A missing list or object is empty, and a missing `VetxOnly` is false.
///
/// # Errors
///
/// The bytes are not UTF-8 or no JSON; they tell of no unit, as `ID`, `Dir`, `ImportPath` or `VetxOutput` is missing or
/// empty, or a key that counts has a value of another kind; or memory was refused. This is the order in which it is
/// looked for them.
pub fn read_unit(alloc: Global, bytes: &[u8]) -> Result<Unit, UnitFault>
    ensures unit { IfOk result (λ unit. IsUnitText bytes.now (unit_of unit)) }
    ensures fault { IfErr result (IsUnitFault bytes.now) }
{
    match read_bytes(alloc, bytes)? {
        Some(unit) => Ok(unit),
        None => Err(UnitFault::WrongShape),
    }
}
