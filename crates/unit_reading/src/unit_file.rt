//! The file of a unit.

ghost use Rattle.std.specs.Prelude.{◌≡◌, ℕ, List, IfErr, IfOk, string_bytes};
ghost use Rattle.unit_reading.specs.UnitsTold.{without_suffix, IsUnitBytesFault, IsUnitFileFault, IsUnitRead};
ghost use Rattle.folders.specs.Names.{IsPrintable};
ghost use Rattle.unit_config.specs.UnitTexts.{IsUnitFault, IsUnitText};
ghost use Rattle.unit_config.specs.UnitValues.{unit_of};

use folders::{Fault, ReadFile, escaped, is_printable, read_file};
use std::alloc::Global;
use std::rt::Files;
use test_packages::without_suffix;
use unit_config::{Unit, UnitFault, read_unit};

/// A unit, and the file that tells of it.
#[derive(Drop)]
pub struct UnitRead<'a> {
    pub file: ReadFile<'a>,
    pub unit: Unit,
}

/// The unit of which the file of this name tells.
///
/// # Errors
///
/// The file can't be read; its bytes tell of no unit, or of one whose path has a control code; or memory was refused.
pub fn read_unit_file<'a, R: Files + AllocGlobal>(
    rt: &R,
    name: &'a str,
) -> Result<UnitRead<'a>, Fault>
    ensures read { IfOk result (IsUnitRead name.now) }
    ensures fault { IfErr result (IsUnitFileFault name.now) }
{
    let file = read_file(rt, name)?;
    let unit = unit_in(rt.alloc(), file.bytes())?;
    Ok(UnitRead { file, unit })
}

/// The unit of which these bytes tell.
fn unit_in(alloc: Global, bytes: &[u8]) -> Result<Unit, Fault>
    ensures unit { IfOk result (λ unit. IsUnitText bytes.now (unit_of unit)) }
    ensures printable { IfOk result (λ unit. IsPrintable (without_suffix (string_bytes unit.path))) }
    ensures fault { IfErr result (IsUnitBytesFault bytes.now) }
{
    let unit = match read_unit(alloc, bytes) {
        Ok(unit) => unit,
        Err(fault) => return Err(fault_of_unit(fault)),
    };
    let path = without_suffix(unit.path.as_str());
    if is_printable(path.as_bytes()) {
        Ok(unit)
    } else {
        Err(Fault::BadPackage(escaped(alloc, path)?))
    }
}

/// Why bytes tell of no unit, as the program tells it.
fn fault_of_unit(fault: UnitFault) -> Fault
    ensures { (bytes : List ℕ) → IsUnitFault bytes fault → IsUnitBytesFault bytes result }
{
    match fault {
        UnitFault::NotJson => Fault::UnitNotJson,
        UnitFault::WrongShape => Fault::UnitWrongShape,
        UnitFault::OutOfMemory => Fault::OutOfMemory,
    }
}
