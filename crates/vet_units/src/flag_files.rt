//! The files that flags of a unit name, which are the same for all units of one run of the go command.

ghost use Rattle.std.specs.Prelude.{IfErr, IfOk};
ghost use Rattle.vet_units.specs.UnitsRead.{AreFilesFor, IsFlagFileFault};

use command_line::UnitFlags;
use declared_json::DeclaredPackages;
use folders::{Fault, ReadFile};
use inputs::{BaselineRead, read_facts, read_located_baseline};
use std::rt::Files;

/// What was read of them: the file of declared facts, if one is named, and what it declares; and the findings of an
/// earlier run.
#[derive(Drop)]
pub struct FlagFiles<'f> {
    pub facts: Option<ReadFile<'f>>,
    pub declared: DeclaredPackages,
    pub baseline: BaselineRead<'f>,
}

/// Reads the file of declared facts and the report of an earlier run, where the flags name them.
///
/// # Errors
///
/// One of these can't be read, its bytes are no declared facts, or no report, or memory was refused. It is the first
/// of these.
pub fn read_flag_files<'f, R: Files + AllocGlobal>(
    rt: &R,
    flags: &UnitFlags<'f>,
) -> Result<FlagFiles<'f>, Fault>
    ensures read { IfOk result (AreFilesFor flags.now) }
    ensures fault { IfErr result (IsFlagFileFault flags.now) }
{
    let declared = read_facts(rt, flags.facts)?;
    let baseline = read_located_baseline(rt, flags.baseline)?;
    Ok(FlagFiles {
        facts: declared.file,
        declared: declared.outside,
        baseline,
    })
}
