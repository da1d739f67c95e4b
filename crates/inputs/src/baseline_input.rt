//! The report of an earlier run that is read from a file.

ghost use Rattle.std.specs.Prelude.{◌≡◌, ℕ, List, [], IfErr, IfOk, map};
ghost use Rattle.baseline_json.specs.BaselineTexts.{IsBaselineFault, IsBaselineText};
ghost use Rattle.baseline_json.specs.BaselineValues.{entry_of};
ghost use Rattle.command_line.specs.Words.{option_texts};
ghost use Rattle.inputs.specs.BaselinesRead.{located, AreKnownBy, AreLocatedBy, IsBaselineBytesFault, IsReadBaselineFault};

use baseline_json::{Baseline, BaselineFault, BaselineFinding, from_json};
use folders::{Fault, ReadFile, folder_of, read_file, shown_name};
use std::alloc::{AllocError, Global};
use std::rt::Files;

/// The findings of an earlier run, and the file that was read for them, if one is named.
#[derive(Debug, Drop)]
pub struct BaselineRead<'a> {
    pub file: Option<ReadFile<'a>>,
    pub findings: Vec<BaselineFinding>,
}

/// The findings in the report of this name, or none where none is named.
///
/// # Errors
///
/// The file can't be read, its bytes are no report as JSON, or memory was refused.
pub fn read_baseline<'a, R: Files + AllocGlobal>(
    rt: &R,
    name: Option<&'a str>,
) -> Result<BaselineRead<'a>, Fault>
    ensures known { IfOk result (AreKnownBy (option_texts name.entry)) }
    ensures fault { IfErr result (IsReadBaselineFault (option_texts name.entry)) }
{
    match name {
        Some(name) => {
            let file = read_file(rt, name)?;
            let found = findings_of(rt.alloc(), file.bytes())?;
            Ok(BaselineRead {
                file: Some(file),
                findings: found.findings,
            })
        }
        None => Ok(BaselineRead {
            file: None,
            findings: Vec::new(rt.alloc()),
        }),
    }
}

/// The same for a unit, whose files have absolute names: files of the report are named from its own folder on.
///
/// # Errors
///
/// As `read_baseline`.
pub fn read_located_baseline<'a, R: Files + AllocGlobal>(
    rt: &R,
    name: Option<&'a str>,
) -> Result<BaselineRead<'a>, Fault>
    ensures known { IfOk result (AreLocatedBy (option_texts name.entry)) }
    ensures fault { IfErr result (IsReadBaselineFault (option_texts name.entry)) }
{
    match name {
        Some(name) => {
            let file = read_file(rt, name)?;
            let found = findings_of(rt.alloc(), file.bytes())?;
            let findings = located(rt.alloc(), folder_of(name), found.findings)?;
            Ok(BaselineRead {
                file: Some(file),
                findings,
            })
        }
        None => Ok(BaselineRead {
            file: None,
            findings: Vec::new(rt.alloc()),
        }),
    }
}

/// These findings, whose files are named from this folder on.
fn located(
    alloc: Global,
    folder: &str,
    found: Vec<BaselineFinding>,
) -> Result<Vec<BaselineFinding>, AllocError>
    ensures { IfOk result (λ known. map entry_of known.items ≡ map (located folder.now) found.items) }
{
    let mut known = Vec::new(alloc);
    for finding in found {
        known.push(located_finding(alloc, folder, finding)?)?;
    }
    Ok(known)
}

fn located_finding(
    alloc: Global,
    folder: &str,
    finding: BaselineFinding,
) -> Result<BaselineFinding, AllocError>
    ensures { IfOk result (λ known. entry_of known ≡ located folder.now finding) }
{
    Ok(BaselineFinding {
        file: shown_name(alloc, None, folder, finding.file.as_str())?,
        ..finding
    })
}

/// The findings in the text that these bytes are.
fn findings_of(alloc: Global, bytes: &[u8]) -> Result<Baseline, Fault>
    ensures known { IfOk result (λ known. IsBaselineText bytes.now (map entry_of known.findings.items)) }
    ensures fault { IfErr result (IsBaselineBytesFault bytes.now) }
{
    match str::from_utf8(bytes) {
        Ok(text) => match from_json(alloc, text) {
            Ok(known) => Ok(known),
            Err(fault) => Err(fault_of_baseline(fault)),
        },
        Err(_) => Err(Fault::BaselineNotJson),
    }
}

/// Why a text is none of a report, as the program tells it.
fn fault_of_baseline(fault: BaselineFault) -> Fault
    ensures { (bytes : List ℕ) → IsBaselineFault bytes fault → IsBaselineBytesFault bytes result }
{
    match fault {
        BaselineFault::NotJson => Fault::BaselineNotJson,
        BaselineFault::WrongShape => Fault::BaselineWrongShape,
        BaselineFault::OutOfMemory => Fault::OutOfMemory,
    }
}
