//! A fault that all units of one run of the go command have, told once: of a flag, or of a file that a flag names.

ghost use Rattle.std.specs.Prelude.{◌≡◌, ◌⊎◌, true, false, is_some, IfErr, IfOk};
ghost use Rattle.command_line.specs.VetWords.{run_folder};
ghost use Rattle.vet_units.specs.UnitRuns.{is_of_memory, IsToldOnce};

use command_line::{WrongValue, run_folder, wrong_value_text};
use folders::Fault;
use printed::Status;
use std::alloc::AllocError;
use std::io::{ErrorKind, Write};
use std::rt::Files;

/// Whether another unit of the run of the go command that made this folder has told such a fault: it has made a folder
/// there. The go command removes all of it when it ends.
fn is_told_by_another<R: Files + AllocGlobal>(rt: &R, run: &str) -> Result<bool, AllocError> {
    let mark = format!(in rt.alloc(); "{run}/ctxvet-told")?;
    match rt.create_dir(mark.as_str()) {
        Ok(()) => Ok(false),
        Err(error) => Ok(error.kind() == ErrorKind::AlreadyExists),
    }
}

/// Tells on standard error that a flag can't have its value. Of the units of one run of the go command the first one
/// does, and fails, and so does that run; the others end well.
///
/// # Errors
///
/// Memory was refused.
pub fn tell_wrong<R: Files + AllocGlobal, E: Write>(
    rt: &R,
    wrong: &WrongValue<'_>,
    file: &str,
    err: &mut E,
) -> Result<Status, AllocError>
    ensures { IfOk result (IsToldOnce file.now) }
{
    if let Some(run) = run_folder(file) {
        if is_told_by_another(rt, run)? {
            return Ok(Status::Fine);
        }
    }
    let text = wrong_value_text(rt.alloc(), wrong)?;
    // Where standard error fails too, nobody is left to be told.
    let _ = err.write_all(text.as_bytes());
    let _ = err.flush();
    Ok(Status::Faulty)
}

/// Whether memory was refused, which is no fault that all units have.
fn is_of_memory(fault: &Fault) -> bool
    ensures { result ≡ is_of_memory fault.now }
{
    matches!(fault, Fault::OutOfMemory)
}

/// Ends a unit for which a file that a flag names has this fault. Of the units of one run of the go command the first
/// one fails with it, and so does that run; the others end well.
///
/// # Errors
///
/// The fault itself, where no other unit has told it; or memory was refused.
pub fn fail_once<R: Files + AllocGlobal>(rt: &R, fault: Fault, file: &str) -> Result<Status, Fault>
    ensures fine { IfOk result (λ status. (status ≡ Status.Fine) × (is_some (run_folder file.now) ≡ true)
        × (is_of_memory fault ≡ false)) }
    ensures fault { IfErr result (λ told. (told ≡ fault) ⊎ (told ≡ Fault.OutOfMemory)) }
{
    if is_of_memory(&fault) {
        return Err(fault);
    }
    if let Some(run) = run_folder(file) {
        if is_told_by_another(rt, run)? {
            return Ok(Status::Fine);
        }
    }
    Err(fault)
}
