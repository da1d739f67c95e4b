//! What the go command asks of its vet tool.

ghost use Rattle.std.specs.Prelude.{◌≡◌, false, IfErr, IfOk, string_bytes};
ghost use Rattle.std.specs.Io.KnownBytes.{Appends};
ghost use Rattle.command_line.specs.VetViews.{call_of};
ghost use Rattle.folders.specs.declared.whole_files.ReadFile.{ReadFile as FileRead};
ghost use Rattle.unit_config.specs.UnitValues.{unit_of};
ghost use Rattle.printed.specs.Printing.{is_of_writing, refused_by, AppendsFront};
ghost use Rattle.vet_units.specs.UnitsRead.{AreFilesFor};
ghost use Rattle.vet_units.specs.UnitRuns.{said_of, unit_status, version_line, DoesCall, FailsByCall, ForUnit, IsFaultFor, IsKeepingFault, HoldsKept, IsDone, IsPrintBegun, IsDoneWith, IsOwnFileFault, IsUnitRunFault, IsVersionFault, DoesUnit, OfUnit};

use crate::digests::digest_text;
use crate::flag_files::{FlagFiles, read_flag_files};
use crate::notes::note;
use crate::told_once::{fail_once, tell_wrong};
use crate::unit_input::read_unit_input;
use crate::unit_report::{JudgedUnit, judge_unit};
use command_line::{UnitFlags, VERSION, VET_FLAGS, VetAsked};
use folders::{
    Fault, Surroundings, UnwrittenFile, WrittenFile, own_file, read_file, write_file_without_sync,
};
use load::Leave;
use printed::{Refusals, Status, print};
use std::io::Write;
use std::rt::Files;
use unit_config::Unit;
use unit_reading::read_unit_file;
use vetx_json::{Vetx, to_json};

/// How a unit ended, and the file that what is kept of it was written to.
#[derive(Drop)]
struct UnitDone<'u> {
    status: Status,
    file: WrittenFile<'u>,
}

/// Writes what is kept of the unit to the file that it names for that. Nothing else is taken, so that it can't depend
/// on how the unit was asked for: the go command keeps this file for all that import the package.
fn keep<'u, R: Files + AllocGlobal>(
    rt: &R,
    unit: &'u Unit,
    kept: &Vetx,
) -> Result<WrittenFile<'u>, Fault>
    ensures kept { IfOk result (HoldsKept (unit_of unit.now) kept.now) }
    ensures fault { IfErr result (IsKeepingFault (unit_of unit.now)) }
{
    let file = UnwrittenFile::named(rt.alloc(), unit.output.as_str())?;
    let text = to_json(rt.alloc(), kept)?;
    // The go command copies the file at once, and waits for no disk either.
    write_file_without_sync(rt, file, text)
}

/// What is printed of a unit: its report, or nothing.
fn said_of<'j>(unit: &Unit, judged: &'j JudgedUnit) -> &'j [u8]
    ensures { result.now ≡ said_of (unit_of unit.now) judged.now }
{
    if unit.is_silent { &[] } else { &judged.text }
}

/// The status of a unit: one that prints nothing, or JSON, finds nothing.
fn status_of(flags: &UnitFlags<'_>, unit: &Unit, judged: &JudgedUnit) -> Status
    ensures { result ≡ unit_status flags.now (unit_of unit.now) judged.now }
{
    if unit.is_silent || flags.is_json {
        Status::Fine
    } else {
        Status::of_verdict(judged.text.is_empty())
    }
}

/// Judges the unit, beside the files that the flags name, writes what is kept of it, and then prints its report. After
/// it stand the notes.
fn run_unit<'u, R: Files + AllocGlobal, W: Write, E: Write, L: Leave>(
    rt: &R,
    flags: &UnitFlags<'_>,
    unit: &'u Unit,
    files: FlagFiles<'u>,
    out: &mut W,
    err: &mut E,
    refusals: &mut Refusals,
) -> Result<UnitDone<'u>, Fault>
    requires { AreFilesFor flags.now files }
    ensures done { IfOk result (λ done. ForUnit flags.now (unit_of unit.now)
        (IsDoneWith flags.now done.file done.status (W.contents out.old) (W.contents out.new) (unit_of unit.now))) }
    ensures fault { IfErr result (IsFaultFor flags.now (unit_of unit.now)) }
    ensures unwritten { IfErr result (λ fault. is_of_writing fault ≡ false → W.contents out.new ≡ W.contents out.old) }
    ensures begun { IfErr result (λ fault. fault ≡ Fault.CannotWrite → ForUnit flags.now (unit_of unit.now)
        (IsPrintBegun (W.contents out.old) (W.contents out.new) (unit_of unit.now))) }
    ensures refused { refusals.new.any ≡ refused_by refusals.old.any result }
{
    let input = read_unit_input(rt, flags, unit, files)?;
    let judged = judge_unit::<L>(rt.alloc(), flags, unit, input)?;
    let file = keep(rt, unit, &judged.kept)?;
    print(out, said_of(unit, &judged), refusals)?;
    note(rt.alloc(), flags, unit, &judged, err);
    Ok(UnitDone {
        status: status_of(flags, unit, &judged),
        file,
    })
}

/// Judges the unit in the file of this name, as `run_unit`. Where a file that the flags name has a fault, one unit of a
/// run of the go command tells it.
fn vet_unit<R: Files + AllocGlobal, W: Write, E: Write, L: Leave>(
    rt: &R,
    flags: &UnitFlags<'_>,
    file: &str,
    out: &mut W,
    err: &mut E,
    refusals: &mut Refusals,
) -> Result<Status, Fault>
    ensures told { IfOk result (λ status.
        DoesUnit flags.now file.now status (W.contents out.old) (W.contents out.new)) }
    ensures fault { IfErr result (IsUnitRunFault flags.now file.now) }
    ensures unwritten { IfErr result (λ fault. is_of_writing fault ≡ false → W.contents out.new ≡ W.contents out.old) }
    ensures begun { IfErr result (λ fault. fault ≡ Fault.CannotWrite → OfUnit flags.now file.now
        (IsPrintBegun (W.contents out.old) (W.contents out.new))) }
    ensures refused { refusals.new.any ≡ refused_by refusals.old.any result }
{
    let read = read_unit_file(rt, file)?;
    match read_flag_files(rt, flags) {
        Ok(files) => {
            let done = run_unit::<R, W, E, L>(rt, flags, &read.unit, files, out, err, refusals)?;
            Ok(done.status)
        }
        Err(fault) => fail_once(rt, fault, file),
    }
}

/// The line that tells which program this is, by its own file.
fn version_line<R: Files + Surroundings + AllocGlobal>(rt: &R) -> Result<String, Fault>
    ensures line { IfOk result (λ line. (file : FileRead) × (string_bytes line ≡ version_line file)) }
    ensures fault { IfErr result IsOwnFileFault }
{
    let name = own_file(rt)?;
    let file = read_file(rt, name.as_str())?;
    let sum = digest_text(rt.alloc(), file.bytes())?;
    let line = format!(in rt.alloc(); "ctxvet version {VERSION} {sum}\n")?;
    Ok(line)
}

/// Prints that line.
fn tell_version<R: Files + Surroundings + AllocGlobal, W: Write>(
    rt: &R,
    out: &mut W,
    refusals: &mut Refusals,
) -> Result<(), Fault>
    ensures told { IfOk result (λ done.
        (file : FileRead) × Appends (W.contents out.old) (W.contents out.new) (version_line file)) }
    ensures fault { IfErr result IsVersionFault }
    ensures unwritten { IfErr result (λ fault. is_of_writing fault ≡ false → W.contents out.new ≡ W.contents out.old) }
    ensures begun { IfErr result (λ fault. fault ≡ Fault.CannotWrite
        → (file : FileRead) × AppendsFront (W.contents out.old) (W.contents out.new) (version_line file)) }
    ensures refused { refusals.new.any ≡ refused_by refusals.old.any result }
{
    let line = version_line(rt)?;
    print(out, line.as_bytes(), refusals)?;
    Ok(())
}

/// Does what the go command asks for.
pub fn vet<R: Files + Surroundings + AllocGlobal, W: Write, E: Write, L: Leave>(
    rt: &R,
    asked: &VetAsked<'_>,
    out: &mut W,
    err: &mut E,
    refusals: &mut Refusals,
) -> Result<Status, Fault>
    ensures done { IfOk result (λ status.
        DoesCall (call_of asked.now) status (W.contents out.old) (W.contents out.new)) }
    ensures fails { IfErr result (FailsByCall (call_of asked.now) (W.contents out.old) (W.contents out.new)) }
    ensures refused { refusals.new.any ≡ refused_by refusals.old.any result }
{
    match asked {
        VetAsked::Flags => {
            print(out, VET_FLAGS.as_bytes(), refusals)?;
            Ok(Status::Fine)
        }
        VetAsked::Version => {
            tell_version(rt, out, refusals)?;
            Ok(Status::Fine)
        }
        VetAsked::Unit { flags, file } => vet_unit::<R, W, E, L>(
            rt, flags, file, out, err, refusals,
        ),
        VetAsked::Wrong { wrong, file } => {
            let status = tell_wrong(rt, wrong, file, err)?;
            Ok(status)
        }
    }
}
