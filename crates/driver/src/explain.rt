//! A check that tells why each finding stands there.

ghost use Rattle.std.specs.Prelude.{◌≡◌, Bool, IfErr, IfOk};
ghost use Rattle.inputs.specs.declared.input.FilesRead.{FilesRead};
ghost use Rattle.driver.specs.Faults.{IsCheckFault, LeavesUnwritten};
ghost use Rattle.printed.specs.Printing.{refused_by};
ghost use Rattle.printed.specs.Statuses.{status_of};
ghost use Rattle.driver.specs.WrittenReport.{IsBegun, IsWritten, OfExplainedReport};
ghost use Rattle.workers.specs.Counts.{count_of};

use crate::check::Checked;
use crate::notes::{Notes, note};
use crate::reports::explained_report_by_workers;
use command_line::CheckWords;
use folders::{Fault, Surroundings};
use inputs::{Input, read_sources, telling_for};
use judge::Settings;
use load::Leave;
use printed::{Refusals, Status, print};
use std::io::Write;
use std::rt::Files;
use std::sync::Wait;
use std::thread::Threads;

/// Checks the packages of these words, and prints the text of their report in which each finding has its notes. After
/// it stand the notes of the run, as after a check.
pub fn explain<
    'a,
    R: Files + Surroundings + AllocGlobal + Threads + Wait + Sync,
    W: Write,
    E: Write,
    L: Leave,
>(
    rt: &R,
    asked: &CheckWords<'a>,
    out: &mut W,
    err: &mut E,
    refusals: &mut Refusals,
) -> Result<Checked<'a>, Fault>
    ensures written { IfOk result (λ done. (yes : Bool) × (done.status ≡ status_of yes)
        × OfExplainedReport asked.now.sources asked.now.report done.files
        (IsWritten (W.contents out.old) (W.contents out.new) yes)) }
    ensures fault { IfErr result (IsCheckFault asked.now.sources (count_of asked.now.workers)) }
    ensures unwritten { IfErr result (λ fault. LeavesUnwritten fault (W.contents out.old) (W.contents out.new)) }
    ensures begun { IfErr result (λ fault. fault ≡ Fault.CannotWrite → (files : FilesRead)
        × OfExplainedReport asked.now.sources asked.now.report files
        (IsBegun (W.contents out.old) (W.contents out.new))) }
    ensures refused { refusals.new.any ≡ refused_by refusals.old.any result }
{
    let input = read_sources(rt, &asked.sources)?;
    let Input {
        files,
        outside,
        given,
        noted,
    } = input;
    let settings = Settings {
        workers: asked.workers,
        telling: telling_for(&asked.sources, asked.report, true, &files),
    };
    let told = explained_report_by_workers::<R, L>(rt, given, outside, settings)?;
    print(out, &told.text, refusals)?;
    let notes = Notes {
        read: &noted,
        not_given: &told.not_given,
        counts: told.report.counts,
    };
    note(rt.alloc(), &files, notes, err);
    Ok(Checked {
        status: Status::of_verdict(told.report.passes),
        files,
    })
}
