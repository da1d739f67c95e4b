//! A judgement by certificates.

ghost use Rattle.std.specs.Prelude.{◌≡◌, Bool, IfErr, IfOk};
ghost use Rattle.inputs.specs.declared.input.FilesRead.{FilesRead};
ghost use Rattle.driver.specs.Faults.{IsVerificationFault, LeavesUnwritten};
ghost use Rattle.printed.specs.Printing.{refused_by};
ghost use Rattle.printed.specs.Statuses.{status_of};
ghost use Rattle.driver.specs.WrittenReport.{IsBegun, IsWritten, OfVerifiedReport};

use crate::notes::{Notes, note};
use crate::reports::verified_report_of;
use command_line::VerifyWords;
use folders::{Fault, Surroundings};
use inputs::{Evidence, FilesRead, FoldersAsked, Input, read_evidence, telling_for};
use load::Leave;
use printed::{Refusals, Status, print};
use std::io::Write;
use std::rt::Files;

/// How a verification ended, and the files that were read for it beside those of packages and certificates.
#[derive(Debug, Drop)]
pub struct Verified<'a> {
    pub status: Status,
    pub files: FilesRead<'a>,
}

/// Judges the packages of these words by the certificates in the file, and prints their report. After it stand the
/// notes.
pub fn verify<'a, R: Files + Surroundings + AllocGlobal, W: Write, E: Write, L: Leave>(
    rt: &R,
    asked: &VerifyWords<'a>,
    out: &mut W,
    err: &mut E,
    refusals: &mut Refusals,
) -> Result<Verified<'a>, Fault>
    ensures written { IfOk result (λ done. (yes : Bool) × (done.status ≡ status_of yes)
        × OfVerifiedReport asked.now.sources asked.now.report done.files asked.now.file.now
        (IsWritten (W.contents out.old) (W.contents out.new) yes)) }
    ensures fault { IfErr result (IsVerificationFault asked.now.sources asked.now.file.now) }
    ensures unwritten { IfErr result (λ fault. LeavesUnwritten fault (W.contents out.old) (W.contents out.new)) }
    ensures begun { IfErr result (λ fault. fault ≡ Fault.CannotWrite → (files : FilesRead)
        × OfVerifiedReport asked.now.sources asked.now.report files asked.now.file.now
        (IsBegun (W.contents out.old) (W.contents out.new))) }
    ensures refused { refusals.new.any ≡ refused_by refusals.old.any result }
{
    let read = read_evidence(rt, asked, &mut FoldersAsked::none())?;
    let Evidence {
        certificates,
        input,
    } = read;
    let Input {
        files,
        outside,
        given,
        noted,
    } = input;
    let telling = telling_for(&asked.sources, asked.report, false, &files);
    let told = verified_report_of::<L>(rt.alloc(), given, outside, &certificates, telling)?;
    print(out, &told.report.text, refusals)?;
    let notes = Notes {
        read: &noted,
        not_given: &told.not_given,
        counts: told.report.counts,
    };
    note(rt.alloc(), &files, notes, err);
    Ok(Verified {
        status: Status::of_verdict(told.report.passes),
        files,
    })
}
