//! A check that writes certificates.

ghost use Rattle.std.specs.Prelude.{◌≡◌, ℕ, List, Bool, IfErr, IfOk};
ghost use Rattle.inputs.specs.declared.input.FilesRead.{FilesRead};
ghost use Rattle.driver.specs.Faults.{IsCertifyFault, LeavesUnwritten};
ghost use Rattle.printed.specs.Printing.{refused_by};
ghost use Rattle.printed.specs.Statuses.{status_of};
ghost use Rattle.driver.specs.WrittenReport.{IsBegun, IsWritten, OfCertifiedReport};
ghost use Rattle.folders.specs.declared.whole_files.Reach.TheVariants.{Disk};
ghost use Rattle.folders.specs.WrittenFiles.{name_of, reach_of, text_of};
ghost use Rattle.workers.specs.Counts.{count_of};

use crate::notes::{Notes, note};
use crate::reports::certified_report_by_workers;
use command_line::CertifyWords;
use folders::{Fault, Surroundings, UnwrittenFile, WrittenFile, write_file};
use inputs::{FilesRead, Input, read_sources, telling_for};
use judge::{CertifiedReport, Settings};
use load::Leave;
use printed::{Refusals, Status, print};
use std::io::Write;
use std::rt::Files;
use std::sync::Wait;
use std::thread::Threads;

/// How a check ended that wrote certificates, the files that were read for it beside those of packages, and the file
/// that the certificates were written to.
#[derive(Debug, Drop)]
pub struct Certified<'a> {
    pub status: Status,
    pub files: FilesRead<'a>,
    pub file: WrittenFile<'a>,
}

/// Checks the packages of these words, prints their report, and then writes their certificates to the file. The notes
/// stand after the report.
pub fn certify<
    'a,
    R: Files + Surroundings + AllocGlobal + Threads + Wait + Sync,
    W: Write,
    E: Write,
    L: Leave,
>(
    rt: &R,
    asked: &CertifyWords<'a>,
    out: &mut W,
    err: &mut E,
    refusals: &mut Refusals,
) -> Result<Certified<'a>, Fault>
    ensures written { IfOk result (λ done. (yes : Bool) × (done.status ≡ status_of yes)
        × OfCertifiedReport asked.now.sources asked.now.report done.files
        (text_of done.file) (IsWritten (W.contents out.old) (W.contents out.new) yes)) }
    ensures file { IfOk result (λ done. name_of done.file ≡ asked.now.file.now) }
    ensures reach { IfOk result (λ done. reach_of done.file ≡ Disk) }
    ensures fault { IfErr result
        (IsCertifyFault asked.now.sources asked.now.file.now (count_of asked.now.workers)) }
    ensures unwritten { IfErr result (λ fault. LeavesUnwritten fault (W.contents out.old) (W.contents out.new)) }
    ensures begun { IfErr result (λ fault. fault ≡ Fault.CannotWrite
        → (files : FilesRead) × (text : List ℕ)
        × OfCertifiedReport asked.now.sources asked.now.report files text
        (IsBegun (W.contents out.old) (W.contents out.new))) }
    ensures whole { IfErr result (λ fault. (name : _) → fault ≡ Fault.CannotWriteFile name
        → (yes : Bool) × (files : FilesRead) × (text : List ℕ)
        × OfCertifiedReport asked.now.sources asked.now.report files text
        (IsWritten (W.contents out.old) (W.contents out.new) yes)) }
    ensures refused { refusals.new.any ≡ refused_by refusals.old.any result }
{
    let input = read_sources(rt, &asked.sources)?;
    let file = UnwrittenFile::named(rt.alloc(), asked.file)?;
    let Input {
        files,
        outside,
        given,
        noted,
    } = input;
    let settings = Settings {
        workers: asked.workers,
        telling: telling_for(&asked.sources, asked.report, true, &files),
    };
    let told = certified_report_by_workers::<R, L>(rt, given, outside, settings)?;
    print(out, &told.report.text, refusals)?;
    let notes = Notes {
        read: &noted,
        not_given: &told.not_given,
        counts: told.report.counts,
    };
    note(rt.alloc(), &files, notes, err);
    let status = Status::of_verdict(told.report.passes);
    let file = write_file(rt, file, told.certificates)?;
    Ok(Certified {
        status,
        files,
        file,
    })
}
