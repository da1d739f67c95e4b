//! What is read for a judgement by certificates.

ghost use Rattle.std.specs.Prelude.{◌≡◌, true, IfErr, IfOk};
ghost use Rattle.inputs.specs.Certificates.{StandIn};
ghost use Rattle.inputs.specs.Packages.{AreReadFor};
ghost use Rattle.inputs.specs.ReadingFaults.{is_of_bytes, IsReadingFault};

use crate::certificate_input::read_certificates;
use crate::input::{Input, read_input};
use crate::packages::{FoldersAsked, all_named};
use certificate_json::Certificates;
use command_line::VerifyWords;
use folders::{Fault, Surroundings};
use std::rt::Files;

/// What is read for a verification: the certificates, and what is read for any report.
#[derive(Drop)]
pub struct Evidence<'a> {
    pub certificates: Certificates,
    pub input: Input<'a>,
}

/// Reads the file of certificates, and after it what is read for any report.
///
/// # Errors
///
/// The first word of a package that names none; the file can't be read, or its bytes are no certificates; after that,
/// as `read_input`.
pub fn read_evidence<'a, R: Files + Surroundings + AllocGlobal>(
    rt: &R,
    asked: &VerifyWords<'a>,
    folders: &mut FoldersAsked,
) -> Result<Evidence<'a>, Fault>
    ensures certificates { IfOk result (λ read. StandIn asked.now.file.now read.certificates) }
    ensures read { IfOk result (λ read.
        AreReadFor asked.now.sources read.input.files read.input.outside read.input.given.items) }
    ensures fault { IfErr result (IsReadingFault asked.now.sources asked.now.file.now) }
    ensures order { IfErr result (λ fault. is_of_bytes fault ≡ true → folders.new.any ≡ folders.old.any) }
{
    let packages = all_named(rt.alloc(), &asked.sources.packages)?;
    let certificates = read_certificates(rt, asked.file)?;
    let input = read_input(rt, &packages, &asked.sources, folders)?;
    Ok(Evidence {
        certificates,
        input,
    })
}
