//! The certificates that are read from a file.

ghost use Rattle.std.specs.Prelude.{◌≡◌, IfErr, IfOk};
ghost use Rattle.inputs.specs.Certificates.{fault_of_certificates, AreTextOf, IsBytesFault, IsInputFault, StandIn};

use certificate_json::{CertificateFault, Certificates, from_json};
use folders::{Fault, read_file};
use std::alloc::Global;
use std::rt::Files;

/// The certificates in the file of this name.
///
/// # Errors
///
/// The file can't be read, its bytes are no certificates, or memory was refused.
pub fn read_certificates<R: Files + AllocGlobal>(rt: &R, name: &str) -> Result<Certificates, Fault>
    ensures read { IfOk result (StandIn name.now) }
    ensures fault { IfErr result (IsInputFault name.now) }
{
    let file = read_file(rt, name)?;
    certificates_of(rt.alloc(), file.bytes())
}

/// The certificates whose text these bytes are.
fn certificates_of(alloc: Global, bytes: &[u8]) -> Result<Certificates, Fault>
    ensures read { IfOk result (AreTextOf bytes.now) }
    ensures fault { IfErr result (IsBytesFault bytes.now) }
{
    match str::from_utf8(bytes) {
        Ok(text) => match from_json(alloc, text) {
            Ok(certificates) => Ok(certificates),
            Err(fault) => Err(fault_of_certificates(fault)),
        },
        Err(_) => Err(Fault::CertificateNotJson),
    }
}

/// Why a text is none of certificates, as the program tells it.
fn fault_of_certificates(fault: CertificateFault) -> Fault
    ensures { result ≡ fault_of_certificates fault }
{
    match fault {
        CertificateFault::NotJson => Fault::CertificateNotJson,
        CertificateFault::WrongShape => Fault::CertificateWrongShape,
        CertificateFault::WrongVersion => Fault::CertificateWrongVersion,
        CertificateFault::OutOfMemory => Fault::OutOfMemory,
    }
}
