//! The certificates of a text.

ghost use Rattle.std.specs.Prelude.{◌≡◌, List, IfErr, IfOk};
ghost use Rattle.table_json.specs.declared.table.Version.{Version};
ghost use Rattle.certificate_json.specs.declared.fault.CertificateFault.TheVariants.{OutOfMemory};
ghost use Rattle.certificate_json.specs.Certificates.{packages_of, AreInOrder, PackageEntry};
ghost use Rattle.certificate_json.specs.CertificateTexts.{AreCertificatesOf, IsCertificateFault};

use crate::certificates::Certificates;
use crate::fault::CertificateFault;
use crate::packages::read_packages;
use std::alloc::Global;
use table_json::known_version;

/// The certificates of a text, and the version of the text. The packages stand as they do in the text, the bodies of
/// each by file and offset, and its facts as those of a table: functions by the bytes of their names, and the positions
/// of each as they rise. In the text the order of bodies, functions, positions and keys is free. There may be any
/// number of nodes, and of masks at each. A text of version 1 is read by the rules of that version, whose facts have no
/// causes. The text is gone over twice, first for its version.
///
/// # Errors
///
/// The text is no JSON; its version is missing or no whole number up to 4,294,967,295; it is another than 1 and 2; the
/// rest is not that of certificates of that version, as a key is missing or unknown, a value of another kind, an
/// offset, a file or a position above 4,294,967,295 or a mask above 65,535, or as a path, a body, a function or a
/// position comes twice; or memory was refused. This is the order in which it is looked for them. A text that is that
/// of certificates is refused for want of memory alone.
pub fn from_json(alloc: Global, text: &str) -> Result<Certificates, CertificateFault>
    ensures certificates { IfOk result (λ found. AreCertificatesOf text.now found.version (packages_of found)) }
    ensures in_order { IfOk result (λ found. AreInOrder (packages_of found)) }
    ensures no_other { IfOk result (λ found. (version : Version) (other : List PackageEntry)
        → AreCertificatesOf text.now version other
        → (version ≡ found.version) × (other ≡ packages_of found)) }
    ensures fault { IfErr result (IsCertificateFault text.now) }
    ensures only_memory { IfErr result (λ fault. (version : Version) (packages : List PackageEntry)
        → AreCertificatesOf text.now version packages
        → fault ≡ OutOfMemory) }
{
    let version = known_version(alloc, text)?;
    match read_packages(alloc, version, text)? {
        Some(packages) => Ok(Certificates { version, packages }),
        None => Err(CertificateFault::WrongShape),
    }
}
