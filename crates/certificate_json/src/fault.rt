//! Why a text is not read.

use json_reading::Stop;
use table_json::TableFault;

/// Why a text is not read as certificates. The first reason that holds is told, in this order.
#[derive(Clone, Copy, Debug, Drop, PartialEq, Eq)]
pub enum CertificateFault {
    /// The text is no JSON, or it nests deeper than 127.
    NotJson,
    /// Its version is a whole number other than 1 and 2.
    WrongVersion,
    /// The version is missing or no whole number, or it is 1 or 2 and the rest is not that of certificates of that
    /// version.
    WrongShape,
    /// Memory was refused.
    OutOfMemory,
}

/// The same fault, of certificates.
impl From<TableFault> for CertificateFault {
    ghost use Rattle.std.specs.Prelude.{◌≡◌};
    ghost use Rattle.certificate_json.specs.Parts.{fault_of};

    ghost from_gives = { λ fault same. same ≡ fault_of fault };

    fn from(fault: TableFault) -> CertificateFault {
        match fault {
            TableFault::NotJson => CertificateFault::NotJson,
            TableFault::WrongVersion => CertificateFault::WrongVersion,
            TableFault::WrongShape => CertificateFault::WrongShape,
            TableFault::OutOfMemory => CertificateFault::OutOfMemory,
        }
    }
}

/// The same fault, of certificates.
impl From<Stop> for CertificateFault {
    ghost use Rattle.std.specs.Prelude.{◌≡◌};
    ghost use Rattle.certificate_json.specs.Parts.{fault_of_stop};

    ghost from_gives = { λ stop fault. fault ≡ fault_of_stop stop };

    fn from(stop: Stop) -> CertificateFault {
        match stop {
            Stop::NotJson => CertificateFault::NotJson,
            Stop::OutOfMemory => CertificateFault::OutOfMemory,
        }
    }
}
