//! Certificates as JSON: the text of certificates, and the certificates of a text. What certificates say is in
//! `specs/Certificates.antt`, which values are those of certificates in `specs/CertificateValues.antt`, and which
//! texts, and why a text is none, in `specs/CertificateTexts.antt`; what is written of certificates in
//! `specs/WrittenCertificates.antt`.
#![tactic(auto)]

ghost use Rattle.certificate_json.specs.WrittenCertificates.{CertificatesInOrderAreWritten};

mod bodies;
mod certificates;
mod fault;
mod masks;
mod order;
mod packages;
mod read;
mod rows;
mod written;

pub use certificates::{Body, Certificates, Package};
pub use fault::CertificateFault;
pub use read::from_json;
pub use rows::Rows;
pub use written::to_json;

/// Certificates that are in order, and tell something of each function among their facts, are written as they stand.
pub fn certificates_in_order_are_written_as_they_stand()
    ensures { CertificatesInOrderAreWritten }
{}
