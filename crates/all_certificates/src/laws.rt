//! Laws of certificates: there is nothing to run.

ghost use Rattle.all_certificates.specs.OrderLaws.{CertificatesAreInOrder, CertificatesReadBack};

/// The certificates of packages whose trees are those of texts are in order: no path comes twice, the bodies of each
/// package rise by file and offset, and its facts are in order.
pub fn certificates_are_in_order()
    ensures { CertificatesAreInOrder }
{}

/// So the text that is written of them reads back as exactly these certificates: nothing is moved or left out.
pub fn certificates_read_back()
    ensures { CertificatesReadBack }
{
    certificate_json::certificates_in_order_are_written_as_they_stand()
}
