//! Programs of certificates and of texts are programs of the code.

ghost use Rattle.cert_verify_laws.specs.CodePrograms.{CertificatesAreOfCode, TextsAreOfCode};

use vlt_resolve_laws::elaborated_programs_have_masks;

/// Each program that has a certificate is one of the code.
pub fn certificates_are_of_code()
    ensures { CertificatesAreOfCode }
{}

/// So is the program of each text.
pub fn texts_are_of_code()
    ensures { TextsAreOfCode }
{
    elaborated_programs_have_masks();
}
