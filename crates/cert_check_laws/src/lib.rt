//! Laws on the notes of certificates: nothing goes in and nothing comes out.
//! Read `specs/Laws.antt`.
//! Used by: `cert_verify`, whose notes can be tested, and `cert_verify_laws`.
#![tactic(auto)]

ghost use Rattle.cert_check_laws.specs.Laws.{TextsHaveMoreBytes, CertificatesArentUnfit, CertificatesHaveAnAnswer};

/// A program has fewer statements than the text of its certificate has bytes.
pub fn texts_have_more_bytes()
    ensures { TextsHaveMoreBytes }
{}

/// The notes of a certificate aren't unfit to be tested, where its program breaks no rule on names and types and there are
/// fewer than 2^62 statements.
pub fn certificates_arent_unfit()
    ensures { CertificatesArentUnfit }
{}

/// It can't be that neither such notes hold nor a test of them refuses first.
pub fn certificates_have_an_answer()
    ensures { CertificatesHaveAnAnswer }
{}
