//! The least certificates of texts' programs.

ghost use Rattle.cert_least_texts.specs.Texts.{AcceptedTextsHaveOne, ElaboratedProgramsVerify, LeastCertificatesVerify, LeastCertificatesAreReadBack};

use cert_fit_laws::limited_programs_fit;
use cert_format_laws::{certificates_are_written, places_dont_count, texts_have_one_reading};
use cert_least_laws::{
    accepted_programs_have_one, least_certificates_are_complete, least_certificates_are_local,
    least_certificates_have_no_places,
};
use cert_text_laws::texts_are_limited;
use vlt_resolve_laws::{
    elaborated_programs_are_kinded, elaborated_programs_have_arms,
    elaborated_programs_have_narrow_states, elaborated_programs_have_states,
};

/// It can't be that an accepted program of a text has no least certificate.
pub fn accepted_texts_have_one()
    ensures { AcceptedTextsHaveOne }
{
    texts_are_limited();
    elaborated_programs_are_kinded();
    elaborated_programs_have_arms();
    elaborated_programs_have_states();
    elaborated_programs_have_narrow_states();
    accepted_programs_have_one();
}

/// The least certificate of an elaborated program verifies.
pub fn elaborated_programs_verify()
    ensures { ElaboratedProgramsVerify }
{
    elaborated_programs_are_kinded();
    least_certificates_are_local();
    least_certificates_have_no_places();
    places_dont_count();
}

/// The least certificate of a text's program fits the format and verifies.
pub fn least_certificates_verify()
    ensures { LeastCertificatesVerify }
{
    texts_are_limited();
    elaborated_programs_are_kinded();
    elaborated_programs_verify();
    least_certificates_are_complete();
    limited_programs_fit();
}

/// What is written of it is read as this program, without its places, and these notes.
pub fn least_certificates_are_read_back()
    ensures { LeastCertificatesAreReadBack }
{
    least_certificates_verify();
    certificates_are_written();
    texts_have_one_reading();
}
