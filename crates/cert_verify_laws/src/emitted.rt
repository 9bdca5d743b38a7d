//! What is emitted of a text's program verifies.

ghost use Rattle.cert_verify_laws.specs.Emitted.{LeastCertificatesFit, EmittedFilesVerify, PlacesKeepCounts};

use crate::codes::texts_are_of_code;
use c_lower_printed::accepted_texts_are_read_again;
use cert_format_laws::certificates_are_written;
use cert_least_texts::least_certificates_verify;
use cert_text_laws::texts_have_text_names;
use cert_write::{compact_texts_are_read_back, names_stay_without_places};

/// The least certificate of each text's program fits the format and verifies.
pub fn least_certificates_fit()
    ensures { LeastCertificatesFit }
{
    texts_are_of_code();
    least_certificates_verify();
}

/// The C text of an accepted text's program, with its least certificate after it, verifies with the program without its places.
pub fn emitted_files_verify()
    ensures { EmittedFilesVerify }
{
    least_certificates_fit();
    texts_have_text_names();
    names_stay_without_places();
    compact_texts_are_read_back();
    certificates_are_written();
    accepted_texts_are_read_again();
}

/// That program has as many functions with a body.
pub fn places_keep_counts()
    ensures { PlacesKeepCounts }
{}
