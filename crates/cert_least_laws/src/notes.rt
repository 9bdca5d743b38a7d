//! Least certificates of programs.

ghost use Rattle.cert_least_laws.specs.Laws.{LeastCertificatesAreOne, LeastCertificatesAreLocal, LeastCertificatesAreComplete, LeastCertificatesHaveNoPlaces};

use cert_format_laws::places_dont_count;

/// A program has at most one least certificate.
pub fn least_certificates_are_one()
    ensures { LeastCertificatesAreOne }
{}

/// Its notes hold in each instance of each body.
pub fn least_certificates_are_local()
    ensures { LeastCertificatesAreLocal }
{}

/// They are complete, and fit the rows of a certificate.
pub fn least_certificates_are_complete()
    ensures { LeastCertificatesAreComplete }
{}

/// It is the same one without the program's places.
pub fn least_certificates_have_no_places()
    ensures { LeastCertificatesHaveNoPlaces }
{
    places_dont_count();
}
