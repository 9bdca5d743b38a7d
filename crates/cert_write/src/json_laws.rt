//! Laws on the compact text of a certificate: nothing goes in and nothing comes out.
//! Read `specs/JsonLaws/Compact.antt`.
//! Used by: `cert_text_laws::json_names`, and `cert_verify_laws`, by which what `emit` writes is read back.

ghost use Rattle.cert_write.specs.JsonLaws.Compact.{CompactTextsAreReadBack, CompactTextsAreCertificates, NamesStayWithoutPlaces};

/// The text without blanks of a certificate's value is UTF-8 and is read as that value, so between the marks it is the
/// certificate; where each name of the program is UTF-8.
pub fn compact_texts_are_read_back()
    ensures read_back { CompactTextsAreReadBack }
    ensures certificate { CompactTextsAreCertificates }
{}

/// Names that are UTF-8 are so without places.
pub fn names_stay_without_places()
    ensures { NamesStayWithoutPlaces }
{}
