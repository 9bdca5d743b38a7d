//! Laws on certificates: nothing goes in and nothing comes out.
//! Read `specs/Readings.antt` first, then `Texts`, `Versions`, `Bodies` and `Places`.
//! Used by: `cert_write`, `cert_read` and `cert_fit_laws`.
#![tactic(auto)]

ghost use Rattle.vlt_core.specs.Core.{Program};
ghost use Rattle.cert_format_laws.specs.Bodies.{BodiesAreReadBack, RowsSayOneThing};
ghost use Rattle.cert_format_laws.specs.Places.{PlacesDontCount};
ghost use Rattle.cert_format_laws.specs.Readings.{HasOneReading, HasSomeReading};
ghost use Rattle.cert_format_laws.specs.Texts.{CertificatesAreWritten};
ghost use Rattle.cert_format_laws.specs.Versions.{HasWrittenVersion};

/// No text has two readings: two certificates, a certificate and a refusal, or two refusals.
pub fn texts_have_one_reading()
    ensures { HasOneReading }
{}

/// Each text has a reading.
pub fn texts_have_some_reading()
    ensures { HasSomeReading }
{}

/// What is written for a program that has a certificate is, between the marks, that certificate.
pub fn certificates_are_written()
    ensures { CertificatesAreWritten }
{}

/// A program that has a certificate of version 2 has one of version 1 too, where no set has links and no entry is
/// bound.
pub fn programs_have_a_written_version()
    ensures { HasWrittenVersion }
{}

/// Rows say one list of statements, as far as they go.
pub fn rows_say_one_thing()
    ensures { RowsSayOneThing }
{}

/// The rows of a body with its maps say that body, without its places, and those maps.
pub fn bodies_are_read_back()
    ensures { BodiesAreReadBack }
{}

/// Without its places a program breaks the same rules at the same rows, the same annotations hold in its bodies, and
/// its C program is the same.
pub fn places_dont_count()
    ensures { (p : Program) → PlacesDontCount p }
{}
