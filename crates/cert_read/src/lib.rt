//! The text of a certificate in; the program and the notes that it says out, or why it says none.
//! Read `specs/Certificates.antt` first, and before it of `cert_format` `specs/Certificate.antt` and `Readings`.
//! Used by: `cert_verify`.
#![tactic(auto)]

ghost use Rattle.cert_format.specs.Readings.{Reading, IsReading};
ghost use Rattle.cert_read.specs.Certificates.{IsReadAs, Is};

mod bounds;
mod cases;
mod declarations;
mod error;
mod read;
mod text;

pub use error::ReadError;
pub use read::Certificate;
use read::read_text;
use std::alloc::Global;

/// Reads the text of a certificate, from its first mark to its last one.
///
/// Each text is read as one of three things: a certificate, no JSON text, or one whose first row that isn't of its form
/// has this number.
pub fn from_text(alloc: Global, text: &[u8]) -> Result<Certificate, ReadError>
    ensures read { IsReadAs text.now result }
    ensures only { (x : Reading) → IsReading text.now x → Is result x }
{
    read_text(alloc, text)
}
