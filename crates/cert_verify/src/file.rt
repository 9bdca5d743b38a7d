//! A C file: its C program, and the program and the notes of its certificate.

ghost use Rattle.std.specs.Prelude.{◌≡◌, ◌<◌, ◌≤◌, ◌-◌, ◌^◌, drop, length};
ghost use Rattle.cert_verify.specs.Parts.{IsOpened};

use crate::error::VerifyError;
use c_reader::{CFile, read_c};
use c_syntax::CProgram;
use cert_read::from_text;
use cert_read_bodies::MapsNote;
use std::alloc::Global;
use vlt_base::Items;
use vlt_core::Program;

/// The C program of a file, and what its certificate says.
#[derive(Drop)]
pub struct CertifiedFile {
    pub c_program: CProgram,
    pub program: Program,
    pub notes: Items<Items<MapsNote>>,
}

/// A text from a position on.
fn text_from(text: &[u8], from: u32) -> &[u8]
    requires { from ≤ length text.now }
    ensures { result.now ≡ drop from text.now }
{
    &text[from as usize..]
}

/// Reads a C text and its certificate.
pub fn certified_file(alloc: Global, text: &[u8]) -> Result<CertifiedFile, VerifyError>
    requires { length text.now < 2 ^ 32 - 1 }
    ensures { IsOpened text.now result }
{
    let file = read_c(alloc, text)?;
    let Some(span) = file.cert else {
        return Err(VerifyError::Certificate);
    };
    let certificate = from_text(alloc, text_from(text, span.from))?;
    Ok(CertifiedFile {
        c_program: file.program,
        program: certificate.program,
        notes: certificate.notes,
    })
}
