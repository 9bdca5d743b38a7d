//! A C text in; its program with the span of its certificate, or why it stands for none, out.
//! Read `specs/Reads.antt` (IsReadAs) first, then `c_syntax/specs/Reading.antt`.
//! Used by: what runs a C text, or verifies its certificate.
#![tactic(auto)]

ghost use Rattle.std.specs.Prelude.{◌≡◌, ◌<◌, ◌-◌, ◌^◌, length};
ghost use Rattle.c_syntax.specs.Reading.{cert_of};
ghost use Rattle.c_reader.specs.Reads.{IsReadAs, RefusalsAreInTheText};

mod error;
mod program;

use c_kinds::least_refusal;
use c_parser::{Written, before_mark, read_unit};
use c_syntax::CProgram;
pub use error::CError;
use program::program;
use std::alloc::Global;
use vlt_base::Span;

/// A C text that is read.
#[derive(Drop)]
pub struct CFile {
    pub program: CProgram,
    /// From the first mark of a certificate to the end of the text.
    pub cert: Option<Span>,
}

/// Where the certificate stands.
fn cert(text: &[u8]) -> Option<Span>
    requires size { length text.now < 2 ^ 32 - 1 }
    ensures { result ≡ cert_of text.now }
{
    let from = before_mark(text).len();
    if from < text.len() {
        Some(Span {
            from: from as u32,
            to: text.len() as u32,
        })
    } else {
        None
    }
}

/// Reads a C text.
pub fn read_c(alloc: Global, text: &[u8]) -> Result<CFile, CError>
    requires size { length text.now < 2 ^ 32 - 1 }
    ensures { IsReadAs text.now result }
{
    let written = read_unit(alloc, text)?;
    if let Some(refusal) = least_refusal(alloc, &written)? {
        return Err(CError::Kind {
            rule: refusal.rule,
            at: refusal.at,
        });
    }
    let Written { lexemes, unit } = written;
    drop(lexemes);
    Ok(CFile {
        program: program(alloc, unit)?,
        cert: cert(text),
    })
}

/// What is told of a text that stands for no program lies in the text, or at its end.
pub fn refusals_are_in_the_text()
    ensures { RefusalsAreInTheText }
{}
