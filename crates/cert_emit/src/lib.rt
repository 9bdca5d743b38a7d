//! An accepted program in, the text of its certificate out, with the least annotation of each body.
//! Read `specs/Certificates.antt` first, then `Causes`.
//! Used by: `vaultc_core`, for `emit`.
#![tactic(auto)]

ghost use Rattle.std.specs.Prelude.{IfOk};
ghost use Rattle.vlt_core.specs.View.{program_of};
ghost use Rattle.cert_values.specs.Declarations.Names.{HasTextNames};
ghost use Rattle.cert_text_laws.specs.Texts.{IsProgramOfTexts};
ghost use Rattle.cert_emit.specs.Causes.{IfError, HasRefused, HasUnfit};
ghost use Rattle.cert_emit.specs.Certificates.{IsLeastText};
ghost use Rattle.cert_emit.specs.declared.errors.CertificateError.TheVariants.{Refused, Unfit, Name};

mod annotating;
mod errors;

use annotating::annotations;
use cert_least_texts::annotations_are_least;
use cert_write::to_text;
pub use errors::CertificateError;
use std::alloc::Global;
use vlt_core::Program;

/// The text of the certificate of the program of texts, from its mark to the closing one, with the notes of the least annotation
/// of each body. `Refused` where no annotation holds in some body, so of no accepted program; `Unfit` where some body has
/// no notes; `Name` where a name isn't UTF-8.
pub fn certificate_text(alloc: Global, p: &Program) -> Result<Vec<u8>, CertificateError>
    ensures text { IfOk result (λ text.
        IsProgramOfTexts (program_of p.now) → IsLeastText (program_of p.now) text.items) }
    ensures refused { IfError Refused result (HasRefused (program_of p.now)) }
    ensures unfit { IfError Unfit result (HasUnfit (program_of p.now)) }
    ensures name { IfError Name result (HasTextNames (program_of p.now) → ⊥) }
{
    annotations_are_least();
    let all = annotations(alloc, p)?;
    Ok(to_text(alloc, p, all.as_slice())?)
}
