//! Why a text says no certificate.

ghost use Rattle.std.specs.Prelude.{◌≡◌};

use std::alloc::AllocError;
use thiserror::Error;

/// Why a text says no certificate.
#[derive(Clone, Copy, Debug, Error)]
pub enum ReadError {
    #[error("there was no memory")]
    Memory,
    /// It has no marks, or what stands between them is no JSON text.
    #[error("the certificate is no JSON text")]
    NotJson,
    /// The first row that isn't of its form. It is 0 where the text isn't plain, where it is no array of rows, and where
    /// the first of them names no version.
    #[error("row {0} of the certificate isn't of its form")]
    Form(usize),
}

impl From<AllocError> for ReadError {
    ghost use Rattle.cert_read.specs.declared.error.ReadError.TheVariants.{Memory};

    ghost from_gives = { λ _ e. e ≡ Memory };

    fn from(_: AllocError) -> ReadError {
        ReadError::Memory
    }
}
