//! Why there is no certificate of a program.

ghost use Rattle.std.specs.Prelude.{◌≡◌};
ghost use Rattle.cert_emit.specs.Causes.{error_of_stop, error_of_text};
ghost use Rattle.cert_emit.specs.declared.errors.CertificateError.TheVariants.{Memory};

use cert_write::Unwritten;
use std::alloc::{AllocError, AllocFailed};
use thiserror::Error;
use vlt_flow::Stop;

/// Why there is no certificate of a program.
#[derive(Clone, Copy, Debug, PartialEq, Eq, Error)]
pub enum CertificateError {
    /// No annotation holds in the body of some function.
    #[error("no annotation holds in a function")]
    Refused,
    /// The body of some function has no notes: something in it has no number, no place, no set of states or no map.
    #[error("a function has no notes")]
    Unfit,
    /// A name isn't UTF-8, so no text has it.
    #[error("a name isn't UTF-8")]
    Name,
    #[error("there was no memory for the certificate")]
    Memory,
}

impl From<AllocError> for CertificateError {
    ghost from_gives = { λ _ e. e ≡ Memory };

    fn from(_: AllocError) -> CertificateError {
        CertificateError::Memory
    }
}

impl<T: Drop> From<AllocFailed<T>> for CertificateError {
    ghost from_gives = { λ _ e. e ≡ Memory };

    fn from(_: AllocFailed<T>) -> CertificateError {
        CertificateError::Memory
    }
}

impl From<Stop> for CertificateError {
    ghost from_gives = { λ s e. e ≡ error_of_stop s };

    fn from(stop: Stop) -> CertificateError {
        match stop {
            Stop::Refused => CertificateError::Refused,
            Stop::Unfit => CertificateError::Unfit,
            Stop::Memory => CertificateError::Memory,
        }
    }
}

impl From<Unwritten> for CertificateError {
    ghost from_gives = { λ u e. e ≡ error_of_text u };

    fn from(error: Unwritten) -> CertificateError {
        match error {
            Unwritten::Name => CertificateError::Name,
            Unwritten::Memory => CertificateError::Memory,
        }
    }
}
