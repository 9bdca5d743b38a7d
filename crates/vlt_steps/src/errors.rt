//! Why a machine isn't opened.

ghost use Rattle.std.specs.Prelude.{◌≡◌};
ghost use Rattle.vlt_steps.specs.declared.errors.OpenError.TheVariants.{Memory as NotOpened};

use std::alloc::{AllocError, AllocFailed};
use thiserror::Error;
use vlt_base::Memory;

/// Why a machine isn't opened.
#[derive(Clone, Copy, Debug, PartialEq, Eq, Error)]
pub enum OpenError {
    /// Its frames and objects could have more values than limit 13 allows.
    #[error("the budgets allow more values than a machine may have")]
    TooWide,
    /// There was no memory for it.
    #[error("there was no memory for the machine")]
    Memory,
}

impl From<AllocError> for OpenError {
    ghost from_gives = { λ _ error. error ≡ NotOpened };

    fn from(_: AllocError) -> OpenError {
        OpenError::Memory
    }
}

impl From<Memory> for OpenError {
    ghost from_gives = { λ _ error. error ≡ NotOpened };

    fn from(_: Memory) -> OpenError {
        OpenError::Memory
    }
}

impl<T: Drop> From<AllocFailed<T>> for OpenError {
    ghost from_gives = { λ _ error. error ≡ NotOpened };

    fn from(_: AllocFailed<T>) -> OpenError {
        OpenError::Memory
    }
}
