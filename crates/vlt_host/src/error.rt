ghost use Rattle.std.specs.Prelude.{◌≡◌};

use std::alloc::{AllocError, AllocFailed};
use thiserror::Error;

/// Why a calls file isn't read.
#[derive(Clone, Copy, Debug, PartialEq, Eq, Error)]
pub enum CallsError {
    /// The first line, counted from 1, that is no call.
    #[error("line {0} is no call")]
    Bad(u32),
    #[error("there was no memory")]
    Memory,
}

impl<T: Drop> From<AllocFailed<T>> for CallsError {
    ghost use Rattle.vlt_host.specs.declared.error.CallsError.{CallsError};

    ghost from_gives = { λ _ error. error ≡ CallsError.Memory };

    fn from(_: AllocFailed<T>) -> Self {
        CallsError::Memory
    }
}

impl From<AllocError> for CallsError {
    ghost use Rattle.vlt_host.specs.declared.error.CallsError.{CallsError};

    ghost from_gives = { λ _ error. error ≡ CallsError.Memory };

    fn from(_: AllocError) -> Self {
        CallsError::Memory
    }
}
