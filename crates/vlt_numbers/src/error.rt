ghost use Rattle.std.specs.Prelude.{◌≡◌};

use std::alloc::AllocFailed;
use thiserror::Error;

/// Why a file of numbers is not read.
#[derive(Clone, Copy, Debug, PartialEq, Eq, Error)]
pub enum NumbersError {
    /// The first line, counted from 1, with a word that is no number of 64 bits.
    #[error("line {0} has something else than numbers of 64 bits")]
    Bad(u32),
    #[error("there was no memory")]
    Memory,
}

impl<T: Drop> From<AllocFailed<T>> for NumbersError {
    ghost use Rattle.vlt_numbers.specs.declared.error.NumbersError.{NumbersError};

    ghost from_gives = { λ _ error. error ≡ NumbersError.Memory };

    fn from(_: AllocFailed<T>) -> Self {
        NumbersError::Memory
    }
}
