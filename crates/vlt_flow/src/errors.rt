//! Why a walk gives no maps.

ghost use Rattle.std.specs.Prelude.{◌≡◌};
ghost use Rattle.vlt_flow.specs.declared.errors.Stop.TheVariants.{Memory};
ghost use Rattle.vlt_flow.specs.declared.errors.NoteError.TheVariants as note;

use std::alloc::{AllocError, AllocFailed};
use thiserror::Error;
use vlt_rows::RowError;

/// Why a walk gives no maps.
#[derive(Clone, Copy, Debug, PartialEq, Eq, Error)]
pub enum Stop {
    /// A row or a join is refused.
    #[error("a row or a join is refused")]
    Refused,
    /// The body is unfit for a walk: something in it has no number, no place or no set of states.
    #[error("the body is unfit for a walk")]
    Unfit,
    #[error("there was no memory for the maps")]
    Memory,
}

/// Why there are no notes.
#[derive(Clone, Copy, Debug, PartialEq, Eq, Error)]
pub enum NoteError {
    /// A statement has no number, or a map of it no list.
    #[error("a statement has no note")]
    Unfit,
    #[error("there was no memory for the notes")]
    Memory,
}

impl From<AllocError> for NoteError {
    ghost from_gives = { λ _ e. e ≡ note.Memory };

    fn from(_: AllocError) -> NoteError {
        NoteError::Memory
    }
}

impl From<vlt_base::Memory> for NoteError {
    ghost from_gives = { λ _ e. e ≡ note.Memory };

    fn from(_: vlt_base::Memory) -> NoteError {
        NoteError::Memory
    }
}

impl From<NoteError> for Stop {
    ghost use Rattle.vlt_flow.specs.Walks.{stop_of_notes};

    ghost from_gives = { λ r e. e ≡ stop_of_notes r };

    fn from(error: NoteError) -> Stop {
        match error {
            NoteError::Unfit => Stop::Unfit,
            NoteError::Memory => Stop::Memory,
        }
    }
}

impl From<AllocError> for Stop {
    ghost from_gives = { λ _ e. e ≡ Memory };

    fn from(_: AllocError) -> Stop {
        Stop::Memory
    }
}

impl<T: Drop> From<AllocFailed<T>> for Stop {
    ghost from_gives = { λ _ e. e ≡ Memory };

    fn from(_: AllocFailed<T>) -> Stop {
        Stop::Memory
    }
}

impl From<vlt_base::Memory> for Stop {
    ghost from_gives = { λ _ e. e ≡ Memory };

    fn from(_: vlt_base::Memory) -> Stop {
        Stop::Memory
    }
}

impl From<RowError> for Stop {
    ghost use Rattle.vlt_flow.specs.Walks.{stop_of};

    ghost from_gives = { λ r e. e ≡ stop_of r };

    fn from(error: RowError) -> Stop {
        match error {
            RowError::Refused(_) => Stop::Refused,
            RowError::Unfit => Stop::Unfit,
            RowError::Memory => Stop::Memory,
        }
    }
}
