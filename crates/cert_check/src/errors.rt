//! Why a test of an annotation ends early.

ghost use Rattle.std.specs.Prelude.{◌≡◌};
ghost use Rattle.cert_check.specs.declared.errors.Stop.TheVariants.{Memory};

use std::alloc::{AllocError, AllocFailed};
use thiserror::Error;
use vlt_core::{Status, Tok, Wanted};

/// The first test that an annotation fails: a token isn't as a row or a map wants it. Statements are counted from 0 in
/// their function.
#[derive(Clone, Copy, Debug)]
pub struct Refusal {
    pub statement: usize,
    pub tok: Tok,
    pub found: Status,
    pub wanted: Wanted,
}

/// Why a test of an annotation ends early.
#[derive(Clone, Copy, Debug, Error)]
pub enum Stop {
    #[error("a token isn't as it is wanted")]
    Refused(Refusal),
    /// A jump is in no loop; or the body or its notes are as no certificate has them.
    #[error("the annotation isn't one of the body's")]
    Unfit,
    #[error("out of memory")]
    Memory,
}

impl From<AllocError> for Stop {
    ghost from_gives = { λ _ e. e ≡ Memory };

    fn from(_: AllocError) -> Stop {
        Stop::Memory
    }
}

impl<T: Drop> From<AllocFailed<T>> for Stop {
    ghost from_gives = { λ _ e. e ≡ Memory };

    fn from(_: AllocFailed<T>) -> Stop {
        Stop::Memory
    }
}

impl From<vlt_base::Memory> for Stop {
    ghost from_gives = { λ _ e. e ≡ Memory };

    fn from(_: vlt_base::Memory) -> Stop {
        Stop::Memory
    }
}
