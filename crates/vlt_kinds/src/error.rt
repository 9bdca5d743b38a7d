//! Why the declarations of a tree are refused.

ghost use Rattle.std.specs.Prelude.{◌≡◌};
ghost use Rattle.vlt_kinds.specs.declared.error.KindError.TheVariants.{Memory};

use std::alloc::AllocError;
use thiserror::Error;

/// Why the declarations of a tree are refused.
#[derive(Clone, Copy, Debug, PartialEq, Eq, Error)]
pub enum KindError {
    /// A rule refuses here; the place is a byte of the source, counted from 0.
    #[error("rule {rule} refuses at byte {at}")]
    Rule { rule: u8, at: u32 },
    #[error("not enough memory")]
    Memory,
}

impl From<AllocError> for KindError {
    ghost from_gives = { λ _ e. e ≡ Memory };

    fn from(_error: AllocError) -> Self {
        KindError::Memory
    }
}
