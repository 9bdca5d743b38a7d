//! Why a walk stopped.

ghost use Rattle.std.specs.Prelude.{◌≡◌};
ghost use Rattle.vlt_resolve_parts.specs.declared.stop.Stop.TheVariants as stop;

use std::alloc::AllocError;
use thiserror::Error;
use vlt_kinds_types::Refusal;

/// Why a walk stopped.
#[derive(Clone, Copy, Debug, PartialEq, Eq, Error)]
pub enum Stop {
    #[error("a rule on names and types is broken")]
    Refused(Refusal),
    #[error("there was no memory for the program")]
    Memory,
}

impl From<AllocError> for Stop {
    ghost from_gives = { λ _ e. e ≡ stop.Memory };

    fn from(_error: AllocError) -> Self {
        Stop::Memory
    }
}
