//! Why there is no C program.

ghost use Rattle.std.specs.Prelude.{◌≡◌};

use thiserror::Error;
use vlt_base::Memory as NoMemory;

/// Why there is no C program for a core program.
#[derive(Clone, Copy, Debug, PartialEq, Eq, Error)]
pub enum LowerError {
    /// The text of the C program would be longer than limit 2 allows.
    #[error("the C program is too long")]
    Limit,
    /// An external gives a variant of so many cases that no number of C is their mask.
    #[error("an external gives a variant of more than 63 cases")]
    Cases,
    #[error("there is no memory for the C program")]
    Memory,
}

impl From<NoMemory> for LowerError {
    ghost use Rattle.c_lower_program.specs.declared.error.LowerError.TheVariants.{Memory};

    ghost from_gives = { λ _ e. e ≡ Memory };

    fn from(_: NoMemory) -> LowerError {
        LowerError::Memory
    }
}
