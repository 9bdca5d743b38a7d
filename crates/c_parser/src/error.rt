//! Why a text isn't of the grammar.

ghost use Rattle.std.specs.Prelude.{◌≡◌};

use std::alloc::{AllocError, AllocFailed};
use thiserror::Error;
use vlt_base::Memory as NoMemory;

/// Why a text isn't of the grammar, within its limits. A place is the number of bytes before it.
#[derive(Clone, Copy, Debug, PartialEq, Eq, Error)]
pub enum ParseError {
    /// The first token, or what is none, after which no program goes on.
    #[error("no program goes on with this token")]
    Unexpected(u32),
    /// Every token is that of a program, and the text ends before one does.
    #[error("the text ends too soon")]
    EndOfText,
    /// The limit that each program exceeds which goes on with the text so far: 14 or 15.
    #[error("there is more than a limit allows")]
    Limit(u8),
    #[error("there is no memory for the program")]
    Memory,
}

impl From<AllocError> for ParseError {
    ghost use Rattle.c_parser.specs.declared.error.ParseError.TheVariants.{Memory};

    ghost from_gives = { λ _ e. e ≡ Memory };

    fn from(_: AllocError) -> ParseError {
        ParseError::Memory
    }
}

impl<T: Drop> From<AllocFailed<T>> for ParseError {
    ghost use Rattle.c_parser.specs.declared.error.ParseError.TheVariants.{Memory};

    ghost from_gives = { λ _ e. e ≡ Memory };

    fn from(_: AllocFailed<T>) -> ParseError {
        ParseError::Memory
    }
}

impl From<NoMemory> for ParseError {
    ghost use Rattle.c_parser.specs.declared.error.ParseError.TheVariants.{Memory};

    ghost from_gives = { λ _ e. e ≡ Memory };

    fn from(_: NoMemory) -> ParseError {
        ParseError::Memory
    }
}
