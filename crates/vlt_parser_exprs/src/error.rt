//! Why a list of tokens is no tree.

use std::alloc::{AllocError, AllocFailed};
use thiserror::Error;

/// Why tokens aren't read.
#[derive(Clone, Copy, Debug, PartialEq, Eq, Error)]
pub enum ParseError {
    /// No tree goes on with the token whose first byte this is.
    #[error("no text goes on with this token")]
    Unexpected(u32),
    /// Some tree goes on after the last token.
    #[error("the text ends too soon")]
    EndOfText,
    /// There is more of something than the limit of this number allows.
    #[error("there is more than a limit allows")]
    Limit(u8),
    /// There was no memory for the tree.
    #[error("there is no memory for the tree")]
    Memory,
}

impl From<AllocError> for ParseError {
    ghost use Rattle.std.specs.Prelude.{◌≡◌};
    ghost use Rattle.vlt_parser_exprs.specs.declared.error.ParseError.TheVariants.{Memory};

    ghost from_gives = { λ _ e. e ≡ Memory };

    fn from(_: AllocError) -> ParseError {
        ParseError::Memory
    }
}

impl<T: Drop> From<AllocFailed<T>> for ParseError {
    ghost use Rattle.std.specs.Prelude.{◌≡◌};
    ghost use Rattle.vlt_parser_exprs.specs.declared.error.ParseError.TheVariants.{Memory};

    ghost from_gives = { λ _ e. e ≡ Memory };

    fn from(_: AllocFailed<T>) -> ParseError {
        ParseError::Memory
    }
}
