//! Why a text stands for no program.

ghost use Rattle.std.specs.Prelude.{◌≡◌};

use c_parser::ParseError;
use std::alloc::{AllocError, AllocFailed};
use thiserror::Error;
use vlt_base::Memory as NoMemory;

/// Why a text stands for no program. A place is the number of bytes before it.
#[derive(Clone, Copy, Debug, PartialEq, Eq, Error)]
pub enum CError {
    /// The first token, or what is none, after which no program goes on.
    #[error("no program goes on with this token")]
    Unexpected(u32),
    /// Every token is that of a program, and the text ends before one does.
    #[error("the text ends too soon")]
    EndOfText,
    /// A text of the grammar breaks a rule on its names and types: the least place, and there the least number.
    #[error("a rule on names and types is broken")]
    Kind { rule: u8, at: u32 },
    /// The limit that each program exceeds which goes on with the text so far: 14 or 15.
    #[error("there is more than a limit allows")]
    Limit(u8),
    #[error("there is no memory for the program")]
    Memory,
}

impl From<ParseError> for CError {
    ghost use Rattle.c_reader.specs.Reads.{of_grammar};

    ghost from_gives = { λ error e. e ≡ of_grammar error };

    fn from(error: ParseError) -> CError {
        match error {
            ParseError::Unexpected(at) => CError::Unexpected(at),
            ParseError::EndOfText => CError::EndOfText,
            ParseError::Limit(number) => CError::Limit(number),
            ParseError::Memory => CError::Memory,
        }
    }
}

impl From<AllocError> for CError {
    ghost use Rattle.c_reader.specs.declared.error.CError.TheVariants.{Memory};

    ghost from_gives = { λ _ e. e ≡ Memory };

    fn from(_: AllocError) -> CError {
        CError::Memory
    }
}

impl<T: Drop> From<AllocFailed<T>> for CError {
    ghost use Rattle.c_reader.specs.declared.error.CError.TheVariants.{Memory};

    ghost from_gives = { λ _ e. e ≡ Memory };

    fn from(_: AllocFailed<T>) -> CError {
        CError::Memory
    }
}

impl From<NoMemory> for CError {
    ghost use Rattle.c_reader.specs.declared.error.CError.TheVariants.{Memory};

    ghost from_gives = { λ _ e. e ≡ Memory };

    fn from(_: NoMemory) -> CError {
        CError::Memory
    }
}
