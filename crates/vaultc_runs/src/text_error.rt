//! Why bytes aren't read as a tree.

use thiserror::Error;
use vlt_lexer::LexError;
use vlt_parser::ParseError;

/// Why bytes aren't read as a tree.
#[derive(Clone, Copy, Debug, PartialEq, Eq, Error)]
pub enum TextError {
    #[error("the bytes aren't tokens")]
    Lex(LexError),
    #[error("the tokens aren't of the grammar")]
    Parse(ParseError),
}

impl From<LexError> for TextError {
    ghost use Rattle.std.specs.Prelude.{◌≡◌};
    ghost use Rattle.vaultc_runs.specs.declared.text_error.TextError.TheVariants.{Lex};

    ghost from_gives = { λ error e. e ≡ Lex error };

    fn from(error: LexError) -> TextError {
        TextError::Lex(error)
    }
}

impl From<ParseError> for TextError {
    ghost use Rattle.std.specs.Prelude.{◌≡◌};
    ghost use Rattle.vaultc_runs.specs.declared.text_error.TextError.TheVariants.{Parse};

    ghost from_gives = { λ error e. e ≡ Parse error };

    fn from(error: ParseError) -> TextError {
        TextError::Parse(error)
    }
}
