//! The tokens of C texts: bytes in, tokens with their places out.
//! Read `c_syntax/specs/Text.antt` (IsTokensOf) first.
//! Used by: `c_parser::read_unit`.
#![tactic(auto)]

ghost use Rattle.std.specs.Prelude.{◌<◌, ◌^◌, length, IfOk};
ghost use Rattle.c_syntax.specs.Text.{IsTokensOf};
ghost use Rattle.c_lexer.specs.View.{lexemes_of};

mod scan;
mod token;

pub use scan::before_mark;
use scan::{First, lexeme, others};
use std::alloc::Global;
pub use token::{Lexeme, Token};
use vlt_base::Memory;

/// The tokens of a C text without certificate.
pub fn lex(alloc: Global, text: &[u8]) -> Result<Vec<Lexeme<'_>>, Memory>
    requires { length text.now < 2 ^ 32 }
    ensures { IfOk result (λ lexemes. IsTokensOf text.now (lexemes_of lexemes.items)) }
{
    let mut lexemes = Vec::new(alloc);
    let mut left = text;
    for &first in &First::LINES {
        match first.take(left) {
            Some((token, after)) => {
                lexemes.push(lexeme(token, text, left))?;
                left = after;
            }
            None => return Ok(lexemes),
        }
    }
    others(text, left, &mut lexemes)?;
    Ok(lexemes)
}
