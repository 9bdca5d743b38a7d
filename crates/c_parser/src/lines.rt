//! The two first lines.

ghost use Rattle.std.specs.Prelude.{◌≡◌, ◌+◌, ◌≤◌, [], ◌∷◌, pos, length, IfOk};
ghost use Rattle.c_syntax.specs.Tokens as t;
ghost use Rattle.c_lexer.specs.View.{tokens_from};
ghost use Rattle.c_parser.specs.Parsing.{Reads};
ghost use Rattle.c_automaton.specs.Automaton as machine;
ghost use Rattle.c_parser.specs.Following.{Turns};

use crate::cursor::{natural, refuse, token};
use crate::error::ParseError;
use c_lexer::{Lexeme, Token};

/// The end of a line.
fn line_end(lexemes: &[Lexeme<'_>], at: usize) -> Result<(), ParseError>
    ensures reads { IfOk result (λ end. Reads lexemes.now at (at + 1)
        (λ rest. t.line_end ∷ rest)) }
    ensures follows { Turns (machine.line_end ∷ []) [] (λ end. at + 1) lexemes.now at result }
{
    match token(lexemes, at) {
        Some(Token::LineEnd) => Ok(()),
        _ => Err(refuse(lexemes, at)),
    }
}

/// The first line.
fn include_line(lexemes: &[Lexeme<'_>]) -> Result<(), ParseError>
    ensures reads { IfOk result (λ end. Reads lexemes.now 0 2
        (λ rest. t.include ∷ t.line_end ∷ rest)) }
    ensures follows { Turns (machine.include ∷ machine.line_end ∷ []) [] (λ end. 2)
        lexemes.now 0 result }
{
    match token(lexemes, 0) {
        Some(Token::Include) => line_end(lexemes, 1),
        _ => Err(refuse(lexemes, 0)),
    }
}

/// The number in the second line, with what stands before it.
fn definition(lexemes: &[Lexeme<'_>]) -> Result<u64, ParseError>
    ensures reads { IfOk result (λ main. Reads lexemes.now 2 4
        (λ rest. t.define ∷ t.number (pos main) ∷ rest)) }
    ensures follows { Turns (machine.define ∷ machine.natural ∷ []) [] (λ main. 4)
        lexemes.now 2 result }
{
    match token(lexemes, 2) {
        Some(Token::Define) => natural(lexemes, 3),
        _ => Err(refuse(lexemes, 2)),
    }
}

/// The second line.
fn define_line(lexemes: &[Lexeme<'_>]) -> Result<u64, ParseError>
    ensures reads { IfOk result (λ main. Reads lexemes.now 2 5
        (λ rest. t.define ∷ t.number (pos main) ∷ t.line_end ∷ rest)) }
    ensures follows { Turns (machine.define ∷ machine.natural ∷ machine.line_end ∷ []) []
        (λ main. 5) lexemes.now 2 result }
{
    let main = definition(lexemes)?;
    line_end(lexemes, 4)?;
    Ok(main)
}

/// The number in the second line.
pub fn first_lines(lexemes: &[Lexeme<'_>]) -> Result<u64, ParseError>
    ensures reads { IfOk result (λ main. tokens_from lexemes.now 0 ≡ t.include ∷ t.line_end
        ∷ t.define ∷ t.number (pos main) ∷ t.line_end ∷ tokens_from lexemes.now 5) }
    ensures within { IfOk result (λ main. 5 ≤ length lexemes.now) }
    ensures follows { Turns (machine.include ∷ machine.line_end ∷ machine.define
        ∷ machine.natural ∷ machine.line_end ∷ []) [] (λ main. 5) lexemes.now 0 result }
{
    include_line(lexemes)?;
    define_line(lexemes)
}
