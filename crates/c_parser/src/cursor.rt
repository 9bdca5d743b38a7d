//! One token at a time.

ghost use Rattle.std.specs.Prelude.{◌≡◌, ◌∷◌, [], ◌+◌, ◌≤◌, pos, Some, MatchOption, IfOk, IsTrue};
ghost use Rattle.c_syntax.specs.Tokens as t;
ghost use Rattle.c_lexer.specs.View.{token_of, tokens_from};
ghost use Rattle.c_parser.specs.Parsing.{Reads};
ghost use Rattle.c_automaton.specs.Automaton as machine;
ghost use Rattle.c_parser.specs.Following.{ahead, told_of, Comes, Turns};
ghost use Rattle.c_automaton.specs.Ahead.{begins_sign, begins_word, refusal_at};

use crate::error::ParseError;
use c_lexer::{Lexeme, Token};
use c_syntax::{CSign, CWord};

/// The token at a position.
pub fn token<'a>(lexemes: &[Lexeme<'a>], at: usize) -> Option<Token<'a>>
    ensures reads { MatchOption result (tokens_from lexemes.now at ≡ [])
        (λ t. Reads lexemes.now at (at + 1) (λ rest. token_of t ∷ rest)) }
    ensures comes { MatchOption result (ahead lexemes.now at ≡ [])
        (λ t. Comes (token_of t) lexemes.now at (at + 1)) }
{
    let lexeme = lexemes.get(at)?;
    Some(lexeme.token)
}

/// Nothing goes on with the token at a position.
pub fn refuse(lexemes: &[Lexeme<'_>], at: usize) -> ParseError
    ensures told { told_of result ≡ Some (refusal_at (ahead lexemes.now at)) }
{
    match lexemes.get(at) {
        Some(lexeme) => ParseError::Unexpected(lexeme.at),
        None => ParseError::EndOfText,
    }
}

/// Reads a sign.
#[tactic(auto, using(c_automaton::proofs::Taking::sign_taken, c_automaton::proofs::Taking::sign_lacks, crate::proofs::Automata::fails_with))]
pub fn sign(lexemes: &[Lexeme<'_>], at: usize, wanted: CSign) -> Result<usize, ParseError>
    ensures reads { IfOk result (λ next. Reads lexemes.now at next
        (λ rest. t.sign wanted ∷ rest)) }
    ensures follows { Turns (machine.sign wanted ∷ []) [] (λ next. next)
        lexemes.now at result }
{
    if !is_sign(lexemes, at, wanted) {
        return Err(refuse(lexemes, at));
    }
    Ok(at + 1)
}

/// Reads a word.
#[tactic(auto, using(c_automaton::proofs::Taking::word_taken, c_automaton::proofs::Taking::word_lacks, crate::proofs::Automata::fails_with))]
pub fn word(lexemes: &[Lexeme<'_>], at: usize, wanted: CWord) -> Result<usize, ParseError>
    ensures reads { IfOk result (λ next. Reads lexemes.now at next
        (λ rest. t.word wanted ∷ rest)) }
    ensures follows { Turns (machine.word wanted ∷ []) [] (λ next. next)
        lexemes.now at result }
{
    if !is_word(lexemes, at, wanted) {
        return Err(refuse(lexemes, at));
    }
    Ok(at + 1)
}

/// Reads a number that isn't negative.
pub fn natural(lexemes: &[Lexeme<'_>], at: usize) -> Result<u64, ParseError>
    ensures reads { IfOk result (λ n. Reads lexemes.now at (at + 1)
        (λ rest. t.number (pos n) ∷ rest)) }
    ensures follows { Turns (machine.natural ∷ []) [] (λ n. at + 1)
        lexemes.now at result }
{
    match token(lexemes, at) {
        Some(Token::Number(value)) if value >= 0 => Ok(value as u64),
        _ => Err(refuse(lexemes, at)),
    }
}

/// Whether a sign stands at a position.
pub fn is_sign(lexemes: &[Lexeme<'_>], at: usize, wanted: CSign) -> bool
    ensures reads { IsTrue result →
        Reads lexemes.now at (at + 1) (λ rest. t.sign wanted ∷ rest) }
    ensures comes { IsTrue result → Comes (t.sign wanted) lexemes.now at (at + 1) }
    ensures begins { result ≡ begins_sign wanted (ahead lexemes.now at) }
{
    match token(lexemes, at) {
        Some(Token::Sign(found)) => found == wanted,
        _ => false,
    }
}

/// Whether a word stands at a position.
pub fn is_word(lexemes: &[Lexeme<'_>], at: usize, wanted: CWord) -> bool
    ensures reads { IsTrue result →
        Reads lexemes.now at (at + 1) (λ rest. t.word wanted ∷ rest) }
    ensures comes { IsTrue result → Comes (t.word wanted) lexemes.now at (at + 1) }
    ensures begins { result ≡ begins_word wanted (ahead lexemes.now at) }
{
    match token(lexemes, at) {
        Some(Token::Word(found)) => found == wanted,
        _ => false,
    }
}
