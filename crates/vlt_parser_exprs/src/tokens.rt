//! Single tokens. Each part of the parser takes the position of a token, counted from 0, and answers what it
//! read with the position after it.

ghost use Rattle.std.specs.Prelude.{◌≡◌, ◌∷◌, [], ◌+◌, ℕ, List, IfOk, IfErr, IfSome, IfNone, IsTrue, IsFalse};
ghost use Rattle.vlt_syntax.specs.Tokens.{token_from, sign as a_sign, keyword as a_keyword};
ghost use Rattle.vlt_syntax.specs.Spelling.{name_then, case_name_then};
ghost use Rattle.vlt_syntax.specs.View.{name_of};
ghost use Rattle.vlt_automaton.specs.Language as automaton;
ghost use Rattle.vlt_syntax.specs.Places.{name_at};
ghost use Rattle.vlt_parser_exprs.specs.Reading.{tokens_from, spans, Moves};
ghost use Rattle.vlt_parser_exprs.specs.Ahead.{lexemes_from, first_sign, LacksSign, LacksKeyword, refusal, Follows};
ghost use Rattle.vlt_parser_exprs.specs.Promises.{Advances, Comes, KindComes, Lies, Spells, Takes};

use crate::error::ParseError;
use std::alloc::Global;
use vlt_base::Span;
use vlt_syntax::{Name, NameText};
use vlt_tokens::{Mark, Token, TokenKind, Word};

/// Why nothing goes on with the token at a position.
pub fn unexpected(tokens: &[Token<'_>], at: usize) -> ParseError
    ensures { result ≡ refusal (lexemes_from tokens.now at) }
{
    match tokens.get(at) {
        Some(token) => ParseError::Unexpected(token.at.from),
        None => ParseError::EndOfText,
    }
}

/// What the token at a position is, where there is one.
pub fn kind(tokens: &[Token<'_>], at: usize) -> Option<TokenKind>
    ensures here { IfSome result (λ kind. (text : List ℕ) × (tokens_from tokens.now at ≡
        token_from kind text ∷ tokens_from tokens.now (at + 1))) }
    ensures within { IfSome result (λ kind. Moves tokens.now at (at + 1)) }
    ensures ahead { IfSome result (λ kind. KindComes kind tokens.now at) }
    ensures none { IfNone result (lexemes_from tokens.now at ≡ []) }
{
    Some(tokens.get(at)?.kind)
}

/// The sign at a position, where there is one.
pub fn next_sign(tokens: &[Token<'_>], at: usize) -> Option<Mark>
    ensures which { result ≡ first_sign (lexemes_from tokens.now at) }
    ensures here { IfSome result (λ mark.
        tokens_from tokens.now at ≡ a_sign mark ∷ tokens_from tokens.now (at + 1)) }
    ensures within { IfSome result (λ mark. Moves tokens.now at (at + 1)) }
    ensures ahead { IfSome result (λ mark. Comes (a_sign mark) tokens.now at (at + 1)) }
{
    match tokens.get(at) {
        Some(
            Token {
                kind: TokenKind::Sign(mark),
                ..
            },
        ) => Some(*mark),
        _ => None,
    }
}

/// The text from the token at one position up to the one before another.
pub fn span(tokens: &[Token<'_>], from: usize, to: usize) -> Span
    requires { Moves tokens.now from to }
    ensures { result ≡ spans tokens.now from to }
{
    Span {
        from: tokens[from].at.from,
        to: tokens[to - 1].at.to,
    }
}

/// Whether a sign stands at a position.
fn is_sign(tokens: &[Token<'_>], at: usize, mark: Mark) -> bool
    ensures here { IsTrue result →
        tokens_from tokens.now at ≡ a_sign mark ∷ tokens_from tokens.now (at + 1) }
    ensures within { IsTrue result → Moves tokens.now at (at + 1) }
    ensures ahead { IsTrue result → Comes (a_sign mark) tokens.now at (at + 1) }
    ensures lacks { IsFalse result → LacksSign mark (lexemes_from tokens.now at) }
{
    match kind(tokens, at) {
        Some(TokenKind::Sign(found)) => found == mark,
        _ => false,
    }
}

/// The position after a sign, if it comes next.
pub fn after_sign(tokens: &[Token<'_>], at: usize, mark: Mark) -> Option<usize>
    ensures spelled { IfSome result (λ next.
        tokens_from tokens.now at ≡ a_sign mark ∷ tokens_from tokens.now next) }
    ensures one { IfSome result (λ next. next ≡ at + 1) }
    ensures moves { IfSome result (λ next. Moves tokens.now at next) }
    ensures ahead { IfSome result (λ next. Comes (a_sign mark) tokens.now at next) }
    ensures lacks { IfNone result (LacksSign mark (lexemes_from tokens.now at)) }
{
    if is_sign(tokens, at, mark) {
        Some(at + 1)
    } else {
        None
    }
}

/// The position after a sign.
pub fn sign(tokens: &[Token<'_>], at: usize, mark: Mark) -> Result<usize, ParseError>
    ensures spelled { IfOk result (λ next.
        tokens_from tokens.now at ≡ a_sign mark ∷ tokens_from tokens.now next) }
    ensures one { IfOk result (λ next. next ≡ at + 1) }
    ensures moves { IfOk result (λ next. Moves tokens.now at next) }
    ensures takes { Follows (automaton.sign mark ∷ []) (λ next. next) tokens.now at result }
    ensures ahead { IfOk result (λ next. Comes (a_sign mark) tokens.now at next) }
    ensures lacks { IfErr result (λ e.
        (e ≡ refusal (lexemes_from tokens.now at)) × LacksSign mark (lexemes_from tokens.now at)) }
{
    match after_sign(tokens, at, mark) {
        Some(next) => Ok(next),
        None => Err(unexpected(tokens, at)),
    }
}

/// Whether a keyword stands at a position.
fn is_keyword(tokens: &[Token<'_>], at: usize, word: Word) -> bool
    ensures here { IsTrue result →
        tokens_from tokens.now at ≡ a_keyword word ∷ tokens_from tokens.now (at + 1) }
    ensures within { IsTrue result → Moves tokens.now at (at + 1) }
    ensures ahead { IsTrue result → Comes (a_keyword word) tokens.now at (at + 1) }
    ensures lacks { IsFalse result → LacksKeyword word (lexemes_from tokens.now at) }
{
    match kind(tokens, at) {
        Some(TokenKind::Keyword(found)) => found == word,
        _ => false,
    }
}

/// The position after a keyword.
pub fn keyword(tokens: &[Token<'_>], at: usize, word: Word) -> Result<usize, ParseError>
    ensures spelled { IfOk result (λ next.
        tokens_from tokens.now at ≡ a_keyword word ∷ tokens_from tokens.now next) }
    ensures one { IfOk result (λ next. next ≡ at + 1) }
    ensures moves { IfOk result (λ next. Moves tokens.now at next) }
    ensures takes { Follows (automaton.keyword word ∷ []) (λ next. next) tokens.now at result }
    ensures ahead { IfOk result (λ next. Comes (a_keyword word) tokens.now at next) }
    ensures lacks { IfErr result (λ e.
        (e ≡ refusal (lexemes_from tokens.now at)) ×
        LacksKeyword word (lexemes_from tokens.now at)) }
{
    if !is_keyword(tokens, at, word) {
        return Err(unexpected(tokens, at));
    }
    Ok(at + 1)
}

pub fn name(alloc: Global, tokens: &[Token<'_>], at: usize) -> Result<(Name, usize), ParseError>
    ensures spelled { Spells name_of name_then tokens.now at result }
    ensures placed { Lies name_of name_at tokens.now at result }
    ensures moves { Advances tokens.now at result }
    ensures takes { Takes (automaton.name ∷ []) tokens.now at result }
{
    match tokens.get(at) {
        Some(token) if matches!(token.kind, TokenKind::Name) => {
            let text = NameText::from_slice(alloc, token.text)?;
            Ok((Name { text, at: token.at }, at + 1))
        }
        _ => Err(unexpected(tokens, at)),
    }
}

/// The name of a case, with its `'`.
pub fn case_name(
    alloc: Global,
    tokens: &[Token<'_>],
    at: usize,
) -> Result<(Name, usize), ParseError>
    ensures spelled { Spells name_of case_name_then tokens.now at result }
    ensures placed { Lies name_of name_at tokens.now at result }
    ensures moves { Advances tokens.now at result }
    ensures takes { Takes (automaton.tick ∷ []) tokens.now at result }
{
    match tokens.get(at) {
        Some(token) if matches!(token.kind, TokenKind::Tick) => {
            let text = NameText::from_slice(alloc, token.text)?;
            Ok((Name { text, at: token.at }, at + 1))
        }
        _ => Err(unexpected(tokens, at)),
    }
}
