//! The lexer: the bytes of a source text go in, its tokens with their places come out, or why there are none.
//! Read `specs/Text.antt` (IsTokensOf) first, then `Reading.antt` (IsRefused).
//! Used by: the parser, and the replies to bytes that are no tokens.
#![tactic(auto)]

ghost use Rattle.std.specs.Prelude.{◌≡◌, ◌⊎◌, ◌<◌, ◌≤◌, ◌+◌, ◌-◌, ◌^◌, List, length, take, IfOk, IfErr, MatchResult};
ghost use Rattle.vlt_base.specs.Limits.{limit_of};
ghost use Rattle.vlt_base.specs.declared.limits.TheConstants as limits;
ghost use Rattle.vlt_tokens.specs.Lexemes.{lexemes, Lexeme};
ghost use Rattle.vlt_lexer.specs.Text.{IsTokensOf, AreSlicesOf, IsRefused};
ghost use Rattle.vlt_lexer.specs.Places.{error_at};
ghost use Rattle.vlt_lexer.specs.declared.LexError.{LexError};

mod ascii_pieces;
mod scan;

use ascii_pieces::past_blanks;
use scan::{Piece, Stuck, next_piece};
use std::alloc::{AllocError, AllocFailed, Global};
use thiserror::Error;
use vlt_base::{Span, TOKENS, limit};
use vlt_tokens::{Token, TokenKind};

/// Why a text has no list of tokens. A place is the number of bytes before it.
#[derive(Clone, Copy, Debug, PartialEq, Eq, Error)]
pub enum LexError {
    /// The text isn't UTF-8: the first byte after its longest valid prefix.
    #[error("the text isn't UTF-8")]
    NotUtf8(u32),
    /// A character with which no token, blank or comment begins.
    #[error("no token begins with this character")]
    BadByte(u32),
    /// The first digit of a number above 9223372036854775807.
    #[error("the number is too large")]
    NumberTooLarge(u32),
    /// The `/` of a `/*` that no `*/` closes.
    #[error("the comment isn't closed")]
    OpenComment(u32),
    /// There are more tokens than this limit says.
    #[error("there are too many tokens")]
    Limit(u8),
    #[error("there is no memory for the tokens")]
    Memory,
}

impl From<AllocError> for LexError {
    ghost use Rattle.vlt_lexer.specs.declared.LexError.TheVariants.{Memory};

    ghost from_gives = { λ _ e. e ≡ Memory };

    fn from(_: AllocError) -> LexError {
        LexError::Memory
    }
}

impl<T: Drop> From<AllocFailed<T>> for LexError {
    ghost use Rattle.vlt_lexer.specs.declared.LexError.TheVariants.{Memory};

    ghost from_gives = { λ _ e. e ≡ Memory };

    fn from(_: AllocFailed<T>) -> LexError {
        LexError::Memory
    }
}

impl Stuck {
    fn at(self, at: u32) -> LexError
        ensures { result ≡ error_at self at }
    {
        match self {
            Stuck::BadByte => LexError::BadByte(at),
            Stuck::NumberTooLarge => LexError::NumberTooLarge(at),
            Stuck::OpenComment => LexError::OpenComment(at),
        }
    }
}

/// The token of the text between what is left of it before the token and after it.
fn token_between<'a>(kind: TokenKind, text: &str, left: &'a str, after: &str) -> Token<'a>
    requires size { length text.now < 2 ^ 32 }
    requires within { length left.now ≤ length text.now }
    requires following { length after.now ≤ length left.now }
    ensures kind { result.kind ≡ kind }
    ensures text { result.text.now ≡ take (length left.now - length after.now) left.now }
    ensures from { result.at.from + length left.now ≡ length text.now }
    ensures to { result.at.to + length after.now ≡ length text.now }
{
    Token {
        kind,
        text: &left.as_bytes()[..left.len() - after.len()],
        at: Span {
            from: (text.len() - left.len()) as u32,
            to: (text.len() - after.len()) as u32,
        },
    }
}

/// Reads a text that is UTF-8.
fn read_text(alloc: Global, text: &str) -> Result<Vec<Token<'_>>, LexError>
    requires { length text.now < 2 ^ 32 }
    ensures tokens { IfOk result (λ found. IsTokensOf text.now (lexemes found.items)) }
    ensures few { IfOk result (λ found. length (lexemes found.items) ≤ limit_of limits.TOKENS) }
    ensures refused { IfErr result (λ e. (e ≡ LexError.Memory) ⊎ IsRefused text.now e) }
{
    // With the blanks around it a token has some four bytes.
    let mut found = Vec::with_capacity(alloc, text.len() / 4)?;
    let mut left = text;
    loop {
        let front = past_blanks(left);
        match next_piece(front) {
            Ok(None) => return Ok(found),
            Ok(Some(Piece::Gap(after))) => left = after,
            Ok(Some(Piece::Token(kind, after))) => {
                if found.len() as u64 == limit(TOKENS) {
                    return Err(LexError::Limit(3));
                }
                found.push(token_between(kind, text, front, after))?;
                left = after;
            }
            Err(stuck) => return Err(stuck.at((text.len() - front.len()) as u32)),
        }
    }
}

/// Reads a text of any bytes.
fn read(alloc: Global, text: &[u8]) -> Result<Vec<Token<'_>>, LexError>
    requires { length text.now < 2 ^ 32 - 1 }
    ensures tokens { IfOk result (λ found. IsTokensOf text.now (lexemes found.items)) }
    ensures few { IfOk result (λ found. length (lexemes found.items) ≤ limit_of limits.TOKENS) }
    ensures refused { IfErr result (λ e. (e ≡ LexError.Memory) ⊎ IsRefused text.now e) }
{
    match str::from_utf8(text) {
        Ok(text) => read_text(alloc, text),
        Err(error) => Err(LexError::NotUtf8(error.valid_up_to() as u32)),
    }
}

/// The tokens of a text, at most 262144 of them.
pub fn lex(alloc: Global, text: &[u8]) -> Result<Vec<Token<'_>>, LexError>
    requires { length text.now < 2 ^ 32 - 1 }
    ensures tokens { IfOk result (λ found. IsTokensOf text.now (lexemes found.items)) }
    ensures few { IfOk result (λ found. length (lexemes found.items) ≤ limit_of limits.TOKENS) }
    ensures refused { IfErr result (λ e. (e ≡ LexError.Memory) ⊎ IsRefused text.now e) }

    ensures slices { IfOk result (λ found. AreSlicesOf text.now 0 (lexemes found.items)) }

    // Where there is a list of tokens within the limit it is the answer, if there is memory, and likewise a refusal.
    ensures all_tokens { (ls : List Lexeme) → IsTokensOf text.now ls →
        length ls ≤ limit_of limits.TOKENS → MatchResult result (λ found. lexemes found.items ≡ ls)
        (λ e. e ≡ LexError.Memory) }
    ensures all_refusals { (refusal : LexError) → IsRefused text.now refusal →
        MatchResult result (λ _. ⊥) (λ e. (e ≡ LexError.Memory) ⊎ (e ≡ refusal)) }

    // A text has at most one list of tokens, however long.
    ensures one_list { (ls ms : List Lexeme) → IsTokensOf text.now ls →
        IsTokensOf text.now ms → ls ≡ ms }
{
    read(alloc, text)
}
