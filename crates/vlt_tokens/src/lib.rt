//! Tokens: what they are, how each is spelled, and which pieces of a text they are.
//! Read `specs/Characters.antt` first, then `Spelling` and `Lexemes`.
//! Used by: the lexer, which finds them, and the tree and the parser, which take them.
#![tactic(auto)]

mod token;

pub use token::{Mark, Token, TokenKind, Word};
