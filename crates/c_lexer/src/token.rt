//! Tokens of a C text, with their places.

use c_syntax::{CName, CPrim, CSign, CVar, CWord};
use vlt_ops::Op;

/// A token.
#[derive(Clone, Copy, Debug, PartialEq, Eq)]
pub enum Token<'a> {
    /// The text of the first line.
    Include,
    /// The end of one of the two first lines.
    LineEnd,
    /// What stands before the number in the second line.
    Define,
    Word(CWord),
    Sign(CSign),
    /// The sign of an operator. `-` is `Subtract`, also before one operand.
    Operator(Op),
    Primitive(CPrim),
    Var(CVar),
    Name(CName),
    Number(i64),
    /// A name between quotes.
    Text(&'a [u8]),
    /// A byte or a run that is no token of the grammar.
    Stray,
}

/// A token, and how many bytes stand before it.
#[derive(Clone, Copy, Debug, PartialEq, Eq)]
pub struct Lexeme<'a> {
    pub token: Token<'a>,
    pub at: u32,
}
