//! C texts in, the text as it is written out, with the places of its tokens.
//! Read `c_syntax/specs/Reading.antt` (IsUnitOf) first.
//! Used by: `c_kinds`, which judges the names and types of a C text.
#![tactic(auto)]

ghost use Rattle.std.specs.Prelude.{◌≡◌, ◌<◌, ◌-◌, ◌^◌, length, IfErr, IfOk};
ghost use Rattle.c_syntax.specs.Reading.{IsUnitOf};
ghost use Rattle.c_parser.specs.View.{unit_of};
ghost use Rattle.c_lexer.specs.View.{lexemes_of};
ghost use Rattle.c_parser.specs.Refusals.{IsRefusedAs};

mod calls;
mod cursor;
mod error;
mod exprs;
mod functions;
mod lines;
mod simple;
mod stmts;
mod unit;

use c_automaton::automaton_refuses_as_the_grammar;
use c_lexer::lex;
pub use c_lexer::{Lexeme, Token, before_mark};
pub use error::ParseError;
use std::alloc::Global;
pub use unit::{Body, Declaration, Head, Unit};

/// A C text as it is written, with the tokens that it has.
#[derive(Drop)]
pub struct Written<'a> {
    pub lexemes: Vec<Lexeme<'a>>,
    pub unit: Unit,
}

/// Reads a C text up to the first mark of a certificate, by the grammar and within its limits.
///
/// Names and types aren't judged here.
#[tactic(auto, using(crate::proofs::Automata::told_refused))]
pub fn read_unit(alloc: Global, text: &[u8]) -> Result<Written<'_>, ParseError>
    requires size { length text.now < 2 ^ 32 - 1 }
    ensures reads { IfOk result (λ x. IsUnitOf text.now (lexemes_of x.lexemes.items)
        (unit_of x.unit)) }
    ensures refused { IfErr result (IsRefusedAs text.now) }
{
    automaton_refuses_as_the_grammar();
    let lexemes = lex(alloc, before_mark(text))?;
    let unit = functions::unit(alloc, &lexemes)?;
    Ok(Written { lexemes, unit })
}
