//! Calls.

ghost use Rattle.std.specs.Prelude.{◌≡◌, ◌+◌, [], ◌∷◌, false, true, map, IfOk};
ghost use Rattle.c_syntax.specs.Tokens as t;
ghost use Rattle.c_syntax.specs.declared.token.CSign.TheVariants.{OpenParen};
ghost use Rattle.c_syntax.specs.Spelling.{arg_token, args_then, call_then};
ghost use Rattle.c_syntax.specs.Grammar.{HasNoText, IsCall};
ghost use Rattle.c_syntax.specs.View.{arg_of, call_of};
ghost use Rattle.c_parser.specs.Parsing.{Reads, ReadsAfter};
ghost use Rattle.c_automaton.specs.Automaton as machine;
ghost use Rattle.c_parser.specs.Following.{ahead, Takes, Turns};
ghost use Rattle.c_automaton.specs.Ahead.{begins_with, is_callee};

use crate::cursor::{is_sign, refuse, sign, token};
use crate::error::ParseError;
use c_lexer::{Lexeme, Token};
use c_syntax::{CArg, CCall, CPrim, CSign, CWord};
use std::alloc::Global;
use vlt_base::Items;

/// An argument. Where it may not, it is no string.
fn arg(alloc: Global, lexemes: &[Lexeme<'_>], at: usize, texts: bool) -> Result<CArg, ParseError>
    ensures reads { IfOk result (λ x. Reads lexemes.now at (at + 1)
        (λ rest. arg_token (arg_of x) ∷ rest)) }
    ensures is { IfOk result (λ x. texts ≡ false → HasNoText (arg_of x ∷ [])) }
    ensures follows { Turns (machine.arg texts ∷ []) [] (λ x. at + 1)
        lexemes.now at result }
{
    match token(lexemes, at) {
        Some(Token::Number(value)) => Ok(CArg::Number(value)),
        Some(Token::Var(variable)) => Ok(CArg::Var(variable)),
        Some(Token::Word(CWord::Null)) => Ok(CArg::Null),
        Some(Token::Text(name)) if texts => Ok(CArg::Text(Items::from_slice(alloc, name)?)),
        _ => Err(refuse(lexemes, at)),
    }
}

/// The arguments after the first, and the closing parenthesis.
#[tactic(auto, using(c_automaton::proofs::Taking::comma_arg, c_automaton::proofs::Taking::more_args_end))]
fn more_args(
    alloc: Global,
    lexemes: &[Lexeme<'_>],
    at: usize,
    texts: bool,
    first: CArg,
) -> Result<(Items<CArg>, usize), ParseError>
    requires { texts ≡ false → HasNoText (arg_of first ∷ []) }
    ensures reads { IfOk result (λ x. ReadsAfter (arg_token (arg_of first)) lexemes.now at x.1
        (args_then (map arg_of x.0))) }
    ensures is { IfOk result (λ x. texts ≡ false → HasNoText (map arg_of x.0)) }
    ensures follows { Takes (machine.more_args texts ∷ []) lexemes.now at result }
{
    let mut args = Items::new(alloc);
    args.push(first)?;
    let mut here = at;
    while is_sign(lexemes, here, CSign::Comma) {
        args.push(arg(alloc, lexemes, here + 1, texts)?)?;
        here += 2;
    }
    let next = sign(lexemes, here, CSign::CloseParen)?;
    Ok((args, next))
}

/// Arguments, and the closing parenthesis.
#[tactic(auto, using(c_automaton::proofs::Taking::no_args, c_automaton::proofs::Taking::args_begin))]
fn args(
    alloc: Global,
    lexemes: &[Lexeme<'_>],
    at: usize,
    texts: bool,
) -> Result<(Items<CArg>, usize), ParseError>
    ensures reads { IfOk result (λ x. Reads lexemes.now at x.1 (args_then (map arg_of x.0))) }
    ensures is { IfOk result (λ x. texts ≡ false → HasNoText (map arg_of x.0)) }
    ensures follows { Takes (machine.args texts ∷ []) lexemes.now at result }
{
    if is_sign(lexemes, at, CSign::CloseParen) {
        return Ok((Items::new(alloc), at + 1));
    }
    let first = arg(alloc, lexemes, at, texts)?;
    more_args(alloc, lexemes, at + 1, texts, first)
}

/// The arguments of a call, with both parentheses.
fn all_args(
    alloc: Global,
    lexemes: &[Lexeme<'_>],
    at: usize,
    texts: bool,
) -> Result<(Items<CArg>, usize), ParseError>
    ensures reads { IfOk result (λ x. Reads lexemes.now at x.1
        (λ rest. t.sign OpenParen ∷ args_then (map arg_of x.0) rest)) }
    ensures is { IfOk result (λ x. texts ≡ false → HasNoText (map arg_of x.0)) }
    ensures follows { Takes (machine.sign OpenParen ∷ machine.args texts ∷ [])
        lexemes.now at result }
{
    let open = sign(lexemes, at, CSign::OpenParen)?;
    args(alloc, lexemes, open, texts)
}

/// Whether strings may be arguments of a primitive.
fn takes_texts(primitive: CPrim) -> bool
    ensures { result ≡ machine.is_string_taker primitive }
{
    matches!(primitive, CPrim::Call)
}

/// Whether a call begins at a position.
pub fn is_call(lexemes: &[Lexeme<'_>], at: usize) -> bool
    ensures { result ≡ begins_with is_callee (ahead lexemes.now at) }
{
    matches!(
        token(lexemes, at),
        Some(Token::Name(_) | Token::Primitive(_))
    )
}

/// A call.
#[tactic(auto, using(crate::proofs::Automata::value_primitive, crate::proofs::Arguments::primitive_is_call))]
pub fn call(alloc: Global, lexemes: &[Lexeme<'_>], at: usize) -> Result<(CCall, usize), ParseError>
    ensures reads { IfOk result (λ x. Reads lexemes.now at x.1 (call_then (call_of x.0))) }
    ensures is { IfOk result (λ x. IsCall (call_of x.0)) }
    ensures follows { begins_with is_callee (ahead lexemes.now at) ≡ true →
        Takes (machine.value ∷ []) lexemes.now at result }
{
    match token(lexemes, at) {
        Some(Token::Name(name)) => {
            let (args, next) = all_args(alloc, lexemes, at + 1, false)?;
            Ok((CCall::Function(name, args), next))
        }
        Some(Token::Primitive(primitive)) => {
            let (args, next) = all_args(alloc, lexemes, at + 1, takes_texts(primitive))?;
            Ok((CCall::Primitive(primitive, args), next))
        }
        _ => Err(refuse(lexemes, at)),
    }
}
