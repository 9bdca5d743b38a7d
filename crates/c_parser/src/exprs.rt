//! Cells and expressions.

ghost use Rattle.std.specs.Prelude.{◌≡◌, ◌+◌, ◌≤◌, ◌&&◌, List, [], ◌∷◌, pos, true, false, IfOk, IfSome, IsTrue, MatchOption};
ghost use Rattle.vlt_ops.specs.Operator.{row_of};
ghost use Rattle.c_syntax.specs.Tokens as t;
ghost use Rattle.c_syntax.specs.declared.token.CSign.TheVariants.{Arrow, CloseBracket, CloseParen, OpenBracket, OpenParen};
ghost use Rattle.c_syntax.specs.Spelling.{cell_then, expr_then, prefix_sign};
ghost use Rattle.c_syntax.specs.Grammar.{IsExpr};
ghost use Rattle.c_syntax.specs.View.{expr_of};
ghost use Rattle.c_parser.specs.Parsing.{kind_word, Reads, ReadsAfter, referring};
ghost use Rattle.c_automaton.specs.Automaton as machine;
ghost use Rattle.c_automaton.specs.Ahead.{begins_sign};
ghost use Rattle.c_parser.specs.Following.{ahead, AtDepth, Comes, GoesOn, Takes, Turns, TurnsWhere};

use crate::cursor::{is_sign, natural, refuse, sign, token};
use crate::error::ParseError;
use c_lexer::{Lexeme, Token};
use c_syntax::{CCell, CExpr, CSign, CVar, CWord};
use std::alloc::Global;
use vlt_base::{Boxed, C_EXPRESSION_DEPTH};
use vlt_ops::{Op, row};

/// How deep an expression may be.
pub const DEPTH: u8 = 16;

/// The kind of a cell: whether it is one of references.
fn cell_kind(lexemes: &[Lexeme<'_>], at: usize) -> Result<bool, ParseError>
    ensures reads { IfOk result (λ kind. Reads lexemes.now at (at + 1)
        (λ rest. t.word (kind_word kind) ∷ rest)) }
    ensures follows { Turns (machine.cell_kind ∷ []) [] (λ kind. at + 1)
        lexemes.now at result }
{
    match token(lexemes, at) {
        Some(Token::Word(CWord::Numbers)) => Ok(false),
        Some(Token::Word(CWord::References)) => Ok(true),
        _ => Err(refuse(lexemes, at)),
    }
}

/// The index of a cell, in its brackets.
fn cell_index(lexemes: &[Lexeme<'_>], at: usize) -> Result<(u64, usize), ParseError>
    ensures reads { IfOk result (λ x. Reads lexemes.now at x.1
        (λ rest. t.sign OpenBracket ∷ t.number (pos x.0) ∷ t.sign CloseBracket ∷ rest)) }
    ensures follows { Takes
        (machine.sign OpenBracket ∷ machine.natural ∷ machine.sign CloseBracket ∷ [])
        lexemes.now at result }
{
    let number = sign(lexemes, at, CSign::OpenBracket)?;
    let index = natural(lexemes, number)?;
    let next = sign(lexemes, number + 1, CSign::CloseBracket)?;
    Ok((index, next))
}

/// A cell, by its kind.
fn cell_of(reference: bool, base: u64, index: u64) -> CCell
    ensures { (rest : List t.Token) → cell_then result rest ≡ t.variable (referring base)
        ∷ t.sign Arrow ∷ t.word (kind_word reference)
        ∷ t.sign OpenBracket ∷ t.number (pos index) ∷ t.sign CloseBracket ∷ rest }
{
    if reference {
        CCell::Reference { base, index }
    } else {
        CCell::Number { base, index }
    }
}

/// The rest of a cell, after the variable of this number.
pub fn cell_after(
    lexemes: &[Lexeme<'_>],
    at: usize,
    base: u64,
) -> Result<(CCell, usize), ParseError>
    ensures reads { IfOk result (λ x. ReadsAfter (t.variable (referring base)) lexemes.now at x.1
        (cell_then x.0)) }
    ensures follows { Takes (machine.sign Arrow ∷ machine.cell_rest []) lexemes.now at result }
{
    let kind = sign(lexemes, at, CSign::Arrow)?;
    let reference = cell_kind(lexemes, kind)?;
    let (index, next) = cell_index(lexemes, kind + 1)?;
    Ok((cell_of(reference, base, index), next))
}

/// Whether a variable is that of a cell, which goes on at a position.
pub fn is_cell(lexemes: &[Lexeme<'_>], at: usize, variable: CVar) -> bool
    ensures is { result ≡ (variable.reference && begins_sign Arrow (ahead lexemes.now at)) }
    ensures reference { IsTrue result → variable.reference ≡ true }
    ensures comes { IsTrue result → Comes (t.sign Arrow) lexemes.now at (at + 1) }
{
    variable.reference && is_sign(lexemes, at, CSign::Arrow)
}

/// An expression with no parenthesis.
#[tactic(auto, using(c_automaton::proofs::Taking::no_arrow))]
fn simple_expr(lexemes: &[Lexeme<'_>], at: usize) -> Result<(CExpr, usize), ParseError>
    requires { begins_sign OpenParen (ahead lexemes.now at) ≡ false }
    ensures reads { IfOk result (λ x. Reads lexemes.now at x.1 (expr_then (expr_of x.0))) }
    ensures is { IfOk result (λ x. IsExpr 1 (expr_of x.0)) }
    ensures follows { Takes (machine.operand ∷ []) lexemes.now at result }
{
    match token(lexemes, at) {
        Some(Token::Number(value)) => Ok((CExpr::Number(value), at + 1)),
        Some(Token::Word(CWord::Null)) => Ok((CExpr::Null, at + 1)),
        Some(Token::Var(variable)) => {
            if is_cell(lexemes, at + 1, variable) {
                let (cell, next) = cell_after(lexemes, at + 1, variable.number)?;
                return Ok((CExpr::Cell(cell), next));
            }
            Ok((CExpr::Var(variable), at + 1))
        }
        _ => Err(refuse(lexemes, at)),
    }
}

/// The operator between two operands.
#[tactic(auto, using(c_automaton::proofs::Taking::operator_taken))]
fn operator(lexemes: &[Lexeme<'_>], at: usize) -> Result<Op, ParseError>
    ensures reads { IfOk result (λ op. Reads lexemes.now at (at + 1)
        (λ rest. t.operator op ∷ rest)) }
    ensures arity { IfOk result (λ op. (row_of op).arity ≡ 2) }
    ensures follows { Turns (machine.operation ∷ [])
        (machine.operand ∷ machine.closing ∷ []) (λ op. at + 1) lexemes.now at result }
{
    match token(lexemes, at) {
        Some(Token::Operator(op)) if row(op).arity == 2 => Ok(op),
        _ => Err(refuse(lexemes, at)),
    }
}

/// The operator that stands before its operand, if one does.
#[tactic(auto, using(c_automaton::proofs::Taking::inside_operand, c_automaton::proofs::Taking::prefix_taken))]
fn prefix(lexemes: &[Lexeme<'_>], at: usize) -> Option<Op>
    ensures reads { IfSome result (λ op. Reads lexemes.now at (at + 1)
        (λ rest. t.operator (prefix_sign op) ∷ rest)) }
    ensures arity { IfSome result (λ op. (row_of op).arity ≡ 1) }
    ensures follows { MatchOption result
        (GoesOn (machine.inside ∷ []) (machine.operand ∷ machine.operation ∷ []) lexemes.now at at)
        (λ op. GoesOn (machine.inside ∷ []) (machine.operand ∷ machine.closing ∷ [])
        lexemes.now at (at + 1)) }
{
    match token(lexemes, at) {
        Some(Token::Operator(Op::Subtract)) => Some(Op::Negate),
        Some(Token::Operator(Op::Not)) => Some(Op::Not),
        _ => None,
    }
}

/// An operand, in a box.
#[cycle(expression)]
fn operand(
    alloc: Global,
    lexemes: &[Lexeme<'_>],
    at: usize,
    depth: u8,
) -> Result<(Boxed<CExpr>, usize), ParseError>
    requires { 1 ≤ depth }
    ensures reads { IfOk result (λ x. Reads lexemes.now at x.1 (expr_then (expr_of x.0))) }
    ensures is { IfOk result (λ x. IsExpr depth (expr_of x.0)) }
    ensures follows { TurnsWhere (AtDepth depth) (machine.operand ∷ []) [] (λ x. x.1)
        lexemes.now at result }
{
    let (operand, next) = expr(alloc, lexemes, at, depth)?;
    Ok((Boxed::new(alloc, operand)?, next))
}

/// The last operand in parentheses, and the closing one.
#[tactic(auto, using(c_automaton::proofs::Taking::closing_paren))]
#[cycle(expression)]
fn last_operand(
    alloc: Global,
    lexemes: &[Lexeme<'_>],
    at: usize,
    depth: u8,
) -> Result<(Boxed<CExpr>, usize), ParseError>
    requires { 1 ≤ depth }
    ensures reads { IfOk result (λ x. Reads lexemes.now at x.1
        (λ rest. expr_then (expr_of x.0) (t.sign CloseParen ∷ rest))) }
    ensures is { IfOk result (λ x. IsExpr depth (expr_of x.0)) }
    ensures follows { TurnsWhere (AtDepth (depth + 1)) (machine.operand ∷ machine.closing ∷ [])
        [] (λ x. x.1) lexemes.now at result }
{
    let (operand, next) = operand(alloc, lexemes, at, depth)?;
    let next = sign(lexemes, next, CSign::CloseParen)?;
    Ok((operand, next))
}

/// Two operands with the operator between them, and the closing parenthesis.
#[cycle(expression)]
fn binary(
    alloc: Global,
    lexemes: &[Lexeme<'_>],
    at: usize,
    depth: u8,
) -> Result<(CExpr, usize), ParseError>
    requires { 1 ≤ depth }
    ensures reads { IfOk result (λ x. ReadsAfter (t.sign OpenParen) lexemes.now at x.1
        (expr_then (expr_of x.0))) }
    ensures is { IfOk result (λ x. IsExpr (depth + 1) (expr_of x.0)) }
    ensures follows { TurnsWhere (AtDepth (depth + 1))
        (machine.operand ∷ machine.operation ∷ []) [] (λ x. x.1) lexemes.now at result }
{
    let (left, here) = operand(alloc, lexemes, at, depth)?;
    let op = operator(lexemes, here)?;
    let (right, next) = last_operand(alloc, lexemes, here + 1, depth)?;
    Ok((CExpr::Binary(op, left, right), next))
}

/// What stands after an opening parenthesis, with the closing one.
#[cycle(expression)]
fn after_paren(
    alloc: Global,
    lexemes: &[Lexeme<'_>],
    at: usize,
    depth: u8,
) -> Result<(CExpr, usize), ParseError>
    requires { 1 ≤ depth }
    ensures reads { IfOk result (λ x. ReadsAfter (t.sign OpenParen) lexemes.now at x.1
        (expr_then (expr_of x.0))) }
    ensures is { IfOk result (λ x. IsExpr (depth + 1) (expr_of x.0)) }
    ensures follows { TurnsWhere (AtDepth (depth + 1)) (machine.inside ∷ []) [] (λ x. x.1)
        lexemes.now at result }
{
    match prefix(lexemes, at) {
        Some(op) => {
            let (operand, next) = last_operand(alloc, lexemes, at + 1, depth)?;
            Ok((CExpr::Unary(op, operand), next))
        }
        None => binary(alloc, lexemes, at, depth),
    }
}

/// An expression of at most this depth.
#[tactic(auto, using(c_automaton::proofs::Taking::paren_opens, c_automaton::proofs::Taking::paren_is_too_deep))]
#[cycle(expression)]
pub fn expr(
    alloc: Global,
    lexemes: &[Lexeme<'_>],
    at: usize,
    depth: u8,
) -> Result<(CExpr, usize), ParseError>
    requires { 1 ≤ depth }
    ensures reads { IfOk result (λ x. Reads lexemes.now at x.1 (expr_then (expr_of x.0))) }
    ensures is { IfOk result (λ x. IsExpr depth (expr_of x.0)) }
    ensures follows { TurnsWhere (AtDepth depth) (machine.operand ∷ []) [] (λ x. x.1)
        lexemes.now at result }
{
    if !is_sign(lexemes, at, CSign::OpenParen) {
        return simple_expr(lexemes, at);
    }
    if depth == 1 {
        return Err(ParseError::Limit(C_EXPRESSION_DEPTH));
    }
    after_paren(alloc, lexemes, at + 1, depth - 1)
}
