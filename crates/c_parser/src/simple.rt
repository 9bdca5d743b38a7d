//! Statements with no block.

ghost use Rattle.std.specs.Prelude.{◌≡◌, [], ◌∷◌, ℕ, Bool, true, false, IfOk};
ghost use Rattle.c_syntax.specs.Tokens as t;
ghost use Rattle.c_syntax.specs.declared.token.CSign.TheVariants.{Arrow, Assign, CloseBrace, Semicolon};
ghost use Rattle.c_syntax.specs.declared.token.CWord.TheVariants.{If, Return, While};
ghost use Rattle.c_syntax.specs.Spelling.{call_then, expr_then, stmt_then};
ghost use Rattle.c_syntax.specs.Grammar.{IsCall, IsExpr, IsStmt, language};
ghost use Rattle.c_syntax.specs.View.{call_of, expr_of, stmt_of};
ghost use Rattle.c_parser.specs.Parsing.{Reads, ReadsAfter, ReadsAfterTwo};
ghost use Rattle.c_automaton.specs.Automaton as machine;
ghost use Rattle.c_parser.specs.Following.{ahead, Takes, Turns};
ghost use Rattle.c_automaton.specs.Ahead.{begins_sign, begins_with, begins_word, is_callee, after_variable_of};

use crate::calls::{call, is_call};
use crate::cursor::{is_sign, refuse, sign, token};
use crate::error::ParseError;
use crate::exprs::{DEPTH, cell_after, expr, is_cell};
use c_lexer::{Lexeme, Token};
use c_syntax::{CCall, CExpr, CSign, CStmt, CVar, CWord};
use std::alloc::Global;

/// An expression, and the semicolon after it.
fn expr_to_semicolon(
    alloc: Global,
    lexemes: &[Lexeme<'_>],
    at: usize,
) -> Result<(CExpr, usize), ParseError>
    ensures reads { IfOk result (λ x. Reads lexemes.now at x.1
        (λ rest. expr_then (expr_of x.0) (t.sign Semicolon ∷ rest))) }
    ensures is { IfOk result (λ x. IsExpr language.expressions (expr_of x.0)) }
    ensures follows { Takes (machine.operand ∷ machine.sign Semicolon ∷ [])
        lexemes.now at result }
{
    let (value, next) = expr(alloc, lexemes, at, DEPTH)?;
    let next = sign(lexemes, next, CSign::Semicolon)?;
    Ok((value, next))
}

/// A call, and the semicolon after it.
fn call_to_semicolon(
    alloc: Global,
    lexemes: &[Lexeme<'_>],
    at: usize,
) -> Result<(CCall, usize), ParseError>
    requires { begins_with is_callee (ahead lexemes.now at) ≡ true }
    ensures reads { IfOk result (λ x. Reads lexemes.now at x.1
        (λ rest. call_then (call_of x.0) (t.sign Semicolon ∷ rest))) }
    ensures is { IfOk result (λ x. IsCall (call_of x.0)) }
    ensures follows { Takes (machine.value ∷ machine.sign Semicolon ∷ [])
        lexemes.now at result }
{
    let (call, next) = call(alloc, lexemes, at)?;
    let next = sign(lexemes, next, CSign::Semicolon)?;
    Ok((call, next))
}

/// What is set to a value or to what a call gives, after the sign.
#[tactic(auto, using(c_automaton::proofs::Taking::value_operand))]
fn set(
    alloc: Global,
    lexemes: &[Lexeme<'_>],
    at: usize,
    variable: CVar,
) -> Result<(CStmt, usize), ParseError>
    ensures reads { IfOk result (λ x. ReadsAfterTwo (t.variable variable)
        (t.sign Assign) lexemes.now at x.1 (stmt_then (stmt_of x.0))) }
    ensures is { (room : ℕ) → IfOk result (λ x.
        IsStmt language.expressions room (stmt_of x.0)) }
    ensures follows { Takes (machine.value ∷ machine.sign Semicolon ∷ [])
        lexemes.now at result }
{
    if is_call(lexemes, at) {
        let (value, next) = call_to_semicolon(alloc, lexemes, at)?;
        return Ok((CStmt::SetCall(variable, value), next));
    }
    let (value, next) = expr_to_semicolon(alloc, lexemes, at)?;
    Ok((CStmt::Set(variable, value), next))
}

/// What stands after the variable of a cell that is set.
fn put(
    alloc: Global,
    lexemes: &[Lexeme<'_>],
    at: usize,
    variable: CVar,
) -> Result<(CStmt, usize), ParseError>
    requires { variable.reference ≡ true }
    ensures reads { IfOk result (λ x. ReadsAfter (t.variable variable) lexemes.now at x.1
        (stmt_then (stmt_of x.0))) }
    ensures is { (room : ℕ) → IfOk result (λ x.
        IsStmt language.expressions room (stmt_of x.0)) }
    ensures follows { Takes (machine.sign Arrow ∷ machine.cell_rest
        (machine.sign Assign ∷ machine.operand ∷ machine.sign Semicolon ∷ []))
        lexemes.now at result }
{
    let (cell, next) = cell_after(lexemes, at, variable.number)?;
    let next = sign(lexemes, next, CSign::Assign)?;
    let (value, next) = expr_to_semicolon(alloc, lexemes, next)?;
    Ok((CStmt::Put(cell, value), next))
}

/// A statement that begins with a variable.
fn after_variable(
    alloc: Global,
    lexemes: &[Lexeme<'_>],
    at: usize,
    variable: CVar,
) -> Result<(CStmt, usize), ParseError>
    ensures reads { IfOk result (λ x. ReadsAfter (t.variable variable) lexemes.now at x.1
        (stmt_then (stmt_of x.0))) }
    ensures is { (room : ℕ) → IfOk result (λ x.
        IsStmt language.expressions room (stmt_of x.0)) }
    ensures follows { Takes (after_variable_of variable) lexemes.now at result }
{
    if is_cell(lexemes, at, variable) {
        return put(alloc, lexemes, at, variable);
    }
    let next = sign(lexemes, at, CSign::Assign)?;
    set(alloc, lexemes, next, variable)
}

/// What stands after `return`.
#[tactic(auto, using(c_automaton::proofs::Taking::return_ends, c_automaton::proofs::Taking::return_value))]
fn after_return(
    alloc: Global,
    lexemes: &[Lexeme<'_>],
    at: usize,
) -> Result<(CStmt, usize), ParseError>
    ensures reads { IfOk result (λ x. ReadsAfter (t.word Return) lexemes.now at x.1
        (stmt_then (stmt_of x.0))) }
    ensures is { (room : ℕ) → IfOk result (λ x.
        IsStmt language.expressions room (stmt_of x.0)) }
    ensures follows { Takes (machine.after_return ∷ []) lexemes.now at result }
{
    if is_sign(lexemes, at, CSign::Semicolon) {
        return Ok((CStmt::Return(None), at + 1));
    }
    let (value, next) = expr_to_semicolon(alloc, lexemes, at)?;
    Ok((CStmt::Return(Some(value)), next))
}

/// A call as a statement.
fn call_stmt(alloc: Global, lexemes: &[Lexeme<'_>], at: usize) -> Result<(CStmt, usize), ParseError>
    requires { begins_with is_callee (ahead lexemes.now at) ≡ true }
    ensures reads { IfOk result (λ x. Reads lexemes.now at x.1 (stmt_then (stmt_of x.0))) }
    ensures is { (room : ℕ) → IfOk result (λ x.
        IsStmt language.expressions room (stmt_of x.0)) }
    ensures follows { Takes (machine.value ∷ machine.sign Semicolon ∷ [])
        lexemes.now at result }
{
    let (call, next) = call_to_semicolon(alloc, lexemes, at)?;
    Ok((CStmt::Call(call), next))
}

/// A statement with no block.
#[tactic(auto, using(c_automaton::proofs::Taking::call_stmt))]
pub fn simple_stmt(
    alloc: Global,
    lexemes: &[Lexeme<'_>],
    at: usize,
) -> Result<(CStmt, usize), ParseError>
    requires no_end { begins_sign CloseBrace (ahead lexemes.now at) ≡ false }
    requires no_if { begins_word If (ahead lexemes.now at) ≡ false }
    requires no_while { begins_word While (ahead lexemes.now at) ≡ false }
    ensures reads { IfOk result (λ x. Reads lexemes.now at x.1 (stmt_then (stmt_of x.0))) }
    ensures is { (room : ℕ) → IfOk result (λ x.
        IsStmt language.expressions room (stmt_of x.0)) }
    ensures follows { (counts : Bool) → Turns
        (machine.stmts counts ∷ []) (machine.stmts counts ∷ []) (λ x. x.1)
        lexemes.now at result }
{
    match token(lexemes, at) {
        Some(Token::Var(variable)) => after_variable(alloc, lexemes, at + 1, variable),
        Some(Token::Name(_) | Token::Primitive(_)) => call_stmt(alloc, lexemes, at),
        Some(Token::Word(CWord::Return)) => after_return(alloc, lexemes, at + 1),
        Some(Token::Word(CWord::Break)) => {
            let next = sign(lexemes, at + 1, CSign::Semicolon)?;
            Ok((CStmt::Break, next))
        }
        Some(Token::Word(CWord::Continue)) => {
            let next = sign(lexemes, at + 1, CSign::Semicolon)?;
            Ok((CStmt::Continue, next))
        }
        _ => Err(refuse(lexemes, at)),
    }
}
