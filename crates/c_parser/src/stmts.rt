//! Statements and blocks.

ghost use Rattle.std.specs.Prelude.{◌≡◌, ◌+◌, ◌≤◌, [], ◌∷◌, Bool, true, false, length, pos, IfOk};
ghost use Rattle.c_syntax.specs.Tokens as t;
ghost use Rattle.c_syntax.specs.declared.token.CSign.TheVariants.{CloseBrace, CloseParen, OpenBrace, OpenParen};
ghost use Rattle.c_syntax.specs.declared.token.CWord.TheVariants.{If, While};
ghost use Rattle.c_syntax.specs.C as c;
ghost use Rattle.c_syntax.specs.Spelling.{expr_then, stmt_then, stmts_then};
ghost use Rattle.c_syntax.specs.Grammar.{AreStmts, IsExpr, IsStmt, language};
ghost use Rattle.c_syntax.specs.View.{expr_of, stmt_of, stmts_of};
ghost use Rattle.c_parser.specs.Parsing.{Reads, ReadsAfter, ReadsOn};
ghost use Rattle.c_automaton.specs.Automaton as machine;
ghost use Rattle.c_parser.specs.Following.{ahead, Takes, Turns, TurnsWhere, WithRoom};
ghost use Rattle.c_automaton.specs.Ahead.{begins_sign, if_rest, while_rest};

use crate::cursor::{is_sign, is_word, refuse, sign, token};
use crate::error::ParseError;
use crate::exprs::{DEPTH, expr};
use crate::simple::simple_stmt;
use c_lexer::{Lexeme, Token};
use c_syntax::{CExpr, CSign, CStmt, CWord};
use std::alloc::Global;
use vlt_base::{C_BLOCK_DEPTH, Items};

/// The condition of an `if`, in its parentheses.
fn condition(alloc: Global, lexemes: &[Lexeme<'_>], at: usize) -> Result<(CExpr, usize), ParseError>
    ensures reads { IfOk result (λ x. Reads lexemes.now at x.1
        (λ rest. t.sign OpenParen ∷ expr_then (expr_of x.0) (t.sign CloseParen ∷ rest))) }
    ensures is { IfOk result (λ x. IsExpr language.expressions (expr_of x.0)) }
    ensures follows { Takes
        (machine.sign OpenParen ∷ machine.operand ∷ machine.sign CloseParen ∷ [])
        lexemes.now at result }
{
    let open = sign(lexemes, at, CSign::OpenParen)?;
    let (condition, next) = expr(alloc, lexemes, open, DEPTH)?;
    let next = sign(lexemes, next, CSign::CloseParen)?;
    Ok((condition, next))
}

/// The condition of a `while`, which is 1, in its parentheses.
fn one_condition(lexemes: &[Lexeme<'_>], at: usize) -> Result<usize, ParseError>
    ensures reads { IfOk result (λ next. Reads lexemes.now at next
        (λ rest. t.sign OpenParen ∷ t.number (pos 1) ∷ t.sign CloseParen ∷ rest)) }
    ensures follows { Turns
        (machine.sign OpenParen ∷ machine.one ∷ machine.sign CloseParen ∷ [])
        [] (λ next. next) lexemes.now at result }
{
    let open = sign(lexemes, at, CSign::OpenParen)?;
    match token(lexemes, open) {
        Some(Token::Number(1)) => sign(lexemes, open + 1, CSign::CloseParen),
        _ => Err(refuse(lexemes, open)),
    }
}

/// A block, with its braces.
#[cycle(statements)]
fn block(
    alloc: Global,
    lexemes: &[Lexeme<'_>],
    at: usize,
    room: u8,
) -> Result<(Items<CStmt>, usize), ParseError>
    ensures reads { IfOk result (λ x. Reads lexemes.now at x.1
        (λ rest. t.sign OpenBrace ∷ stmts_then (stmts_of x.0) (t.sign CloseBrace ∷ rest))) }
    ensures are { IfOk result (λ x. AreStmts language.expressions room (stmts_of x.0)) }
    ensures follows { (counts : Bool) → TurnsWhere (WithRoom counts room)
        (machine.sign OpenBrace ∷ machine.stmts counts ∷ []) [] (λ x. x.1)
        lexemes.now at result }
{
    let open = sign(lexemes, at, CSign::OpenBrace)?;
    stmts(alloc, lexemes, open, room)
}

/// Statements, and the closing brace.
#[tactic(auto, using(c_automaton::proofs::Taking::block_ends))]
#[cycle(statements)]
pub fn stmts(
    alloc: Global,
    lexemes: &[Lexeme<'_>],
    at: usize,
    room: u8,
) -> Result<(Items<CStmt>, usize), ParseError>
    ensures reads { IfOk result (λ x. Reads lexemes.now at x.1
        (λ rest. stmts_then (stmts_of x.0) (t.sign CloseBrace ∷ rest))) }
    ensures are { IfOk result (λ x. AreStmts language.expressions room (stmts_of x.0)) }
    ensures follows { (counts : Bool) → TurnsWhere (WithRoom counts room)
        (machine.stmts counts ∷ []) [] (λ x. x.1) lexemes.now at result }
{
    let mut found = Items::new(alloc);
    let mut here = at;
    while !is_sign(lexemes, here, CSign::CloseBrace) {
        let (next, following) = stmt(alloc, lexemes, here, room)?;
        found.push(next)?;
        here = following;
    }
    Ok((found, here + 1))
}

/// A statement in a block in which blocks may still nest so deep.
#[tactic(auto, using(c_automaton::proofs::Taking::if_is_too_deep, c_automaton::proofs::Taking::while_is_too_deep))]
#[cycle(statements)]
fn stmt(
    alloc: Global,
    lexemes: &[Lexeme<'_>],
    at: usize,
    room: u8,
) -> Result<(CStmt, usize), ParseError>
    requires { begins_sign CloseBrace (ahead lexemes.now at) ≡ false }
    ensures reads { IfOk result (λ x. Reads lexemes.now at x.1 (stmt_then (stmt_of x.0))) }
    ensures is { IfOk result (λ x. IsStmt language.expressions room (stmt_of x.0)) }
    ensures follows { (counts : Bool) → TurnsWhere (WithRoom counts room)
        (machine.stmts counts ∷ []) (machine.stmts counts ∷ []) (λ x. x.1)
        lexemes.now at result }
{
    if is_word(lexemes, at, CWord::If) {
        if room == 0 {
            return Err(ParseError::Limit(C_BLOCK_DEPTH));
        }
        return after_if(alloc, lexemes, at + 1, room - 1);
    }
    if is_word(lexemes, at, CWord::While) {
        if room == 0 {
            return Err(ParseError::Limit(C_BLOCK_DEPTH));
        }
        return after_while(alloc, lexemes, at + 1, room - 1);
    }
    simple_stmt(alloc, lexemes, at)
}

/// What stands after `if`, its blocks having so much room in them.
#[cycle(statements)]
fn after_if(
    alloc: Global,
    lexemes: &[Lexeme<'_>],
    at: usize,
    room: u8,
) -> Result<(CStmt, usize), ParseError>
    ensures reads { IfOk result (λ x. ReadsAfter (t.word If) lexemes.now at x.1
        (stmt_then (stmt_of x.0))) }
    ensures is { IfOk result (λ x. IsStmt language.expressions (room + 1) (stmt_of x.0)) }
    ensures follows { TurnsWhere (WithRoom true room) if_rest [] (λ x. x.1) lexemes.now at result }
{
    let (condition, next) = condition(alloc, lexemes, at)?;
    let (body, next) = block(alloc, lexemes, next, room)?;
    after_first_block(alloc, lexemes, next, room, condition, body)
}

/// What stands after the first block of an `if`: `else` with another block, or nothing.
#[tactic(auto, using(c_automaton::proofs::Taking::no_else, c_automaton::proofs::Taking::else_begins))]
#[cycle(statements)]
fn after_first_block(
    alloc: Global,
    lexemes: &[Lexeme<'_>],
    at: usize,
    room: u8,
    condition: CExpr,
    body: Items<CStmt>,
) -> Result<(CStmt, usize), ParseError>
    requires within { at ≤ length lexemes.now }
    requires is { IsExpr language.expressions (expr_of condition) }
    requires are { AreStmts language.expressions room (stmts_of body) }
    ensures reads { IfOk result (λ x. ReadsOn lexemes.now at x.1
        (c.when (expr_of condition) (stmts_of body)) (stmt_of x.0)) }
    ensures is { IfOk result (λ x. IsStmt language.expressions (room + 1) (stmt_of x.0)) }
    ensures follows { TurnsWhere (WithRoom true room) (machine.otherwise ∷ []) [] (λ x. x.1)
        lexemes.now at result }
{
    if !is_word(lexemes, at, CWord::Else) {
        return Ok((CStmt::If(condition, body), at));
    }
    let (else_body, next) = block(alloc, lexemes, at + 1, room)?;
    Ok((CStmt::IfElse(condition, body, else_body), next))
}

/// What stands after `while`, its block having so much room in it.
#[cycle(statements)]
fn after_while(
    alloc: Global,
    lexemes: &[Lexeme<'_>],
    at: usize,
    room: u8,
) -> Result<(CStmt, usize), ParseError>
    ensures reads { IfOk result (λ x. ReadsAfter (t.word While) lexemes.now at x.1
        (stmt_then (stmt_of x.0))) }
    ensures is { IfOk result (λ x. IsStmt language.expressions (room + 1) (stmt_of x.0)) }
    ensures follows { TurnsWhere (WithRoom true room) while_rest [] (λ x. x.1)
        lexemes.now at result }
{
    let open = one_condition(lexemes, at)?;
    let (body, next) = block(alloc, lexemes, open, room)?;
    Ok((CStmt::While(body), next))
}
