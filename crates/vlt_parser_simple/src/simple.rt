//! Statements without blocks.

ghost use Rattle.std.specs.Prelude.{◌∷◌, [], ◌+◌, None};
ghost use Rattle.vlt_tokens.specs.declared.token.TokenKind.TheVariants as kinds;
ghost use Rattle.vlt_tokens.specs.declared.token.Word.TheVariants.{Print, Return, Release, Become, Swap, Open, Into};
ghost use Rattle.vlt_tokens.specs.declared.token.Mark.TheVariants.{OpenParen, CloseParen, Assign, Semicolon, Dot, At, Comma};
ghost use Rattle.vlt_syntax.specs.Spelling.{condition_then, stmt_then};
ghost use Rattle.vlt_syntax.specs.Grammar.{IsExpr, IsRight, language};
ghost use Rattle.vlt_syntax.specs.Places.{stmt_at};
ghost use Rattle.vlt_syntax.specs.View.{expr_of, right_of, stmt_of};
ghost use Rattle.vlt_automaton.specs.Language as automaton;
ghost use Rattle.vlt_parser_simple.specs.Simple.{IsSimple, condition_at, set_then, set_at};
ghost use Rattle.vlt_parser_exprs.specs.Ahead.{lexemes_from, BeginsWith};
ghost use Rattle.vlt_parser_exprs.specs.Promises.{Advances, Holds, Lies, Spells, Takes};

use crate::rights::{call, returned, right};
use std::alloc::Global;
use vlt_parser_exprs::ParseError;
use vlt_parser_exprs::exprs::expr;
use vlt_parser_exprs::lists::some_listed;
use vlt_parser_exprs::tokens::{keyword, kind, name, next_sign, sign, span, unexpected};
use vlt_parser_exprs::types::ty;
use vlt_syntax::{Expr, Right, Stmt};
use vlt_tokens::{Mark, Token, TokenKind, Word};

/// An expression in parentheses.
pub fn condition(
    alloc: Global,
    tokens: &[Token<'_>],
    at: usize,
) -> Result<(Expr, usize), ParseError>
    ensures spelled { Spells expr_of condition_then tokens.now at result }
    ensures placed { Lies expr_of condition_at tokens.now at result }
    ensures right { Holds expr_of (IsExpr language) result }
    ensures moves { Advances tokens.now at result }
    ensures takes { Takes (automaton.sign OpenParen ∷ automaton.thing automaton.an_expr ∷
        automaton.sign CloseParen ∷ []) tokens.now at result }
{
    let next = sign(tokens, at, Mark::OpenParen)?;
    let (found, next) = expr(alloc, tokens, next)?;
    let next = sign(tokens, next, Mark::CloseParen)?;
    Ok((found, next))
}

/// `= 1;`
fn set_to(alloc: Global, tokens: &[Token<'_>], at: usize) -> Result<(Right, usize), ParseError>
    ensures spelled { Spells right_of set_then tokens.now at result }
    ensures placed { Lies right_of set_at tokens.now at result }
    ensures right { Holds right_of (IsRight language) result }
    ensures moves { Advances tokens.now at result }
    ensures takes { Takes (automaton.sign Assign ∷ automaton.right ∷
        automaton.sign Semicolon ∷ []) tokens.now at result }
{
    let next = sign(tokens, at, Mark::Assign)?;
    let (value, next) = right(alloc, tokens, next)?;
    let next = sign(tokens, next, Mark::Semicolon)?;
    Ok((value, next))
}

/// `int x = 1;`
fn declare(alloc: Global, tokens: &[Token<'_>], at: usize) -> Result<(Stmt, usize), ParseError>
    ensures spelled { Spells stmt_of stmt_then tokens.now at result }
    ensures placed { Lies stmt_of stmt_at tokens.now at result }
    ensures right { Holds stmt_of IsSimple result }
    ensures moves { Advances tokens.now at result }
    ensures takes { Takes (automaton.thing automaton.a_ty ∷ automaton.name ∷
        automaton.sign Assign ∷ automaton.right ∷ automaton.sign Semicolon ∷ [])
        tokens.now at result }
{
    let (ty, next) = ty(alloc, tokens, at)?;
    let (name, next) = name(alloc, tokens, next)?;
    let (value, next) = set_to(alloc, tokens, next)?;
    let at = span(tokens, at, next);
    Ok((
        Stmt::Declare {
            ty,
            name,
            value,
            at,
        },
        next,
    ))
}

/// `x = 1;`
fn assign(alloc: Global, tokens: &[Token<'_>], at: usize) -> Result<(Stmt, usize), ParseError>
    ensures spelled { Spells stmt_of stmt_then tokens.now at result }
    ensures placed { Lies stmt_of stmt_at tokens.now at result }
    ensures right { Holds stmt_of IsSimple result }
    ensures moves { Advances tokens.now at result }
    ensures takes { Takes (automaton.name ∷ automaton.sign Assign ∷ automaton.right ∷
        automaton.sign Semicolon ∷ []) tokens.now at result }
{
    let (name, next) = name(alloc, tokens, at)?;
    let (value, next) = set_to(alloc, tokens, next)?;
    let at = span(tokens, at, next);
    Ok((Stmt::Assign { name, value, at }, next))
}

/// `x.f = 1;`
fn put(alloc: Global, tokens: &[Token<'_>], at: usize) -> Result<(Stmt, usize), ParseError>
    ensures spelled { Spells stmt_of stmt_then tokens.now at result }
    ensures placed { Lies stmt_of stmt_at tokens.now at result }
    ensures right { Holds stmt_of IsSimple result }
    ensures moves { Advances tokens.now at result }
    ensures takes { Takes (automaton.name ∷ automaton.sign Dot ∷ automaton.name ∷
        automaton.sign Assign ∷ automaton.thing automaton.an_expr ∷ automaton.sign Semicolon ∷ [])
        tokens.now at result }
{
    let (base, next) = name(alloc, tokens, at)?;
    let next = sign(tokens, next, Mark::Dot)?;
    let (field, next) = name(alloc, tokens, next)?;
    let next = sign(tokens, next, Mark::Assign)?;
    let (value, next) = expr(alloc, tokens, next)?;
    let next = sign(tokens, next, Mark::Semicolon)?;
    let at = span(tokens, at, next);
    Ok((
        Stmt::Put {
            base,
            field,
            value,
            at,
        },
        next,
    ))
}

/// `f(1);`
fn call_stmt(alloc: Global, tokens: &[Token<'_>], at: usize) -> Result<(Stmt, usize), ParseError>
    ensures spelled { Spells stmt_of stmt_then tokens.now at result }
    ensures placed { Lies stmt_of stmt_at tokens.now at result }
    ensures right { Holds stmt_of IsSimple result }
    ensures moves { Advances tokens.now at result }
    ensures takes { Takes (automaton.name ∷ automaton.sign OpenParen ∷
        automaton.listed automaton.an_expr CloseParen None ∷ automaton.sign Semicolon ∷ [])
        tokens.now at result }
{
    let (called, next) = call(alloc, tokens, at)?;
    let next = sign(tokens, next, Mark::Semicolon)?;
    let at = span(tokens, at, next);
    Ok((Stmt::Call(called, at), next))
}

/// A statement that begins with a name.
#[tactic(auto, using(crate::proofs::Statements::stmt_assigns, crate::proofs::Statements::stmt_puts, crate::proofs::Statements::stmt_calls, crate::proofs::Statements::stmt_declares, vlt_parser_exprs::proofs::Runs::instead))]
fn named_stmt(alloc: Global, tokens: &[Token<'_>], at: usize) -> Result<(Stmt, usize), ParseError>
    requires { BeginsWith kinds.Name (lexemes_from tokens.now at)
        (lexemes_from tokens.now (at + 1)) }
    ensures spelled { Spells stmt_of stmt_then tokens.now at result }
    ensures placed { Lies stmt_of stmt_at tokens.now at result }
    ensures right { Holds stmt_of IsSimple result }
    ensures moves { Advances tokens.now at result }
    ensures takes { Takes (automaton.name ∷ automaton.after_stmt_name ∷ [])
        tokens.now at result }
{
    match next_sign(tokens, at + 1) {
        Some(Mark::Assign) => assign(alloc, tokens, at),
        Some(Mark::Dot) => put(alloc, tokens, at),
        Some(Mark::OpenParen) => call_stmt(alloc, tokens, at),
        _ => declare(alloc, tokens, at),
    }
}

/// `print(1);`
fn print(alloc: Global, tokens: &[Token<'_>], at: usize) -> Result<(Stmt, usize), ParseError>
    ensures spelled { Spells stmt_of stmt_then tokens.now at result }
    ensures placed { Lies stmt_of stmt_at tokens.now at result }
    ensures right { Holds stmt_of IsSimple result }
    ensures moves { Advances tokens.now at result }
    ensures takes { Takes (automaton.keyword Print ∷ automaton.sign OpenParen ∷
        automaton.thing automaton.an_expr ∷ automaton.sign CloseParen ∷
        automaton.sign Semicolon ∷ [])
        tokens.now at result }
{
    let next = keyword(tokens, at, Word::Print)?;
    let (value, next) = condition(alloc, tokens, next)?;
    let next = sign(tokens, next, Mark::Semicolon)?;
    let at = span(tokens, at, next);
    Ok((Stmt::Print(value, at), next))
}

/// `return;`, `return 1;` or `return 'A;`
fn return_stmt(alloc: Global, tokens: &[Token<'_>], at: usize) -> Result<(Stmt, usize), ParseError>
    ensures spelled { Spells stmt_of stmt_then tokens.now at result }
    ensures placed { Lies stmt_of stmt_at tokens.now at result }
    ensures right { Holds stmt_of IsSimple result }
    ensures moves { Advances tokens.now at result }
    ensures takes { Takes (automaton.keyword Return ∷ automaton.returned ∷ automaton.sign
        Semicolon ∷ []) tokens.now at result }
{
    let next = keyword(tokens, at, Word::Return)?;
    let (value, next) = returned(alloc, tokens, next)?;
    let next = sign(tokens, next, Mark::Semicolon)?;
    let at = span(tokens, at, next);
    Ok((Stmt::Return(value, at), next))
}

/// `release x;`
fn release(alloc: Global, tokens: &[Token<'_>], at: usize) -> Result<(Stmt, usize), ParseError>
    ensures spelled { Spells stmt_of stmt_then tokens.now at result }
    ensures placed { Lies stmt_of stmt_at tokens.now at result }
    ensures right { Holds stmt_of IsSimple result }
    ensures moves { Advances tokens.now at result }
    ensures takes { Takes (automaton.keyword Release ∷ automaton.name ∷
        automaton.sign Semicolon ∷ []) tokens.now at result }
{
    let next = keyword(tokens, at, Word::Release)?;
    let (variable, next) = name(alloc, tokens, next)?;
    let next = sign(tokens, next, Mark::Semicolon)?;
    let at = span(tokens, at, next);
    Ok((Stmt::Release(variable, at), next))
}

/// `become x@s;`
fn change_state(alloc: Global, tokens: &[Token<'_>], at: usize) -> Result<(Stmt, usize), ParseError>
    ensures spelled { Spells stmt_of stmt_then tokens.now at result }
    ensures placed { Lies stmt_of stmt_at tokens.now at result }
    ensures right { Holds stmt_of IsSimple result }
    ensures moves { Advances tokens.now at result }
    ensures takes { Takes (automaton.keyword Become ∷ automaton.name ∷ automaton.sign At ∷
        automaton.name ∷ automaton.sign Semicolon ∷ []) tokens.now at result }
{
    let next = keyword(tokens, at, Word::Become)?;
    let (variable, next) = name(alloc, tokens, next)?;
    let next = sign(tokens, next, Mark::At)?;
    let (state, next) = name(alloc, tokens, next)?;
    let next = sign(tokens, next, Mark::Semicolon)?;
    let at = span(tokens, at, next);
    Ok((
        Stmt::Become {
            variable,
            state,
            at,
        },
        next,
    ))
}

/// `swap x.f, v;`
fn swap(alloc: Global, tokens: &[Token<'_>], at: usize) -> Result<(Stmt, usize), ParseError>
    ensures spelled { Spells stmt_of stmt_then tokens.now at result }
    ensures placed { Lies stmt_of stmt_at tokens.now at result }
    ensures right { Holds stmt_of IsSimple result }
    ensures moves { Advances tokens.now at result }
    ensures takes { Takes (automaton.keyword Swap ∷ automaton.name ∷ automaton.sign Dot ∷
        automaton.name ∷ automaton.sign Comma ∷ automaton.name ∷ automaton.sign Semicolon ∷ [])
        tokens.now at result }
{
    let next = keyword(tokens, at, Word::Swap)?;
    let (base, next) = name(alloc, tokens, next)?;
    let next = sign(tokens, next, Mark::Dot)?;
    let (field, next) = name(alloc, tokens, next)?;
    let next = sign(tokens, next, Mark::Comma)?;
    let (variable, next) = name(alloc, tokens, next)?;
    let next = sign(tokens, next, Mark::Semicolon)?;
    let at = span(tokens, at, next);
    Ok((
        Stmt::Swap {
            base,
            field,
            variable,
            at,
        },
        next,
    ))
}

/// `open x into (v, w);`
fn open(alloc: Global, tokens: &[Token<'_>], at: usize) -> Result<(Stmt, usize), ParseError>
    ensures spelled { Spells stmt_of stmt_then tokens.now at result }
    ensures placed { Lies stmt_of stmt_at tokens.now at result }
    ensures right { Holds stmt_of IsSimple result }
    ensures moves { Advances tokens.now at result }
    ensures takes { Takes (automaton.keyword Open ∷ automaton.name ∷ automaton.keyword Into ∷
        automaton.sign OpenParen ∷ automaton.name ∷
        automaton.further automaton.a_name CloseParen None ∷
        automaton.sign Semicolon ∷ []) tokens.now at result }
{
    let next = keyword(tokens, at, Word::Open)?;
    let (variable, next) = name(alloc, tokens, next)?;
    let next = keyword(tokens, next, Word::Into)?;
    let next = sign(tokens, next, Mark::OpenParen)?;
    let (parts, next) = some_listed(alloc, tokens, next, Mark::CloseParen, None)?;
    let next = sign(tokens, next, Mark::Semicolon)?;
    let at = span(tokens, at, next);
    Ok((
        Stmt::Open {
            variable,
            parts,
            at,
        },
        next,
    ))
}

/// A statement without blocks.
#[tactic(auto, using(crate::proofs::Statements::simple_named, crate::proofs::Statements::simple_word, vlt_parser_exprs::proofs::Runs::instead))]
pub fn simple(alloc: Global, tokens: &[Token<'_>], at: usize) -> Result<(Stmt, usize), ParseError>
    ensures spelled { Spells stmt_of stmt_then tokens.now at result }
    ensures placed { Lies stmt_of stmt_at tokens.now at result }
    ensures right { Holds stmt_of IsSimple result }
    ensures moves { Advances tokens.now at result }
    ensures takes { Takes (automaton.thing automaton.a_simple ∷ []) tokens.now at result }
{
    match kind(tokens, at) {
        Some(TokenKind::Name) => named_stmt(alloc, tokens, at),
        Some(TokenKind::Keyword(word)) => match word {
            Word::Print => print(alloc, tokens, at),
            Word::Return => return_stmt(alloc, tokens, at),
            Word::Break => {
                let next = sign(tokens, at + 1, Mark::Semicolon)?;
                Ok((Stmt::Break(span(tokens, at, next)), next))
            }
            Word::Continue => {
                let next = sign(tokens, at + 1, Mark::Semicolon)?;
                Ok((Stmt::Continue(span(tokens, at, next)), next))
            }
            Word::Release => release(alloc, tokens, at),
            Word::Become => change_state(alloc, tokens, at),
            Word::Swap => swap(alloc, tokens, at),
            Word::Open => open(alloc, tokens, at),
            _ => declare(alloc, tokens, at),
        },
        _ => Err(unexpected(tokens, at)),
    }
}
