//! Expressions, by precedence climbing, and fields with their values.

ghost use Rattle.std.specs.Prelude.{◌≡◌, ◌≢◌, ◌∷◌, [], ◌+◌, ◌<◌, ◌≤◌, ℕ, suc, List, IfOk, IfErr, IfSome, IfNone, Some};
ghost use Rattle.vlt_base.specs.declared.limits.TheConstants as limits;
ghost use Rattle.vlt_ops.specs.Operator.{row_of};
ghost use Rattle.vlt_tokens.specs.declared.token.Mark.TheVariants.{OpenParen};
ghost use Rattle.vlt_syntax.specs.Tokens.{sign as a_sign};
ghost use Rattle.vlt_syntax.specs.Tree.{Expr as SeenExpr, Init as SeenInit, binary as a_binary};
ghost use Rattle.vlt_syntax.specs.Spelling.{sign_of, operator_of, prefix_of, expr_then, init_then};
ghost use Rattle.vlt_syntax.specs.Grammar.{level, BindsFrom, depth as depth_of, IsExpr, IsInit, language};
ghost use Rattle.vlt_syntax.specs.Places.{expr_at, init_at};
ghost use Rattle.vlt_syntax.specs.View.{expr_of, init_of};
ghost use Rattle.vlt_parser_exprs.specs.declared.error.ParseError.TheVariants.{Limit, Memory};
ghost use Rattle.vlt_automaton.specs.Language as automaton;
ghost use Rattle.vlt_parser_exprs.specs.Reading.{tokens_from, Moves, Stands};
ghost use Rattle.vlt_parser_exprs.specs.Ahead.{lexemes_from, next_level, Begins, Turns};
ghost use Rattle.vlt_parser_exprs.specs.Promises.{Advances, Holds, Lies, OperatorComes, Spells, Takes};

use crate::error::ParseError;
use crate::lists::Part;
use crate::tokens::{after_sign, kind, name, next_sign, sign, span, unexpected};
use std::alloc::Global;
use vlt_base::{Boxed, DEPTH, Span, limit};
use vlt_ops::{Op, row};
use vlt_syntax::{Expr, Init, Operands};
use vlt_tokens::{Mark, Token, TokenKind, Word};

/// An expression with its depth, from 1.
#[derive(Drop)]
struct Deep {
    expr: Expr,
    depth: usize,
}

/// The level of the operators that bind the least.
const LEAST: u8 = 2;

/// The room for the parts of something, if a part of this depth fits in.
fn deeper(depth: usize, room: usize) -> Result<usize, ParseError>
    ensures room { IfOk result (λ inside. room ≡ suc inside) }
    ensures fits { IfOk result (λ inside. depth ≤ inside) }
    ensures full { IfErr result (λ e. (room ≤ depth) × (e ≡ Limit limits.DEPTH)) }
{
    if depth >= room {
        return Err(ParseError::Limit(DEPTH));
    }
    Ok(room - 1)
}

/// The operator that a sign between two operands is.
fn infix(mark: Mark) -> Option<Op>
    ensures { result ≡ operator_of mark }
{
    match mark {
        Mark::Star => Some(Op::Multiply),
        Mark::Slash => Some(Op::Divide),
        Mark::Percent => Some(Op::Remainder),
        Mark::Plus => Some(Op::Add),
        Mark::Minus => Some(Op::Subtract),
        Mark::Less => Some(Op::Less),
        Mark::LessEqual => Some(Op::LessOrEqual),
        Mark::Greater => Some(Op::Greater),
        Mark::GreaterEqual => Some(Op::GreaterOrEqual),
        Mark::Equal => Some(Op::Equal),
        Mark::NotEqual => Some(Op::NotEqual),
        Mark::And => Some(Op::BitAnd),
        Mark::Xor => Some(Op::BitXor),
        Mark::Or => Some(Op::BitOr),
        Mark::AndAnd => Some(Op::And),
        Mark::OrOr => Some(Op::Or),
        _ => None,
    }
}

/// The operator that a sign before an operand is.
fn prefix(mark: Mark) -> Option<Op>
    ensures which { result ≡ prefix_of mark }
    ensures arity { IfSome result (λ op. (row_of op).arity ≡ 1) }
    ensures level { IfSome result (λ op. level op ≡ 11) }
{
    match mark {
        Mark::Minus => Some(Op::Negate),
        Mark::Not => Some(Op::Not),
        _ => None,
    }
}

/// An operator between two operands, with its level.
#[derive(Clone, Copy)]
struct BinaryOperator {
    op: Op,
    level: u8,
}

/// The operator between two operands that comes next, if it binds at least as tightly as `least`.
fn operator(tokens: &[Token<'_>], at: usize, least: u8) -> Option<BinaryOperator>
    requires { 1 ≤ least }
    ensures spelled { IfSome result (λ x. tokens_from tokens.now at ≡ a_sign (sign_of x.op) ∷
        tokens_from tokens.now (at + 1)) }
    ensures arity { IfSome result (λ x. (row_of x.op).arity ≡ 2) }
    ensures level { IfSome result (λ x. x.level ≡ level x.op) }
    ensures binds { IfSome result (λ x. (least ≤ level x.op) ×
        (next_level (lexemes_from tokens.now at) ≡ level x.op)) }
    ensures none { IfNone result (next_level (lexemes_from tokens.now at) < least) }
    ensures moves { IfSome result (λ x. Moves tokens.now at (at + 1)) }
    ensures begins { IfSome result (λ x. OperatorComes x.op tokens.now at) }
{
    let op = infix(next_sign(tokens, at)?)?;
    let level = row(op).level;
    if level < least {
        return None;
    }
    Some(BinaryOperator { op, level })
}

/// A variable, or a field of one.
#[tactic(auto, using(crate::proofs::Expressions::variable_dot, crate::proofs::Expressions::variable_alone))]
fn variable(alloc: Global, tokens: &[Token<'_>], at: usize) -> Result<(Expr, usize), ParseError>
    ensures spelled { Spells expr_of expr_then tokens.now at result }
    ensures placed { Lies expr_of expr_at tokens.now at result }
    ensures binds { IfOk result (λ x. (least : ℕ) → BindsFrom least (expr_of x.0)) }
    ensures depth { IfOk result (λ x. depth_of (expr_of x.0) ≡ 1) }
    ensures moves { Advances tokens.now at result }
    ensures takes { (fs : List automaton.Pending) → Turns (automaton.name ∷
        automaton.after_variable 1 fs ∷ []) (λ x. automaton.after_operand 1 fs ∷ []) (λ x. x.1)
        tokens.now at result }
{
    let (base, next) = name(alloc, tokens, at)?;
    match after_sign(tokens, next, Mark::Dot) {
        Some(next) => {
            let (field, next) = name(alloc, tokens, next)?;
            Ok((Expr::Field { base, field }, next))
        }
        None => Ok((Expr::Variable(base), next)),
    }
}

/// What begins with no operator but one before an operand.
#[tactic(auto, using(crate::proofs::Expressions::operand_named, crate::proofs::Expressions::operand_taken))]
#[cycle(expression)]
fn primary(
    alloc: Global,
    tokens: &[Token<'_>],
    at: usize,
    room: usize,
) -> Result<(Deep, usize), ParseError>
    requires { 1 ≤ room }
    ensures spelled { IfOk result (λ x. tokens_from tokens.now at ≡
        expr_then (expr_of x.0.expr) (tokens_from tokens.now x.1)) }
    ensures placed { IfOk result (λ x. Stands expr_at tokens.now at (expr_of x.0.expr) x.1) }
    ensures binds { IfOk result (λ x. (least : ℕ) → least ≤ 11 →
        BindsFrom least (expr_of x.0.expr)) }
    ensures depth { IfOk result (λ x. x.0.depth ≡ depth_of (expr_of x.0.expr)) }
    ensures within { IfOk result (λ x. (1 ≤ x.0.depth) × (x.0.depth ≤ room)) }
    ensures moves { Advances tokens.now at result }
    ensures takes { (fs : List automaton.Pending) → Turns (automaton.operand room fs ∷
        []) (λ x. automaton.after_operand x.0.depth fs ∷ []) (λ x. x.1) tokens.now at result }
{
    let (expr, next) = match kind(tokens, at) {
        Some(TokenKind::Number(value)) => (Expr::Number(value, span(tokens, at, at + 1)), at + 1),
        Some(TokenKind::Keyword(Word::True)) => (Expr::True(span(tokens, at, at + 1)), at + 1),
        Some(TokenKind::Keyword(Word::False)) => (Expr::False(span(tokens, at, at + 1)), at + 1),
        Some(TokenKind::Name) => variable(alloc, tokens, at)?,
        Some(TokenKind::Sign(Mark::OpenParen)) => return group(alloc, tokens, at + 1, at, room),
        Some(TokenKind::Sign(mark)) => return unary(alloc, tokens, at, mark, room),
        _ => return Err(unexpected(tokens, at)),
    };
    Ok((Deep { expr, depth: 1 }, next))
}

/// An expression in parentheses, after the first one.
#[tactic(auto, using(crate::proofs::Expressions::group_opens, crate::proofs::Expressions::group_full, crate::proofs::Expressions::group_closes, crate::proofs::Expressions::group_stays_open))]
#[cycle(expression)]
fn group(
    alloc: Global,
    tokens: &[Token<'_>],
    at: usize,
    from: usize,
    room: usize,
) -> Result<(Deep, usize), ParseError>
    requires room { 1 ≤ room }
    requires following { Moves tokens.now from at }
    requires one { at ≡ from + 1 }
    requires opens { Begins (a_sign OpenParen) (lexemes_from tokens.now from)
        (lexemes_from tokens.now at) }
    ensures spelled { IfOk result (λ x. a_sign OpenParen ∷ tokens_from tokens.now at ≡
        expr_then (expr_of x.0.expr) (tokens_from tokens.now x.1)) }
    ensures placed { IfOk result (λ x. Stands expr_at tokens.now from (expr_of x.0.expr) x.1) }
    ensures binds { IfOk result (λ x. (least : ℕ) → BindsFrom least (expr_of x.0.expr)) }
    ensures depth { IfOk result (λ x. x.0.depth ≡ depth_of (expr_of x.0.expr)) }
    ensures within { IfOk result (λ x. (1 ≤ x.0.depth) × (x.0.depth ≤ room)) }
    ensures moves { Advances tokens.now at result }
    ensures takes { (fs : List automaton.Pending) → Turns (automaton.operand room fs ∷
        []) (λ x. automaton.after_operand x.0.depth fs ∷ []) (λ x. x.1) tokens.now from result }
{
    let inside = deeper(1, room)?;
    let (inner, next) = expression(alloc, tokens, at, LEAST, inside)?;
    let next = sign(tokens, next, Mark::CloseParen)?;
    let expr = Expr::Group(Boxed::new(alloc, inner.expr)?, span(tokens, from, next));
    let depth = inner.depth + 1;
    Ok((Deep { expr, depth }, next))
}

/// An operator with its operand, where the sign is one.
#[tactic(auto, using(crate::proofs::Expressions::prefix_opens, crate::proofs::Expressions::prefix_full, crate::proofs::Expressions::no_prefix))]
#[cycle(expression)]
fn unary(
    alloc: Global,
    tokens: &[Token<'_>],
    at: usize,
    mark: Mark,
    room: usize,
) -> Result<(Deep, usize), ParseError>
    requires room { 1 ≤ room }
    requires here { tokens_from tokens.now at ≡ a_sign mark ∷ tokens_from tokens.now (at + 1) }
    requires within { Moves tokens.now at (at + 1) }
    requires begins { Begins (a_sign mark) (lexemes_from tokens.now at)
        (lexemes_from tokens.now (at + 1)) }
    requires no_group { mark ≢ OpenParen }
    ensures spelled { IfOk result (λ x. tokens_from tokens.now at ≡
        expr_then (expr_of x.0.expr) (tokens_from tokens.now x.1)) }
    ensures placed { IfOk result (λ x. Stands expr_at tokens.now at (expr_of x.0.expr) x.1) }
    ensures binds { IfOk result (λ x. (least : ℕ) → least ≤ 11 →
        BindsFrom least (expr_of x.0.expr)) }
    ensures depth { IfOk result (λ x. x.0.depth ≡ depth_of (expr_of x.0.expr)) }
    ensures within { IfOk result (λ x. (1 ≤ x.0.depth) × (x.0.depth ≤ room)) }
    ensures moves { Advances tokens.now at result }
    ensures takes { (fs : List automaton.Pending) → Turns (automaton.operand room fs ∷
        []) (λ x. automaton.after_operand x.0.depth fs ∷ []) (λ x. x.1) tokens.now at result }
{
    let Some(op) = prefix(mark) else {
        return Err(unexpected(tokens, at));
    };
    let inside = deeper(1, room)?;
    let (operand, next) = primary(alloc, tokens, at + 1, inside)?;
    let depth = operand.depth + 1;
    let expr = Expr::Unary {
        op,
        operand: Boxed::new(alloc, operand.expr)?,
        at: span(tokens, at, next),
    };
    Ok((Deep { expr, depth }, next))
}

/// Two expressions with an operator between them.
#[tactic(auto, using(vlt_syntax::proofs::Viewing::binary_seen))]
fn binary(alloc: Global, op: Op, left: Expr, right: Expr, at: Span) -> Result<Expr, ParseError>
    ensures made { IfOk result (λ e. expr_of e ≡
        a_binary op (expr_of left) (expr_of right) at) }
    ensures memory { IfErr result (λ e. e ≡ Memory) }
{
    let operands = Boxed::new(alloc, Operands { left, right })?;
    Ok(Expr::Binary { op, operands, at })
}

/// The longest expression whose operators outside of operands are of level `least` or above.
#[tactic(auto, using(crate::proofs::Expressions::operator_goes_on, crate::proofs::Expressions::operator_full, crate::proofs::Expressions::right_ended))]
#[cycle(expression)]
fn expression(
    alloc: Global,
    tokens: &[Token<'_>],
    at: usize,
    least: u8,
    room: usize,
) -> Result<(Deep, usize), ParseError>
    requires room { 1 ≤ room }
    requires levels { (1 ≤ least) × (least ≤ 11) }
    ensures spelled { IfOk result (λ x. tokens_from tokens.now at ≡
        expr_then (expr_of x.0.expr) (tokens_from tokens.now x.1)) }
    ensures placed { IfOk result (λ x. Stands expr_at tokens.now at (expr_of x.0.expr) x.1) }
    ensures binds { IfOk result (λ x. BindsFrom least (expr_of x.0.expr)) }
    ensures stops { IfOk result (λ x. next_level (lexemes_from tokens.now x.1) < least) }
    ensures depth { IfOk result (λ x. x.0.depth ≡ depth_of (expr_of x.0.expr)) }
    ensures within { IfOk result (λ x. (1 ≤ x.0.depth) × (x.0.depth ≤ room)) }
    ensures moves { Advances tokens.now at result }
    ensures takes { (fs : List automaton.Pending) →
        Turns (automaton.operand room (automaton.level_from least room ∷ fs) ∷
        []) (λ x. automaton.operations x.0.depth (automaton.level_from least room ∷ fs) ∷
        []) (λ x. x.1) tokens.now at result }
{
    let (mut first, mut here) = primary(alloc, tokens, at, room)?;
    while let Some(next) = operator(tokens, here, least) {
        let inside = deeper(first.depth, room)?;
        let (second, following) = expression(alloc, tokens, here + 1, next.level + 1, inside)?;
        let depth = first.depth.max(second.depth) + 1;
        let both = span(tokens, at, following);
        let expr = binary(alloc, next.op, first.expr, second.expr, both)?;
        first = Deep { expr, depth };
        here = following;
    }
    Ok((first, here))
}

/// The longest expression.
#[tactic(auto, using(crate::proofs::Expressions::expr_is, crate::proofs::Expressions::expr_ended))]
pub fn expr(alloc: Global, tokens: &[Token<'_>], at: usize) -> Result<(Expr, usize), ParseError>
    ensures spelled { Spells expr_of expr_then tokens.now at result }
    ensures placed { Lies expr_of expr_at tokens.now at result }
    ensures right { Holds expr_of (IsExpr language) result }
    ensures moves { Advances tokens.now at result }
    ensures takes { Takes (automaton.thing automaton.an_expr ∷ []) tokens.now at result }
{
    let (found, next) = expression(alloc, tokens, at, LEAST, limit(DEPTH) as usize)?;
    Ok((found.expr, next))
}

impl Part for Expr {
    ghost Seen = { SeenExpr };

    ghost view = { expr_of };

    ghost spell = { expr_then };

    ghost places = { expr_at };

    ghost right = { IsExpr language };

    ghost thing = { automaton.an_expr };

    fn part(alloc: Global, tokens: &[Token<'_>], at: usize) -> Result<(Expr, usize), ParseError> {
        expr(alloc, tokens, at)
    }
}

impl Part for Init {
    ghost Seen = { SeenInit };

    ghost view = { init_of };

    ghost spell = { init_then };

    ghost places = { init_at };

    ghost right = { IsInit language };

    ghost thing = { automaton.an_init };

    #[tactic(auto, using(crate::proofs::Expressions::init_is))]
    fn part(alloc: Global, tokens: &[Token<'_>], at: usize) -> Result<(Init, usize), ParseError> {
        let (field, next) = name(alloc, tokens, at)?;
        let next = sign(tokens, next, Mark::Colon)?;
        let (value, next) = expr(alloc, tokens, next)?;
        Ok((Init { field, value }, next))
    }
}
