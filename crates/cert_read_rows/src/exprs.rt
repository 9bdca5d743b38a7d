//! Expressions, whose operands stand before their operator.

ghost use Rattle.std.specs.Prelude.{◌≡◌, ◌≤◌, ◌==◌, suc, max, nat_le, true, false, pos, map, option_map, option_and_then, IfSome, IfOk, MatchOption, [], ◌∷◌, Some, None};
ghost use Rattle.serde_json.specs.View.{view};
ghost use Rattle.vlt_core.specs.Core as core;
ghost use Rattle.vlt_core.specs.View.{expr_of};
ghost use Rattle.cert_rows.specs.Parts.{single, pair};
ghost use Rattle.cert_rows.specs.Values.{id, flag};
ghost use Rattle.cert_rows.specs.Expressions as s;
ghost use Rattle.cert_rows.specs.Expressions.{depth as depth_of, all_ops, op_at, number_fields};
ghost use Rattle.cert_read_rows.specs.Stacks.{stack_of, stack_of_last_tag};

use crate::ids::{one_id, two_ids};
use crate::ready::Ready;
use cert_read_parts::{array, flag, number, number_u8, one, text};
use serde_json::Value;
use std::alloc::{AllocError, Global};
use vlt_base::{Boxed, Items, VarId};
use vlt_core::Expr;
use vlt_ops::{Op, row};

fn op_at(n: u8) -> Op
    requires { n ≤ 17 }
    ensures { result ≡ op_at all_ops n }
{
    match n {
        0 => Op::Negate,
        1 => Op::Not,
        2 => Op::Multiply,
        3 => Op::Divide,
        4 => Op::Remainder,
        5 => Op::Add,
        6 => Op::Subtract,
        7 => Op::Less,
        8 => Op::LessOrEqual,
        9 => Op::Greater,
        10 => Op::GreaterOrEqual,
        11 => Op::Equal,
        12 => Op::NotEqual,
        13 => Op::BitAnd,
        14 => Op::BitXor,
        15 => Op::BitOr,
        16 => Op::And,
        _ => Op::Or,
    }
}

fn operator(items: &[Value]) -> Option<Op>
    ensures { result ≡ (single s.op).of_items (map view items.now) }
{
    let n = number_u8(one(items)?, 17)?;
    Some(op_at(n))
}

fn is_prefix(op: Op) -> bool
    ensures { result ≡ s.is_prefix op }
{
    row(op).arity == 1
}

/// The expression on top of the stack, taken off it.
fn take_last(stack: &mut Items<Ready>) -> Option<Ready>
    ensures { MatchOption result
        (stack_of stack.old ≡ [])
        (λ a. stack_of stack.old ≡ expr_of a.e ∷ stack_of stack.new) }
{
    stack.pop()
}

/// An expression of this depth goes on the stack.
fn with_expr(
    alloc: Global,
    e: Expr,
    depth: u8,
    stack: Items<Ready>,
) -> Result<Items<Ready>, AllocError>
    requires { depth ≡ depth_of (expr_of e) }
    ensures { IfOk result (λ r. stack_of r ≡ expr_of e ∷ stack_of stack) }
{
    let mut stack = stack;
    let e = Boxed::new(alloc, e)?;
    stack.push(Ready { e, depth })?;
    Ok(stack)
}

fn with_prefix(
    alloc: Global,
    op: Op,
    stack: Items<Ready>,
) -> Result<Option<Items<Ready>>, AllocError>
    ensures { IfOk result (λ r. option_map stack_of r ≡ s.with_prefix op (stack_of stack)) }
{
    let mut stack = stack;
    let Some(a) = take_last(&mut stack) else {
        return Ok(None);
    };
    if a.depth >= 64 {
        return Ok(None);
    }
    let depth = a.depth + 1;
    Ok(Some(with_expr(alloc, Expr::Un(op, a.e), depth, stack)?))
}

/// The depth of an operator over operands of these depths, unless that is too deep.
fn depth_over(a: u8, b: u8) -> Option<u8>
    ensures { MatchOption result
        (nat_le (suc (max a b)) 64 ≡ false)
        (λ d. (nat_le d 64 ≡ true) × (d ≡ suc (max a b))) }
{
    let most = if a < b { b } else { a };
    if most < 64 { Some(most + 1) } else { None }
}

fn with_infix(
    alloc: Global,
    op: Op,
    stack: Items<Ready>,
) -> Result<Option<Items<Ready>>, AllocError>
    ensures { IfOk result (λ r. option_map stack_of r ≡ s.with_infix op (stack_of stack)) }
{
    let mut stack = stack;
    let Some(b) = take_last(&mut stack) else {
        return Ok(None);
    };
    let Some(a) = take_last(&mut stack) else {
        return Ok(None);
    };
    let Some(depth) = depth_over(a.depth, b.depth) else {
        return Ok(None);
    };
    Ok(Some(with_expr(alloc, Expr::Bin(op, a.e, b.e), depth, stack)?))
}

fn with_operator(
    alloc: Global,
    op: Op,
    stack: Items<Ready>,
) -> Result<Option<Items<Ready>>, AllocError>
    ensures { IfOk result (λ r. option_map stack_of r ≡ s.with_operator (stack_of stack) op) }
{
    if is_prefix(op) {
        with_prefix(alloc, op, stack)
    } else {
        with_infix(alloc, op, stack)
    }
}

/// An expression without operands, if there is one, goes on the stack.
fn with_leaf(
    alloc: Global,
    leaf: Option<Expr>,
    stack: Items<Ready>,
) -> Result<Option<Items<Ready>>, AllocError>
    requires { IfSome leaf (λ e. depth_of (expr_of e) ≡ 1) }
    ensures { IfOk result (λ r. option_map stack_of r
        ≡ option_map (λ e. expr_of e ∷ stack_of stack) leaf) }
{
    match leaf {
        Some(e) => Ok(Some(with_expr(alloc, e, 1, stack)?)),
        None => Ok(None),
    }
}

fn number_leaf(items: &[Value]) -> Option<Expr>
    ensures value { option_map expr_of result
        ≡ option_map (λ n. core.number (pos n)) (number_fields.of_items (map view items.now)) }
    ensures leaf { IfSome result (λ e. depth_of (expr_of e) ≡ 1) }
{
    let n = number(one(items)?, 9223372036854775807)?;
    Some(Expr::Number(n as i64))
}

fn bool_leaf(items: &[Value]) -> Option<Expr>
    ensures value { option_map expr_of result
        ≡ option_map core.truth ((single flag).of_items (map view items.now)) }
    ensures leaf { IfSome result (λ e. depth_of (expr_of e) ≡ 1) }
{
    let b = flag(one(items)?)?;
    Some(Expr::Bool(b))
}

fn var_leaf(items: &[Value]) -> Option<Expr>
    ensures value { option_map expr_of result
        ≡ option_map core.var ((single id).of_items (map view items.now)) }
    ensures leaf { IfSome result (λ e. depth_of (expr_of e) ≡ 1) }
{
    let v = one_id(items)?;
    Some(Expr::Var(VarId(v)))
}

fn field_leaf(items: &[Value]) -> Option<Expr>
    ensures value { option_map expr_of result
        ≡ option_map (λ x. core.field x.0 x.1) ((pair id id).of_items (map view items.now)) }
    ensures leaf { IfSome result (λ e. depth_of (expr_of e) ≡ 1) }
{
    let (x, i) = two_ids(items)?;
    Some(Expr::Field(VarId(x), i))
}

/// The operator that is read goes on the stack, over its operands.
fn with_read_operator(
    alloc: Global,
    stack: Items<Ready>,
    items: &[Value],
) -> Result<Option<Items<Ready>>, AllocError>
    ensures { IfOk result (λ r. option_map stack_of r ≡ option_and_then
        (s.with_operator (stack_of stack)) ((single s.op).of_items (map view items.now))) }
{
    match operator(items) {
        Some(op) => with_operator(alloc, op, stack),
        None => Ok(None),
    }
}

fn stack_of_last_tag(
    alloc: Global,
    tag: &str,
    stack: Items<Ready>,
    items: &[Value],
) -> Result<Option<Items<Ready>>, AllocError>
    ensures { IfOk result (λ r. option_map stack_of r
        ≡ stack_of_last_tag (stack_of stack) tag.now (map view items.now)) }
{
    if tag == "f" {
        return with_leaf(alloc, field_leaf(items), stack);
    }
    if tag == "o" {
        return with_read_operator(alloc, stack, items);
    }
    Ok(None)
}

fn stack_of_tag(
    alloc: Global,
    tag: &str,
    stack: Items<Ready>,
    items: &[Value],
) -> Result<Option<Items<Ready>>, AllocError>
    ensures { IfOk result (λ r. option_map stack_of r
        ≡ s.stack_of_tag (stack_of stack) tag.now (map view items.now)) }
{
    if tag == "n" {
        return with_leaf(alloc, number_leaf(items), stack);
    }
    if tag == "b" {
        return with_leaf(alloc, bool_leaf(items), stack);
    }
    if tag == "v" {
        return with_leaf(alloc, var_leaf(items), stack);
    }
    stack_of_last_tag(alloc, tag, stack, items)
}

fn stack_after(
    alloc: Global,
    stack: Items<Ready>,
    v: &Value,
) -> Result<Option<Items<Ready>>, AllocError>
    ensures { IfOk result (λ r. option_map stack_of r
        ≡ s.stack_after (stack_of stack) (view v.now)) }
{
    let Some(items) = array(v) else {
        return Ok(None);
    };
    match items {
        [] => Ok(None),
        [t, rest @ ..] => match text(t) {
            Some(tag) => stack_of_tag(alloc, tag, stack, rest),
            None => Ok(None),
        },
    }
}

fn stack_after_all(alloc: Global, items: &[Value]) -> Result<Option<Items<Ready>>, AllocError>
    ensures { IfOk result (λ r. option_map stack_of r
        ≡ s.stack_after_all [] (map view items.now)) }
{
    let mut stack = Items::new(alloc);
    for v in items {
        let Some(more) = stack_after(alloc, stack, v)? else {
            return Ok(None);
        };
        stack = more;
    }
    Ok(Some(stack))
}

pub(crate) fn expr(alloc: Global, v: &Value) -> Result<Option<Expr>, AllocError>
    ensures { IfOk result (λ r. option_map expr_of r ≡ s.expr.of_data (view v.now)) }
{
    let Some(items) = array(v) else {
        return Ok(None);
    };
    let Some(mut stack) = stack_after_all(alloc, items)? else {
        return Ok(None);
    };
    let Some(ready) = stack.pop() else {
        return Ok(None);
    };
    if stack.is_empty() {
        Ok(Some(ready.e.into_inner()))
    } else {
        Ok(None)
    }
}
