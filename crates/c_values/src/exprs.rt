//! The values of expressions.

ghost use Rattle.std.specs.Prelude.{◌≡◌, Ok, IfSome};
ghost use Rattle.vlt_ops.specs.Operator.{applied};
ghost use Rattle.vlt_rings.specs.Things.{Things};
ghost use Rattle.c_syntax.specs.View.{expr_of, arg_of};
ghost use Rattle.c_meaning.specs.Values.{base_in, cell_value, or_rule, value_of, arg_value};
ghost use Rattle.c_memory.specs.Shown.{IsSound, Holds, blocks_of};
ghost use Rattle.c_values.specs.Shown.{shown_vars, AreMadeSlots, IsValue, IsReference, IsDecided, IsNumberOf};

use crate::value::Value;
use crate::vars::Vars;
use c_memory::{Blocks, Ref};
use c_syntax::rules::{OVERFLOW, UNSET, ZERO_DIVISOR};
use c_syntax::{CArg, CCell, CExpr, CVar};
use vlt_ops::{Op, TrapKind, apply};

/// What an operator without a short way gives.
fn operate(op: Op, a: i64, b: i64) -> Result<Value, u8>
    ensures { (ts : Things) → IsValue ts result (or_rule (applied op a b)) }
{
    match apply(op, a, b) {
        Ok(z) => Ok(Value::Number(z)),
        Err(TrapKind::Overflow) => Err(OVERFLOW),
        Err(TrapKind::ZeroDivisor) => Err(ZERO_DIVISOR),
    }
}

/// The reference in the `p` variable of a number.
pub fn base(p: u64, vars: Vars) -> Result<Option<Ref>, u8>
    ensures { (ts : Things) → AreMadeSlots ts vars.entry.values.now →
        IsReference ts result (base_in p (shown_vars vars.entry)) }
{
    let v = CVar {
        reference: true,
        number: p,
    };
    match vars.get(v) {
        Some(Value::Reference(r)) => Ok(r),
        Some(Value::Number(_)) => Err(UNSET),
        None => Err(UNSET),
    }
}

/// The value of a cell.
fn cell(x: CCell, vars: Vars, blocks: &Blocks) -> Result<Value, u8>
    requires sound { IsSound blocks.now }
    ensures { (ts : Things) → Holds blocks.now ts → AreMadeSlots ts vars.entry.values.now
        → IsValue ts result (cell_value x (shown_vars vars.entry) (blocks_of blocks.now ts)) }
{
    match x {
        CCell::Number { base: p, index } => match base(p, vars) {
            Ok(b) => match blocks.read_n(b, index) {
                Ok(z) => Ok(Value::Number(z)),
                Err(rule) => Err(rule),
            },
            Err(rule) => Err(rule),
        },
        CCell::Reference { base: p, index } => match base(p, vars) {
            Ok(b) => match blocks.read_r(b, index) {
                Ok(r) => Ok(Value::Reference(r)),
                Err(rule) => Err(rule),
            },
            Err(rule) => Err(rule),
        },
    }
}

/// The value of an argument. A text has none.
pub fn arg(x: &CArg, vars: Vars) -> Result<Value, u8>
    ensures { (ts : Things) → AreMadeSlots ts vars.entry.values.now →
        IsValue ts result (arg_value (arg_of x.now) (shown_vars vars.entry)) }
{
    match x {
        CArg::Number(z) => Ok(Value::Number(*z)),
        CArg::Var(v) => match vars.get(*v) {
            Some(a) => Ok(a),
            None => Err(UNSET),
        },
        CArg::Null => Ok(Value::Reference(None)),
        CArg::Text(_) => Err(UNSET),
    }
}

/// The value of an expression, or the rule that it breaks.
pub fn eval(e: &CExpr, vars: Vars, blocks: &Blocks) -> Result<Value, u8>
    requires sound { IsSound blocks.now }
    ensures { (ts : Things) → Holds blocks.now ts → AreMadeSlots ts vars.entry.values.now
        → IsValue ts result
        (value_of (expr_of e.now) (shown_vars vars.entry) (blocks_of blocks.now ts)) }
{
    // Most expressions are of numbers and variables and break no rule, which `number` finds in fewer instructions.
    match number(e, &vars) {
        Some(z) => Ok(Value::Number(z)),
        None => value(e, vars, blocks),
    }
}

/// What an operator gives of two numbers, if it breaks no rule.
#[inline(always)]
fn combine(op: Op, a: i64, b: i64) -> Option<i64>
    ensures { IfSome result (λ z. applied op a b ≡ Ok z) }
{
    apply(op, a, b).ok()
}

/// The number of an operand, if `number` finds it. Most operands are numbers and variables: these need no call.
#[inline(always)]
#[cycle(numbers)]
fn operand(e: &CExpr, vars: &Vars) -> Option<i64>
    ensures { IfSome result (IsNumberOf (expr_of e.now) (shown_vars vars.now)) }
{
    match e {
        CExpr::Number(z) => Some(*z),
        CExpr::Var(v) => vars.number(*v),
        _ => number(e, vars),
    }
}

/// The number of an expression of numbers and variables, if it breaks no rule.
#[cycle(numbers)]
pub fn number(e: &CExpr, vars: &Vars) -> Option<i64>
    ensures { IfSome result (IsNumberOf (expr_of e.now) (shown_vars vars.now)) }
{
    match e {
        CExpr::Number(z) => Some(*z),
        CExpr::Var(v) => vars.number(*v),
        CExpr::Cell(_) => None,
        CExpr::Null => None,
        CExpr::Unary(op, a) => {
            let x = operand(a.get(), vars)?;
            combine(*op, x, 0)
        }
        CExpr::Binary(op, a, b) => {
            let x = operand(a.get(), vars)?;
            match decided(*op, x) {
                Some(z) => Some(z),
                None => {
                    let y = operand(b.get(), vars)?;
                    combine(*op, x, y)
                }
            }
        }
    }
}

/// The value of an expression, or the rule that it breaks, at each operator.
fn value(e: &CExpr, vars: Vars, blocks: &Blocks) -> Result<Value, u8>
    requires sound { IsSound blocks.now }
    ensures { (ts : Things) → Holds blocks.now ts → AreMadeSlots ts vars.entry.values.now
        → IsValue ts result
        (value_of (expr_of e.now) (shown_vars vars.entry) (blocks_of blocks.now ts)) }
{
    match e {
        CExpr::Number(z) => Ok(Value::Number(*z)),
        CExpr::Var(v) => match vars.get(*v) {
            Some(a) => Ok(a),
            None => Err(UNSET),
        },
        CExpr::Cell(x) => cell(*x, vars, blocks),
        CExpr::Null => Ok(Value::Reference(None)),
        CExpr::Unary(op, a) => match value(a.get(), vars, blocks) {
            Ok(Value::Number(z)) => operate(*op, z, 0),
            Ok(Value::Reference(_)) => Err(UNSET),
            Err(rule) => Err(rule),
        },
        CExpr::Binary(op, a, b) => match value(a.get(), vars, blocks) {
            Ok(Value::Number(x)) => match decided(*op, x) {
                Some(z) => Ok(Value::Number(z)),
                None => match value(b.get(), vars, blocks) {
                    Ok(Value::Number(y)) => operate(*op, x, y),
                    Ok(Value::Reference(_)) => Err(UNSET),
                    Err(rule) => Err(rule),
                },
            },
            Ok(Value::Reference(_)) => Err(UNSET),
            Err(rule) => Err(rule),
        },
    }
}

/// The number that `&&` or `||` gives where the left side decides it.
fn decided(op: Op, x: i64) -> Option<i64>
    ensures { IsDecided op x result }
{
    match op {
        Op::And => { if x == 0 { Some(0) } else { None } }
        Op::Or => { if x == 0 { None } else { Some(1) } }
        _ => None,
    }
}
