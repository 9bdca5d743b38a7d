//! Whether an operator leaves 64 bits.

ghost use Rattle.std.specs.Prelude.{◌≡◌, false, true, IfOk};
ghost use Rattle.c_syntax.specs.View.{expr_of};
ghost use Rattle.c_lower.specs.Expressions.{atom_expr};
ghost use Rattle.c_lower.specs.Guards as g;
ghost use Rattle.vlt_ops.specs.declared.Op.TheVariants.{Divide, Greater, Less};
ghost use Rattle.c_lower_exprs.specs.Coded.{atom_of, beyond, half, signs};

use crate::atom::Atom;
use crate::nodes::{Node, binary, bound, leaf, least, number, unary, with_number};
use std::alloc::Global;
use vlt_base::Memory;
use vlt_ops::Op;

/// Compares an atom with what is left of a bound.
fn beyond(alloc: Global, compare: Op, a: Atom, op: Op, low: bool, b: Atom) -> Result<Node, Memory>
    ensures { IfOk result (λ e. expr_of e
        ≡ beyond compare (atom_expr (atom_of a)) op low (atom_expr (atom_of b))) }
{
    let left = leaf(alloc, a)?;
    let right = leaf(alloc, b)?;
    let bound = bound(alloc, low)?;
    let rest = binary(alloc, op, bound, right)?;
    binary(alloc, compare, left, rest)
}

/// The sign of one, and the other against a bound.
fn half(
    alloc: Global,
    sign: Op,
    b: Atom,
    compare: Op,
    a: Atom,
    op: Op,
    low: bool,
) -> Result<Node, Memory>
    ensures { IfOk result (λ e. expr_of e
        ≡ half sign (atom_expr (atom_of b)) compare (atom_expr (atom_of a)) op low) }
{
    let sign = with_number(alloc, sign, b, 0)?;
    let beyond = beyond(alloc, compare, a, op, low, b)?;
    binary(alloc, Op::And, sign, beyond)
}

pub fn sum_overflows(alloc: Global, a: Atom, b: Atom) -> Result<Node, Memory>
    ensures { IfOk result (λ e. expr_of e
        ≡ g.sum_overflows (atom_expr (atom_of a)) (atom_expr (atom_of b))) }
{
    let high = half(alloc, Op::Greater, b, Op::Greater, a, Op::Subtract, false)?;
    let low = half(alloc, Op::Less, b, Op::Less, a, Op::Subtract, true)?;
    binary(alloc, Op::Or, high, low)
}

pub fn difference_overflows(alloc: Global, a: Atom, b: Atom) -> Result<Node, Memory>
    ensures { IfOk result (λ e. expr_of e
        ≡ g.difference_overflows (atom_expr (atom_of a)) (atom_expr (atom_of b))) }
{
    let high = half(alloc, Op::Less, b, Op::Greater, a, Op::Add, false)?;
    let low = half(alloc, Op::Greater, b, Op::Less, a, Op::Add, true)?;
    binary(alloc, Op::Or, high, low)
}

/// The signs of both.
fn signs(alloc: Global, left: Op, a: Atom, right: Op, b: Atom) -> Result<Node, Memory>
    ensures { IfOk result (λ e. expr_of e
        ≡ signs left (atom_expr (atom_of a)) right (atom_expr (atom_of b))) }
{
    let left = with_number(alloc, left, a, 0)?;
    let right = with_number(alloc, right, b, 0)?;
    binary(alloc, Op::And, left, right)
}

/// What is compared, where the factors have these signs.
fn quarter(
    alloc: Global,
    left: Op,
    a: Atom,
    right: Op,
    b: Atom,
    compared: Node,
) -> Result<Node, Memory>
    ensures { IfOk result (λ e. expr_of e ≡ g.both
        (signs left (atom_expr (atom_of a)) right (atom_expr (atom_of b))) (expr_of compared)) }
{
    let signs = signs(alloc, left, a, right, b)?;
    binary(alloc, Op::And, signs, compared)
}

/// Factors of which the left one is positive.
fn product_above(alloc: Global, a: Atom, b: Atom) -> Result<Node, Memory>
    ensures { IfOk result (λ e. expr_of e ≡ g.either
        (g.both (signs Greater (atom_expr (atom_of a)) Greater (atom_expr (atom_of b)))
        (beyond Greater (atom_expr (atom_of a)) Divide false (atom_expr (atom_of b))))
        (g.both (signs Greater (atom_expr (atom_of a)) Less (atom_expr (atom_of b)))
        (beyond Less (atom_expr (atom_of b)) Divide true (atom_expr (atom_of a))))) }
{
    let high = beyond(alloc, Op::Greater, a, Op::Divide, false, b)?;
    let high = quarter(alloc, Op::Greater, a, Op::Greater, b, high)?;
    let low = beyond(alloc, Op::Less, b, Op::Divide, true, a)?;
    let low = quarter(alloc, Op::Greater, a, Op::Less, b, low)?;
    binary(alloc, Op::Or, high, low)
}

pub fn product_overflows(alloc: Global, a: Atom, b: Atom) -> Result<Node, Memory>
    ensures { IfOk result (λ e. expr_of e
        ≡ g.product_overflows (atom_expr (atom_of a)) (atom_expr (atom_of b))) }
{
    let above = product_above(alloc, a, b)?;
    let low = beyond(alloc, Op::Less, a, Op::Divide, true, b)?;
    let low = quarter(alloc, Op::Less, a, Op::Greater, b, low)?;
    let three = binary(alloc, Op::Or, above, low)?;
    let high = beyond(alloc, Op::Less, b, Op::Divide, false, a)?;
    let high = quarter(alloc, Op::Less, a, Op::Less, b, high)?;
    binary(alloc, Op::Or, three, high)
}

/// Whether an atom is the least number.
pub fn is_least(alloc: Global, a: Atom) -> Result<Node, Memory>
    ensures { IfOk result (λ e. expr_of e ≡ g.equal (atom_expr (atom_of a)) g.least) }
{
    let left = leaf(alloc, a)?;
    let right = least(alloc)?;
    binary(alloc, Op::Equal, left, right)
}

/// Whether an atom is 0.
pub fn is_zero(alloc: Global, a: Atom) -> Result<Node, Memory>
    ensures { IfOk result (λ e. expr_of e ≡ g.equal (atom_expr (atom_of a)) (g.whole 0)) }
{
    with_number(alloc, Op::Equal, a, 0)
}

pub fn quotient_overflows(alloc: Global, a: Atom, b: Atom) -> Result<Node, Memory>
    ensures { IfOk result (λ e. expr_of e
        ≡ g.quotient_overflows (atom_expr (atom_of a)) (atom_expr (atom_of b))) }
{
    let least = is_least(alloc, a)?;
    let one = number(alloc, 1)?;
    let negated = unary(alloc, Op::Negate, one)?;
    let divisor = leaf(alloc, b)?;
    let divided = binary(alloc, Op::Equal, divisor, negated)?;
    binary(alloc, Op::And, least, divided)
}
