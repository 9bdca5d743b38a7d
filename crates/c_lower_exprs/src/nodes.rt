//! Nodes of C expressions. A node is boxed as soon as it is made, so that nothing large is held where memory may run out.

ghost use Rattle.std.specs.Prelude.{◌≡◌, IfOk};
ghost use Rattle.c_syntax.specs.C as c;
ghost use Rattle.c_syntax.specs.View.{expr_of};
ghost use Rattle.c_lower.specs.Expressions.{atom_expr};
ghost use Rattle.c_lower.specs.Guards.{greatest, least};
ghost use Rattle.c_lower_exprs.specs.Coded.{atom_of, bound};

use crate::atom::Atom;
use c_syntax::CExpr;
use std::alloc::Global;
use vlt_base::{Boxed, Memory};
use vlt_ops::Op;

/// An expression in memory of its own.
pub type Node = Boxed<CExpr>;

/// An atom as an expression.
pub fn leaf(alloc: Global, atom: Atom) -> Result<Node, Memory>
    ensures { IfOk result (λ e. expr_of e ≡ atom_expr (atom_of atom)) }
{
    Ok(Boxed::new(alloc, atom.expr())?)
}

/// A number.
pub fn number(alloc: Global, value: i64) -> Result<Node, Memory>
    ensures { IfOk result (λ e. expr_of e ≡ c.number value) }
{
    Ok(Boxed::new(alloc, CExpr::Number(value))?)
}

/// An operator before an operand.
pub fn unary(alloc: Global, op: Op, operand: Node) -> Result<Node, Memory>
    ensures { IfOk result (λ e. expr_of e ≡ c.unary op (expr_of operand)) }
{
    Ok(Boxed::new(alloc, CExpr::Unary(op, operand))?)
}

/// An operator between two operands.
pub fn binary(alloc: Global, op: Op, left: Node, right: Node) -> Result<Node, Memory>
    ensures { IfOk result (λ e. expr_of e ≡ c.binary op (expr_of left) (expr_of right)) }
{
    Ok(Boxed::new(alloc, CExpr::Binary(op, left, right))?)
}

/// An operator between an atom and a number.
pub fn with_number(alloc: Global, op: Op, left: Atom, right: i64) -> Result<Node, Memory>
    ensures { IfOk result (λ e.
        expr_of e ≡ c.binary op (atom_expr (atom_of left)) (c.number right)) }
{
    let left = leaf(alloc, left)?;
    let right = number(alloc, right)?;
    binary(alloc, op, left, right)
}

/// The least number of 64 bits, which is no literal of C.
pub fn least(alloc: Global) -> Result<Node, Memory>
    ensures { IfOk result (λ e. expr_of e ≡ least) }
{
    let greatest = number(alloc, i64::MAX)?;
    let negated = unary(alloc, Op::Negate, greatest)?;
    let one = number(alloc, 1)?;
    binary(alloc, Op::Subtract, negated, one)
}

/// The least number of 64 bits or else the greatest.
pub fn bound(alloc: Global, low: bool) -> Result<Node, Memory>
    ensures { IfOk result (λ e. expr_of e ≡ bound low) }
{
    if low {
        least(alloc)
    } else {
        number(alloc, i64::MAX)
    }
}
