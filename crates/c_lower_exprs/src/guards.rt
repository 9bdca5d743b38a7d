//! Code before an operator that traps where the operator has no value in 64 bits.

ghost use Rattle.std.specs.Prelude.{◌≡◌, ◌++◌, [], ◌∷◌, map, IfOk, OnOk};
ghost use Rattle.vlt_ops.specs.Operator.{trap_number};
ghost use Rattle.vlt_ops.specs.declared.Op.TheVariants.{Divide};
ghost use Rattle.c_syntax.specs.View.{expr_of, stmt_of, stmts_of};
ghost use Rattle.c_lower.specs.Expressions.{atom_expr};
ghost use Rattle.c_lower.specs.Guards.{binary_guards, trap_if, unary_guards};
ghost use Rattle.c_lower_exprs.specs.Coded.{atom_of, trap};

use crate::atom::Atom;
use crate::nodes::Node;
use crate::overflows::{
    difference_overflows, is_least, is_zero, product_overflows, quotient_overflows, sum_overflows,
};
use c_syntax::{CArg, CCall, CPrim, CStmt};
use std::alloc::Global;
use vlt_base::{Items, Memory};
use vlt_ops::{Op, TrapKind};

/// The call by which the program traps.
fn trap(alloc: Global, kind: TrapKind) -> Result<Items<CStmt>, Memory>
    ensures { IfOk result (λ xs. stmts_of xs ≡ trap (trap_number kind)) }
{
    let mut args = Items::new(alloc);
    args.push(CArg::Number(i64::from(kind.number())))?;
    let mut stmts = Items::new(alloc);
    stmts.push(CStmt::Call(CCall::Primitive(CPrim::Trap, args)))?;
    Ok(stmts)
}

/// The trap where an expression holds.
fn trap_if(
    alloc: Global,
    out: &mut Items<CStmt>,
    condition: Node,
    kind: TrapKind,
) -> Result<(), Memory>
    ensures { OnOk result (map stmt_of out.new
        ≡ map stmt_of out.old ++ trap_if (expr_of condition) (trap_number kind) ∷ []) }
{
    let body = trap(alloc, kind)?;
    out.push(CStmt::If(condition.into_inner(), body))?;
    Ok(())
}

/// The guards of a quotient and of a remainder.
fn quotient_guards(alloc: Global, out: &mut Items<CStmt>, a: Atom, b: Atom) -> Result<(), Memory>
    ensures { OnOk result (map stmt_of out.new ≡ map stmt_of out.old
        ++ binary_guards Divide (atom_expr (atom_of a)) (atom_expr (atom_of b))) }
{
    let zero = is_zero(alloc, b)?;
    trap_if(alloc, out, zero, TrapKind::ZeroDivisor)?;
    let overflows = quotient_overflows(alloc, a, b)?;
    trap_if(alloc, out, overflows, TrapKind::Overflow)
}

/// The guards of an operator before one operand.
pub fn unary_guards(alloc: Global, out: &mut Items<CStmt>, op: Op, a: Atom) -> Result<(), Memory>
    ensures { OnOk result (map stmt_of out.new
        ≡ map stmt_of out.old ++ unary_guards op (atom_expr (atom_of a))) }
{
    match op {
        Op::Negate => {
            let least = is_least(alloc, a)?;
            trap_if(alloc, out, least, TrapKind::Overflow)
        }
        _ => Ok(()),
    }
}

/// The guards of an operator between two operands.
pub fn binary_guards(
    alloc: Global,
    out: &mut Items<CStmt>,
    op: Op,
    a: Atom,
    b: Atom,
) -> Result<(), Memory>
    ensures { OnOk result (map stmt_of out.new ≡ map stmt_of out.old
        ++ binary_guards op (atom_expr (atom_of a)) (atom_expr (atom_of b))) }
{
    match op {
        Op::Add => {
            let overflows = sum_overflows(alloc, a, b)?;
            trap_if(alloc, out, overflows, TrapKind::Overflow)
        }
        Op::Subtract => {
            let overflows = difference_overflows(alloc, a, b)?;
            trap_if(alloc, out, overflows, TrapKind::Overflow)
        }
        Op::Multiply => {
            let overflows = product_overflows(alloc, a, b)?;
            trap_if(alloc, out, overflows, TrapKind::Overflow)
        }
        Op::Divide => quotient_guards(alloc, out, a, b),
        Op::Remainder => quotient_guards(alloc, out, a, b),
        _ => Ok(()),
    }
}
