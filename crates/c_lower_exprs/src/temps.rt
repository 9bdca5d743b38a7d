//! Values that go into a temp.

ghost use Rattle.std.specs.Prelude.{◌≡◌, ◌++◌, [], ◌∷◌, map, IfOk, OnOk};
ghost use Rattle.c_syntax.specs.C as c;
ghost use Rattle.c_syntax.specs.View.{expr_of, stmt_of};
ghost use Rattle.c_lower.specs.Expressions.{atom_expr, into_temp};
ghost use Rattle.c_lower_exprs.specs.Tables.{numbers_of, sort_of};
ghost use Rattle.c_lower_exprs.specs.Coded.{atom_of, binary_set, unary_set, EndsLazy, SetsTemp, WritesValue};

use crate::atom::Atom;
use crate::guards::{binary_guards, unary_guards};
use crate::nodes::{Node, binary, leaf, unary, with_number};
use crate::numbers::{Numbers, Temp};
use crate::sorts::Sort;
use c_syntax::{CStmt, CVar};
use std::alloc::Global;
use vlt_base::{Items, Memory};
use vlt_ops::Op;

/// What has the value of an expression, and the numbers after the temps of its code.
#[derive(Clone, Copy)]
pub struct Value {
    pub atom: Atom,
    pub next: Numbers,
}

/// Sets a new temp to an expression.
fn into_temp(out: &mut Items<CStmt>, t: Numbers, value: Node) -> Result<Value, Memory>
    ensures { IfOk result (λ x. WritesValue (into_temp [] (numbers_of t) (expr_of value))
        (map stmt_of out.old) (map stmt_of out.new) (atom_of x.atom) (numbers_of x.next)) }
{
    let temp = t.temp(Sort::Number)?;
    out.push(CStmt::Set(temp.variable, value.into_inner()))?;
    Ok(Value {
        atom: Atom::Var(temp.variable),
        next: temp.next,
    })
}

/// Sets a new temp to what an operator gives of an atom, after the guards.
pub fn set_unary(
    alloc: Global,
    out: &mut Items<CStmt>,
    t: Numbers,
    op: Op,
    a: Atom,
) -> Result<Value, Memory>
    ensures { IfOk result (λ x. WritesValue (unary_set op (atom_expr (atom_of a)) (numbers_of t))
        (map stmt_of out.old) (map stmt_of out.new) (atom_of x.atom) (numbers_of x.next)) }
{
    unary_guards(alloc, out, op, a)?;
    let operand = leaf(alloc, a)?;
    let value = unary(alloc, op, operand)?;
    into_temp(out, t, value)
}

/// Sets a new temp to what an operator gives of two atoms, after the guards.
pub fn set_binary(
    alloc: Global,
    out: &mut Items<CStmt>,
    t: Numbers,
    op: Op,
    a: Atom,
    b: Atom,
) -> Result<Value, Memory>
    ensures { IfOk result (λ x. WritesValue
        (binary_set op (atom_expr (atom_of a)) (atom_expr (atom_of b)) (numbers_of t))
        (map stmt_of out.old) (map stmt_of out.new) (atom_of x.atom) (numbers_of x.next)) }
{
    binary_guards(alloc, out, op, a, b)?;
    let left = leaf(alloc, a)?;
    let right = leaf(alloc, b)?;
    let value = binary(alloc, op, left, right)?;
    into_temp(out, t, value)
}

/// Sets a variable to an atom.
pub fn set_atom(out: &mut Items<CStmt>, variable: CVar, atom: Atom) -> Result<(), Memory>
    ensures { OnOk result (map stmt_of out.new
        ≡ map stmt_of out.old ++ c.set variable (atom_expr (atom_of atom)) ∷ []) }
{
    out.push(CStmt::Set(variable, atom.expr()))?;
    Ok(())
}

/// Sets a new temp to an atom.
pub fn set_temp(out: &mut Items<CStmt>, t: Numbers, sort: Sort, atom: Atom) -> Result<Temp, Memory>
    ensures { IfOk result (SetsTemp (numbers_of t) (sort_of sort) (atom_expr (atom_of atom))
        (map stmt_of out.old) (map stmt_of out.new)) }
{
    let temp = t.temp(sort)?;
    set_atom(out, temp.variable, atom)?;
    Ok(temp)
}

/// Runs the code of the right side, and sets the temp to it, where the left side in the temp doesn't decide.
pub fn end_lazy(
    alloc: Global,
    out: &mut Items<CStmt>,
    is_and: bool,
    temp: CVar,
    mut body: Items<CStmt>,
    right: Value,
) -> Result<Value, Memory>
    ensures { IfOk result (EndsLazy is_and temp (map stmt_of body)
        (atom_expr (atom_of right.atom)) (numbers_of right.next)
        (map stmt_of out.old) (map stmt_of out.new)) }
{
    set_atom(&mut body, temp, right.atom)?;
    let op = if is_and { Op::NotEqual } else { Op::Equal };
    let test = with_number(alloc, op, Atom::Var(temp), 0)?;
    out.push(CStmt::If(test.into_inner(), body))?;
    Ok(Value {
        atom: Atom::Var(temp),
        next: right.next,
    })
}
