//! All atoms of expressions and operands.

ghost use Rattle.std.specs.Prelude.{◌≡◌, [], ◌∷◌, map, true, IfOk};
ghost use Rattle.vlt_core.specs.Core as core;
ghost use Rattle.vlt_core.specs.View as v;
ghost use Rattle.c_syntax.specs.View.{stmt_of};
ghost use Rattle.c_lower.specs.Expressions.{expr_code, operand_code, operand_codes};
ghost use Rattle.c_lower_exprs.specs.Tables.{numbers_of};
ghost use Rattle.c_lower_exprs.specs.Scopes.{IsScope, func_in, program_in};
ghost use Rattle.c_lower_exprs.specs.Coded.{atom_of, has_one_atom, WritesOperands, WritesAtoms};

use crate::atom::Atom;
use crate::exprs::lower_value;
use crate::numbers::Numbers;
use crate::reads::{field_atoms, read_field, var_atoms};
use crate::scope::Scope;
use crate::temps::Value;
use c_syntax::CStmt;
use std::alloc::Global;
use vlt_base::{Items, Memory, VarId};
use vlt_core::{Expr, Operand};

/// What has the value, an atom for each slot, and the numbers after the temps of the code.
#[derive(Drop)]
pub struct Atoms {
    pub atoms: Items<Atom>,
    pub next: Numbers,
}

/// The atoms of several operands, and the numbers after their temps.
#[derive(Drop)]
pub struct OperandAtoms {
    pub atoms: Items<Items<Atom>>,
    pub next: Numbers,
}

/// A value as a list of atoms.
fn one_atom(alloc: Global, value: Value) -> Result<Atoms, Memory>
    ensures { IfOk result (λ x. (map atom_of x.atoms ≡ atom_of value.atom ∷ [])
        × (numbers_of x.next ≡ numbers_of value.next)) }
{
    let mut atoms = Items::new(alloc);
    atoms.push(value.atom)?;
    Ok(Atoms {
        atoms,
        next: value.next,
    })
}

/// An expression that has one atom.
fn lower_one(
    alloc: Global,
    scope: &Scope<'_>,
    out: &mut Items<CStmt>,
    t: Numbers,
    expr: &Expr,
) -> Result<Atoms, Memory>
    requires scope { IsScope scope.now }
    requires one { has_one_atom (v.expr_of expr.now) ≡ true }
    ensures { IfOk result (λ x. WritesAtoms
        (expr_code (program_in scope.now) (func_in scope.now) (numbers_of t) (v.expr_of expr.now))
        (map stmt_of out.old) (map stmt_of out.new) (map atom_of x.atoms) (numbers_of x.next)) }
{
    let value = lower_value(alloc, scope, out, t, expr)?;
    one_atom(alloc, value)
}

/// A field of a variable's object.
fn lower_field(
    alloc: Global,
    scope: &Scope<'_>,
    out: &mut Items<CStmt>,
    t: Numbers,
    x: VarId,
    position: u32,
) -> Result<Atoms, Memory>
    requires { IsScope scope.now }
    ensures { IfOk result (λ a. WritesAtoms (expr_code (program_in scope.now) (func_in scope.now)
        (numbers_of t) (core.field x.0 position))
        (map stmt_of out.old) (map stmt_of out.new) (map atom_of a.atoms) (numbers_of a.next)) }
{
    let next = read_field(scope, out, t, x, position)?;
    let atoms = field_atoms(alloc, scope, t, x, position)?;
    Ok(Atoms { atoms, next })
}

/// A variable's slots.
fn lower_var(alloc: Global, scope: &Scope<'_>, t: Numbers, v: VarId) -> Result<Atoms, Memory>
    requires { IsScope scope.now }
    ensures { IfOk result (λ x. WritesAtoms (expr_code (program_in scope.now) (func_in scope.now)
        (numbers_of t) (core.var v.0)) [] [] (map atom_of x.atoms) (numbers_of x.next)) }
{
    let atoms = var_atoms(alloc, scope, v)?;
    Ok(Atoms { atoms, next: t })
}

/// The code of an expression.
pub fn lower_expr(
    alloc: Global,
    scope: &Scope<'_>,
    out: &mut Items<CStmt>,
    t: Numbers,
    expr: &Expr,
) -> Result<Atoms, Memory>
    requires { IsScope scope.now }
    ensures { IfOk result (λ x. WritesAtoms
        (expr_code (program_in scope.now) (func_in scope.now) (numbers_of t) (v.expr_of expr.now))
        (map stmt_of out.old) (map stmt_of out.new) (map atom_of x.atoms) (numbers_of x.next)) }
{
    match expr {
        Expr::Var(v) => lower_var(alloc, scope, t, *v),
        Expr::Field(x, position) => lower_field(alloc, scope, out, t, *x, *position),
        _ => lower_one(alloc, scope, out, t, expr),
    }
}

/// The code of an operand.
pub fn lower_operand(
    alloc: Global,
    scope: &Scope<'_>,
    out: &mut Items<CStmt>,
    t: Numbers,
    operand: &Operand,
) -> Result<Atoms, Memory>
    requires { IsScope scope.now }
    ensures { IfOk result (λ x.
        WritesAtoms (operand_code (program_in scope.now) (func_in scope.now)
        (numbers_of t) (v.operand_of operand.now))
        (map stmt_of out.old) (map stmt_of out.new) (map atom_of x.atoms) (numbers_of x.next)) }
{
    match operand {
        Operand::Pure(expr) => lower_expr(alloc, scope, out, t, expr),
        Operand::Move(v) => lower_var(alloc, scope, t, *v),
        Operand::Pack(x, _) => lower_var(alloc, scope, t, *x),
    }
}

/// The code of several operands.
pub fn lower_operands(
    alloc: Global,
    scope: &Scope<'_>,
    out: &mut Items<CStmt>,
    t: Numbers,
    operands: &[Operand],
) -> Result<OperandAtoms, Memory>
    requires { IsScope scope.now }
    ensures { IfOk result (λ x.
        WritesOperands (operand_codes (program_in scope.now) (func_in scope.now)
        (numbers_of t) (map v.operand_of operands.now))
        (map stmt_of out.old) (map stmt_of out.new)
        (map (map atom_of) x.atoms) (numbers_of x.next)) }
{
    let mut atoms = Items::new(alloc);
    let mut next = t;
    for operand in operands {
        let made = lower_operand(alloc, scope, out, next, operand)?;
        next = made.next;
        atoms.push(made.atoms)?;
    }
    Ok(OperandAtoms { atoms, next })
}
