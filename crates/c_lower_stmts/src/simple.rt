//! Statements without blocks that call nothing.

ghost use Rattle.std.specs.Prelude.{◌≡◌, ◌++◌, [], ◌∷◌, map, IfOk};
ghost use Rattle.vlt_core.specs.Core as core;
ghost use Rattle.vlt_core.specs.View as view;
ghost use Rattle.c_syntax.specs.View.{stmt_of};
ghost use Rattle.c_lower.specs.Statements.{build_code, make_code, simple_code};
ghost use Rattle.c_lower_exprs.specs.Tables.{numbers_of};
ghost use Rattle.c_lower_exprs.specs.Scopes.{IsScope, func_in, program_in};
ghost use Rattle.c_lower_calls.specs.Written.{Writes};

use crate::exchanges::{open_fields, swap_field};
use crate::variants::{build_slots, first_atoms};
use c_lower_calls::{
    call_one, call_two, copy_atoms, new_block, own_fields, put_atoms, put_fields, release_owners,
    value_none,
};
use c_lower_exprs::{
    Atom, Numbers, Scope, lower_expr, lower_operand, lower_operands, lower_value, past_all,
    set_atom,
};
use c_syntax::{CPrim, CStmt};
use std::alloc::Global;
use vlt_base::{Items, Memory, VarId};
use vlt_core::{Expr, Operand};

/// `v = e;`
pub fn lower_set(
    alloc: Global,
    scope: &Scope<'_>,
    out: &mut Items<CStmt>,
    t: Numbers,
    v: VarId,
    e: &Expr,
) -> Result<Numbers, Memory>
    requires { IsScope scope.now }
    ensures { IfOk result (λ u. Writes (simple_code (program_in scope.now) (func_in scope.now)
        (numbers_of t) (core.set v.0 (view.expr_of e.now)))
        (map stmt_of out.old) (map stmt_of out.new) (numbers_of u)) }
{
    let value = lower_expr(alloc, scope, out, t, e)?;
    copy_atoms(scope, out, v, value.atoms.as_slice())?;
    Ok(value.next)
}

/// `v = input();`, or `v = more();`
pub fn lower_input(
    alloc: Global,
    scope: &Scope<'_>,
    out: &mut Items<CStmt>,
    t: Numbers,
    v: VarId,
    more: bool,
) -> Result<Numbers, Memory>
    requires { IsScope scope.now }
    ensures { IfOk result (λ u. Writes (simple_code (program_in scope.now) (func_in scope.now)
        (numbers_of t) (core.input v.0 more))
        (map stmt_of out.old) (map stmt_of out.new) (numbers_of u)) }
{
    let primitive = if more { CPrim::More } else { CPrim::Read };
    value_none(alloc, out, scope.slot(v), primitive)?;
    Ok(t)
}

/// `print(e);`
pub fn lower_print(
    alloc: Global,
    scope: &Scope<'_>,
    out: &mut Items<CStmt>,
    t: Numbers,
    e: &Expr,
) -> Result<Numbers, Memory>
    requires { IsScope scope.now }
    ensures { IfOk result (λ u. Writes (simple_code (program_in scope.now) (func_in scope.now)
        (numbers_of t) (core.print (view.expr_of e.now)))
        (map stmt_of out.old) (map stmt_of out.new) (numbers_of u)) }
{
    let value = lower_value(alloc, scope, out, t, e)?;
    call_one(alloc, out, CPrim::Print, value.atom)?;
    Ok(value.next)
}

/// `x.f = e;`
pub fn lower_put(
    alloc: Global,
    scope: &Scope<'_>,
    out: &mut Items<CStmt>,
    t: Numbers,
    x: VarId,
    position: u32,
    e: &Expr,
) -> Result<Numbers, Memory>
    requires { IsScope scope.now }
    ensures { IfOk result (λ u. Writes (simple_code (program_in scope.now) (func_in scope.now)
        (numbers_of t) (core.put x.0 position (view.expr_of e.now)))
        (map stmt_of out.old) (map stmt_of out.new) (numbers_of u)) }
{
    let value = lower_expr(alloc, scope, out, t, e)?;
    let base = scope.slot(x).number;
    put_atoms(
        alloc,
        scope,
        out,
        scope.object_type(x),
        position as usize,
        base,
        value.atoms.as_slice(),
    )?;
    Ok(value.next)
}

/// `x = new T { .. };`
pub fn lower_new(
    alloc: Global,
    scope: &Scope<'_>,
    out: &mut Items<CStmt>,
    t: Numbers,
    x: VarId,
    args: &[Operand],
) -> Result<Numbers, Memory>
    requires { IsScope scope.now }
    ensures { IfOk result (λ u. Writes (make_code (program_in scope.now) (func_in scope.now)
        (numbers_of t) x.0 (map view.operand_of args.now))
        (map stmt_of out.old) (map stmt_of out.new) (numbers_of u)) }
{
    let values = lower_operands(alloc, scope, out, t, args)?;
    let block = scope.slot(x);
    let type_id = scope.object_type(x);
    new_block(alloc, scope, out, block, type_id)?;
    let fields = values.atoms.as_slice();
    put_fields(alloc, scope, out, type_id, block.number, fields)?;
    own_fields(alloc, scope, out, type_id, block, fields)?;
    Ok(values.next)
}

/// `release x;` of a tracked variable
pub fn lower_release(
    alloc: Global,
    scope: &Scope<'_>,
    out: &mut Items<CStmt>,
    t: Numbers,
    x: VarId,
) -> Result<Numbers, Memory>
    requires { IsScope scope.now }
    ensures { IfOk result (λ u. Writes (simple_code (program_in scope.now) (func_in scope.now)
        (numbers_of t) (core.release x.0))
        (map stmt_of out.old) (map stmt_of out.new) (numbers_of u)) }
{
    call_one(alloc, out, CPrim::Release, Atom::Var(scope.slot(x)))?;
    Ok(t)
}

/// `release v;` of an owning variable
pub fn lower_drop(
    alloc: Global,
    scope: &Scope<'_>,
    out: &mut Items<CStmt>,
    t: Numbers,
    v: VarId,
) -> Result<Numbers, Memory>
    requires { IsScope scope.now }
    ensures { IfOk result (λ u. Writes (simple_code (program_in scope.now) (func_in scope.now)
        (numbers_of t) (core.drop v.0))
        (map stmt_of out.old) (map stmt_of out.new) (numbers_of u)) }
{
    release_owners(alloc, out, scope.slots(v))?;
    Ok(t)
}

/// An owning variable is filled.
pub fn lower_own(
    alloc: Global,
    scope: &Scope<'_>,
    out: &mut Items<CStmt>,
    t: Numbers,
    v: VarId,
    operand: &Operand,
) -> Result<Numbers, Memory>
    requires { IsScope scope.now }
    ensures { IfOk result (λ u. Writes (simple_code (program_in scope.now) (func_in scope.now)
        (numbers_of t) (core.own v.0 (view.operand_of operand.now)))
        (map stmt_of out.old) (map stmt_of out.new) (numbers_of u)) }
{
    let value = lower_operand(alloc, scope, out, t, operand)?;
    copy_atoms(scope, out, v, value.atoms.as_slice())?;
    Ok(value.next)
}

/// An owning variable's object goes under a key.
pub fn lower_unpack(
    scope: &Scope<'_>,
    out: &mut Items<CStmt>,
    t: Numbers,
    x: VarId,
    v: VarId,
) -> Result<Numbers, Memory>
    requires { IsScope scope.now }
    ensures { IfOk result (λ u. Writes (simple_code (program_in scope.now) (func_in scope.now)
        (numbers_of t) (core.unpack x.0 v.0))
        (map stmt_of out.old) (map stmt_of out.new) (numbers_of u)) }
{
    set_atom(out, scope.slot(x), Atom::Var(scope.slot(v)))?;
    Ok(t)
}

/// `y = adopt x into r;`
pub fn lower_adopt(
    alloc: Global,
    scope: &Scope<'_>,
    out: &mut Items<CStmt>,
    t: Numbers,
    y: VarId,
    x: VarId,
    r: VarId,
) -> Result<Numbers, Memory>
    requires { IsScope scope.now }
    ensures { IfOk result (λ u. Writes (simple_code (program_in scope.now) (func_in scope.now)
        (numbers_of t) (core.adopt y.0 x.0 r.0))
        (map stmt_of out.old) (map stmt_of out.new) (numbers_of u)) }
{
    let object = Atom::Var(scope.slot(x));
    call_two(alloc, out, CPrim::Own, object, Atom::Var(scope.slot(r)))?;
    set_atom(out, scope.slot(y), object)?;
    Ok(t)
}

/// `swap x.f, v;`
pub fn lower_swap(
    alloc: Global,
    scope: &Scope<'_>,
    out: &mut Items<CStmt>,
    t: Numbers,
    x: VarId,
    position: u32,
    v: VarId,
) -> Result<Numbers, Memory>
    requires { IsScope scope.now }
    ensures { IfOk result (λ u. Writes (simple_code (program_in scope.now) (func_in scope.now)
        (numbers_of t) (core.swap x.0 position v.0))
        (map stmt_of out.old) (map stmt_of out.new) (numbers_of u)) }
{
    swap_field(alloc, scope, out, t, x, position, v)?;
    past_all(
        t,
        scope.field_sorts(scope.object_type(x), position as usize),
    )
}

/// `open x into (..);`
pub fn lower_open(
    alloc: Global,
    scope: &Scope<'_>,
    out: &mut Items<CStmt>,
    t: Numbers,
    x: VarId,
    vars: &[VarId],
) -> Result<Numbers, Memory>
    requires { IsScope scope.now }
    ensures { IfOk result (λ u. Writes (simple_code (program_in scope.now) (func_in scope.now)
        (numbers_of t) (core.open_into x.0 (view.vars_of vars.now)))
        (map stmt_of out.old) (map stmt_of out.new) (numbers_of u)) }
{
    let fields = scope.fields(scope.object_type(x));
    open_fields(alloc, scope, out, x, fields, vars)?;
    call_one(alloc, out, CPrim::Release, Atom::Var(scope.slot(x)))?;
    Ok(t)
}

/// `v = 'Case(..);`
pub fn lower_build(
    alloc: Global,
    scope: &Scope<'_>,
    out: &mut Items<CStmt>,
    t: Numbers,
    v: VarId,
    case: u8,
    args: &[Operand],
) -> Result<Numbers, Memory>
    requires { IsScope scope.now }
    ensures { IfOk result (λ u. Writes (build_code (program_in scope.now) (func_in scope.now)
        (numbers_of t) v.0 case (map view.operand_of args.now))
        (map stmt_of out.old) (map stmt_of out.new) (numbers_of u)) }
{
    let values = lower_operands(alloc, scope, out, t, args)?;
    let firsts = first_atoms(alloc, values.atoms.as_slice())?;
    let positions = scope.case_positions(alloc, scope.variant_type(v), case)?;
    set_atom(out, scope.slot(v), Atom::Number(i64::from(case)))?;
    build_slots(
        out,
        scope.rest_slots(v),
        positions.as_slice(),
        firsts.as_slice(),
    )?;
    Ok(values.next)
}
