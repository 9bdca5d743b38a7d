//! Statements without blocks.

ghost use Rattle.std.specs.Prelude.{◌≡◌, ◌++◌, [], ◌∷◌, map, true, if◌then◌else◌, IfOk};
ghost use Rattle.vlt_core.specs.View as view;
ghost use Rattle.c_syntax.specs.C as c;
ghost use Rattle.c_syntax.specs.View.{stmt_of};
ghost use Rattle.c_lower.specs.Statements.{form_code, stmt_code};
ghost use Rattle.c_lower_exprs.specs.Tables.{numbers_of};
ghost use Rattle.c_lower_exprs.specs.Scopes.{IsScope, func_in, program_in};
ghost use Rattle.c_lower_calls.specs.Written.{Writes};
ghost use Rattle.c_lower_stmts.specs.Blocks.{is_flat};

use crate::simple::{
    lower_adopt, lower_build, lower_drop, lower_input, lower_new, lower_open, lower_own,
    lower_print, lower_put, lower_release, lower_set, lower_swap, lower_unpack,
};
use c_lower_calls::{lower_call, lower_return};
use c_lower_exprs::{Numbers, Scope};
use c_syntax::CStmt;
use std::alloc::Global;
use vlt_base::{Items, Memory};
use vlt_core::Form;

/// `continue;`, or `break;`
fn lower_jump(out: &mut Items<CStmt>, t: Numbers, continues: bool) -> Result<Numbers, Memory>
    ensures { IfOk result (λ u. Writes
        (stmt_code ((if continues then c.continue else c.break) ∷ []) (numbers_of t))
        (map stmt_of out.old) (map stmt_of out.new) (numbers_of u)) }
{
    if continues {
        out.push(CStmt::Continue)?;
    } else {
        out.push(CStmt::Break)?;
    }
    Ok(t)
}

/// A statement without a block.
pub fn lower_flat(
    alloc: Global,
    scope: &Scope<'_>,
    form: &Form,
    out: &mut Items<CStmt>,
    t: Numbers,
) -> Result<Numbers, Memory>
    requires scope { IsScope scope.now }
    requires flat { is_flat (view.form_of form.now) ≡ true }
    ensures { IfOk result (λ u. Writes (form_code (program_in scope.now) (func_in scope.now)
        (numbers_of t) (view.form_of form.now))
        (map stmt_of out.old) (map stmt_of out.new) (numbers_of u)) }
{
    match form {
        Form::Set { v, e } => lower_set(alloc, scope, out, t, *v, e),
        Form::Input { v, more } => lower_input(alloc, scope, out, t, *v, *more),
        Form::Print { e } => lower_print(alloc, scope, out, t, e),
        Form::Put { x, field, e } => lower_put(alloc, scope, out, t, *x, *field, e),
        Form::New { x, args } => lower_new(alloc, scope, out, t, *x, args.as_slice()),
        Form::Become { .. } => Ok(t),
        Form::Release { x } => lower_release(alloc, scope, out, t, *x),
        Form::Drop { v } => lower_drop(alloc, scope, out, t, *v),
        Form::Own { v, value } => lower_own(alloc, scope, out, t, *v, value),
        Form::Unpack { x, v } => lower_unpack(scope, out, t, *x, *v),
        Form::Build { v, case, args } => {
            lower_build(alloc, scope, out, t, *v, *case, args.as_slice())
        }
        Form::Call {
            f,
            target,
            args,
            ..
        } => lower_call(alloc, scope, out, t, *f, *target, args.as_slice()),
        Form::Swap { x, field, v } => lower_swap(alloc, scope, out, t, *x, *field, *v),
        Form::Open { x, into } => lower_open(alloc, scope, out, t, *x, into.as_slice()),
        Form::Adopt { y, x, r } => lower_adopt(alloc, scope, out, t, *y, *x, *r),
        Form::Return { value } => lower_return(alloc, scope, out, t, value),
        Form::Jump { continues } => lower_jump(out, t, *continues),
        _ => unreachable!(),
    }
}
