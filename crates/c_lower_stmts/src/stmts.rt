//! Statements with blocks, and lists of statements. In this cycle of calls the tree is passed before what is added to: what
//! shrinks is the first recursive parameter.

ghost use Rattle.std.specs.Prelude.{◌≡◌, ◌++◌, [], ◌∷◌, map, IfOk};
ghost use Rattle.vlt_core.specs.View as view;
ghost use Rattle.c_syntax.specs.View.{stmt_of};
ghost use Rattle.c_lower.specs.Statements.{arms_code, block_code, form_code, list_code};
ghost use Rattle.c_lower_exprs.specs.Tables.{numbers_of};
ghost use Rattle.c_lower_exprs.specs.Scopes.{IsScope, func_in, program_in};
ghost use Rattle.c_lower_calls.specs.Written.{Writes};
ghost use Rattle.c_lower_stmts.specs.Blocks.{arm_code};

use crate::blocks::{
    Body, begin_arm, begin_focus, begin_turn, end_arm, end_focus, push_choice, push_loop,
};
use crate::flat::lower_flat;
use c_lower_exprs::{Atom, Numbers, Scope, Sort, lower_value, set_temp};
use c_syntax::{CStmt, CVar};
use std::alloc::Global;
use vlt_base::{Items, Memory, VarId};
use vlt_core::{Arm, Block, Form, Stmt};

/// An arm of a switch on `v`, whose case is in a variable.
#[cycle(lowering)]
fn lower_arm(
    alloc: Global,
    scope: &Scope<'_>,
    arm: &Arm,
    out: &mut Items<CStmt>,
    t: Numbers,
    v: VarId,
    case: CVar,
) -> Result<Numbers, Memory>
    requires { IsScope scope.now }
    ensures { IfOk result (λ u. Writes (arm_code (program_in scope.now) (func_in scope.now)
        (numbers_of t) v.0 case (view.arm_of arm.now).0 (view.arm_of arm.now).1
        (view.arm_of arm.now).2)
        (map stmt_of out.old) (map stmt_of out.new) (numbers_of u)) }
{
    let mut body = begin_arm(alloc, scope, arm, v)?;
    let most = lower_block(alloc, scope, &arm.body, &mut body, t)?;
    end_arm(alloc, out, case, arm.case, body, most)
}

/// The arms of a switch on `v`, whose case is in a variable.
#[cycle(lowering)]
fn lower_arms(
    alloc: Global,
    scope: &Scope<'_>,
    arms: &[Arm],
    out: &mut Items<CStmt>,
    t: Numbers,
    v: VarId,
    case: CVar,
) -> Result<Numbers, Memory>
    requires { IsScope scope.now }
    ensures { IfOk result (λ u. Writes (arms_code (program_in scope.now) (func_in scope.now)
        (numbers_of t) v.0 case (view.arms_of arms.now))
        (map stmt_of out.old) (map stmt_of out.new) (numbers_of u)) }
{
    let mut most = Numbers::FIRST;
    for arm in arms {
        let next = lower_arm(alloc, scope, arm, out, t, v, case)?;
        most = most.most(next);
    }
    Ok(most.most(t))
}

/// A statement.
#[cycle(lowering)]
fn lower_form(
    alloc: Global,
    scope: &Scope<'_>,
    form: &Form,
    out: &mut Items<CStmt>,
    t: Numbers,
) -> Result<Numbers, Memory>
    requires { IsScope scope.now }
    ensures { IfOk result (λ u. Writes (form_code (program_in scope.now) (func_in scope.now)
        (numbers_of t) (view.form_of form.now))
        (map stmt_of out.old) (map stmt_of out.new) (numbers_of u)) }
{
    match form {
        Form::If {
            cond,
            then_block,
            else_block,
        } => {
            let condition = lower_value(alloc, scope, out, t, cond)?;
            let yes = lower_body(alloc, scope, then_block, t)?;
            let no = lower_body(alloc, scope, else_block, t)?;
            push_choice(alloc, out, condition, yes, no)
        }
        Form::While { cond, body } => {
            let mut turn = begin_turn(alloc, scope, t, cond)?;
            let most = lower_block(alloc, scope, body, &mut turn.stmts, t)?;
            push_loop(out, turn.stmts, turn.most.most(most))
        }
        Form::Switch { v, arms, .. } => {
            let case = set_temp(out, t, Sort::Number, Atom::Var(scope.slot(*v)))?;
            lower_arms(
                alloc,
                scope,
                arms.as_slice(),
                out,
                case.next,
                *v,
                case.variable,
            )
        }
        Form::Focus { y, z, body } => {
            let focus = begin_focus(alloc, scope, out, t, *y, *z)?;
            let most = lower_block(alloc, scope, body, out, focus.inside)?;
            end_focus(alloc, out, focus, most)
        }
        Form::Scope { body } => lower_block(alloc, scope, body, out, t),
        _ => lower_flat(alloc, scope, form, out, t),
    }
}

/// A block with a list of its own.
#[cycle(lowering)]
fn lower_body(alloc: Global, scope: &Scope<'_>, block: &Block, t: Numbers) -> Result<Body, Memory>
    requires { IsScope scope.now }
    ensures { IfOk result (λ x. Writes (block_code (program_in scope.now) (func_in scope.now)
        (numbers_of t) (view.block_of block.now)) [] (map stmt_of x.stmts) (numbers_of x.most)) }
{
    let mut stmts = Items::new(alloc);
    let most = lower_stmts(alloc, scope, block.stmts.as_slice(), &mut stmts, t)?;
    Ok(Body { stmts, most })
}

/// A block, as part of a list.
#[cycle(lowering)]
fn lower_block(
    alloc: Global,
    scope: &Scope<'_>,
    block: &Block,
    out: &mut Items<CStmt>,
    t: Numbers,
) -> Result<Numbers, Memory>
    requires { IsScope scope.now }
    ensures { IfOk result (λ u. Writes (block_code (program_in scope.now) (func_in scope.now)
        (numbers_of t) (view.block_of block.now))
        (map stmt_of out.old) (map stmt_of out.new) (numbers_of u)) }
{
    lower_stmts(alloc, scope, block.stmts.as_slice(), out, t)
}

/// Adds the code of statements, whose temps begin at these numbers, and gives the numbers after all temps.
#[cycle(lowering)]
pub fn lower_stmts(
    alloc: Global,
    scope: &Scope<'_>,
    stmts: &[Stmt],
    out: &mut Items<CStmt>,
    t: Numbers,
) -> Result<Numbers, Memory>
    requires { IsScope scope.now }
    ensures { IfOk result (λ u. Writes (list_code (program_in scope.now) (func_in scope.now)
        (numbers_of t) (view.stmts_of stmts.now))
        (map stmt_of out.old) (map stmt_of out.new) (numbers_of u)) }
{
    let mut most = Numbers::FIRST;
    for stmt in stmts {
        let next = lower_form(alloc, scope, &stmt.form, out, t)?;
        most = most.most(next);
    }
    Ok(most.most(t))
}
