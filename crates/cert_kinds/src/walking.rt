//! The rows of a body's statements, in preorder, with what is in scope at each.

ghost use Rattle.std.specs.Prelude.{◌≡◌, ◌++◌, IfOk, OnOk, map};
ghost use Rattle.vlt_core.specs.View.{form_of, block_of, stmts_of, arms_of, expr_of, vars_of, tok_of};
ghost use Rattle.vlt_core.specs.Core.{bool};
ghost use Rattle.vlt_core.specs.KindedOperands.{value_broken};
ghost use Rattle.std.specs.Prelude.{Some, false};
ghost use Rattle.vlt_core.specs.KindedBodies as s;
ghost use Rattle.cert_kinds_types.specs.Least.{least};
ghost use Rattle.cert_kinds_exprs.specs.Scopes.{ids_of};
ghost use Rattle.cert_kinds_blocks.specs.Scoped.{HasMarks, program_in, func_in};
ghost use Rattle.cert_kinds_blocks.specs.Flat.{around_of};
ghost use Rattle.cert_kinds_tallies.specs.Tallies.{tally_of, tallied, IsWalked};

use cert_kinds_blocks::{
    Around, Scope, arm_broken, arm_toks, begin_block, bind_focus, flat_broken, focus_broken, leave,
    remember, stmt_ends, switch_broken, tokens_broken,
};
use cert_kinds_exprs::{Ids, Seen, value_broken};
use cert_kinds_tallies::{Tally, Walked};
use cert_kinds_types::{lesser, unless};
use std::alloc::{AllocError, Global};
use vlt_base::VarId;
use vlt_core::{Arm, Block, Expr, Form, Stmt, Tok, rules};

/// What the condition of a choice or a loop breaks.
fn condition_broken(scope: &Scope<'_>, ids: &Ids, cond: &Expr) -> Option<u8>
    ensures { result ≡ least (value_broken (program_in scope.now) (func_in scope.now)
        (ids_of ids.now) (Some bool) (expr_of cond.now)) }
{
    value_broken(scope.program, scope.func, ids, Some(Seen::Bool), cond)
}

/// What a block's list of tokens breaks whose statements, and the variables of its arm, bound these.
fn list_broken(
    alloc: Global,
    scope: &Scope<'_>,
    arm_vars: &[VarId],
    listed: &[Tok],
    ids: &Ids,
) -> Result<Option<u8>, AllocError>
    ensures { IfOk result (λ found. found ≡ least (s.tokens_broken (func_in scope.now)
        (map tok_of listed.now)
        (s.owning_toks (func_in scope.now) (vars_of arm_vars.now) ++ (ids_of ids.now).bound))) }
{
    let made = arm_toks(alloc, scope.func, arm_vars, ids.bound.as_slice())?;
    tokens_broken(alloc, scope.func, listed, made.as_slice())
}

/// What a statement breaks: in its own row, and in the rows inside it, after those of the tally.
#[cycle(walking)]
fn walk_form(
    alloc: Global,
    scope: &Scope<'_>,
    around: Around,
    ids: &mut Ids,
    tally: Tally,
    form: &Form,
) -> Result<Walked, AllocError>
    requires { HasMarks scope.now }
    ensures walked { IfOk result (λ x. IsWalked x
        (s.row_broken (program_in scope.now) (func_in scope.now) (around_of around)
        (ids_of ids.old) (form_of form.now))
        (tallied (tally_of tally) (s.form_rows (program_in scope.now) (func_in scope.now)
        (around_of around) (ids_of ids.old) (form_of form.now)))) }
    ensures ids { OnOk result (ids_of ids.new ≡ s.ids_following (program_in scope.now)
        (func_in scope.now) (form_of form.now) (ids_of ids.old)) }
{
    match form {
        Form::If {
            cond,
            then_block,
            else_block,
        } => {
            let own = condition_broken(scope, ids, cond);
            let first = walk_block(alloc, scope, around, &[], ids, tally, then_block)?;
            let second = walk_block(alloc, scope, around, &[], ids, first.tally, else_block)?;
            Ok(second.after_rule(lesser(own, first.rule)))
        }
        Form::While { cond, body } => {
            let own = condition_broken(scope, ids, cond);
            let inside = walk_block(alloc, scope, around.in_loop(), &[], ids, tally, body)?;
            Ok(inside.after_rule(own))
        }
        Form::Switch { v, arms, .. } => {
            let own = switch_broken(scope.program, scope.func, ids, *v, arms.as_slice());
            let inside = walk_arms(alloc, scope, around, ids, tally, *v, arms.as_slice())?;
            Ok(inside.after_rule(own))
        }
        Form::Focus { y, z, body } => {
            let outer = remember(alloc, ids)?;
            let own = focus_broken(scope.program, scope.func, ids, *y, *z);
            bind_focus(scope.func, ids, *z)?;
            let inside = walk_block(alloc, scope, Around::in_focus(), &[], ids, tally, body)?;
            leave(ids, outer);
            Ok(inside.after_rule(own))
        }
        Form::Scope { body } => walk_block(alloc, scope, around, &[], ids, tally, body),
        _ => {
            let rule = flat_broken(scope, form, ids, around)?;
            Ok(Walked { rule, tally })
        }
    }
}

/// What a block breaks: by its list of tokens, which begins with those of its arm's variables, and in the rows of
/// its statements.
#[cycle(walking)]
fn walk_block(
    alloc: Global,
    scope: &Scope<'_>,
    around: Around,
    arm_vars: &[VarId],
    ids: &mut Ids,
    tally: Tally,
    block: &Block,
) -> Result<Walked, AllocError>
    requires { HasMarks scope.now }
    ensures walked { IfOk result (λ x. IsWalked x
        (s.list_broken (program_in scope.now) (func_in scope.now)
        (s.owning_toks (func_in scope.now) (vars_of arm_vars.now)) (ids_of ids.old)
        (block_of block.now))
        (tallied (tally_of tally) (s.block_rows (program_in scope.now) (func_in scope.now)
        (around_of around) (ids_of ids.old) (block_of block.now)))) }
    ensures ids { OnOk result (ids_of ids.new ≡ s.ids_following_block (program_in scope.now)
        (func_in scope.now) (block_of block.now) (ids_of ids.old)) }
{
    let outer = remember(alloc, ids)?;
    begin_block(alloc, ids);
    let tally = walk_stmts(alloc, scope, around, ids, tally, block.stmts.as_slice())?;
    let rule = list_broken(alloc, scope, arm_vars, block.bound.as_slice(), ids)?;
    leave(ids, outer);
    Ok(Walked { rule, tally })
}

/// The rows of statements, after those of the tally.
#[cycle(walking)]
pub fn walk_stmts(
    alloc: Global,
    scope: &Scope<'_>,
    around: Around,
    ids: &mut Ids,
    tally: Tally,
    stmts: &[Stmt],
) -> Result<Tally, AllocError>
    requires { HasMarks scope.now }
    ensures tally { IfOk result (λ x. tally_of x ≡ tallied (tally_of tally)
        (s.stmts_rows (program_in scope.now) (func_in scope.now) (around_of around)
        (ids_of ids.old) false (stmts_of stmts.now))) }
    ensures ids { OnOk result (ids_of ids.new ≡ s.ids_following_stmts (program_in scope.now)
        (func_in scope.now) (stmts_of stmts.now) (ids_of ids.old)) }
{
    let mut all = tally;
    let mut ended = false;
    for stmt in stmts {
        let inside = walk_form(alloc, scope, around, ids, all.inside(), &stmt.form)?;
        all = all.with_stmt(unless(!ended, rules::AFTER_END), inside);
        ended = stmt_ends(&stmt.form);
    }
    Ok(all)
}

/// What the arms of a switch on `v` break: in the switch's own row, and in the rows of their blocks.
#[cycle(walking)]
fn walk_arms(
    alloc: Global,
    scope: &Scope<'_>,
    around: Around,
    ids: &mut Ids,
    tally: Tally,
    v: VarId,
    arms: &[Arm],
) -> Result<Walked, AllocError>
    requires { HasMarks scope.now }
    ensures walked { IfOk result (λ x. IsWalked x
        (s.arms_broken (program_in scope.now) (func_in scope.now) (ids_of ids.old) v.0
        (arms_of arms.now))
        (tallied (tally_of tally) (s.arms_rows (program_in scope.now) (func_in scope.now)
        (around_of around) (ids_of ids.old) (arms_of arms.now)))) }
    ensures ids { OnOk result (ids_of ids.new ≡ s.ids_following_arms (program_in scope.now)
        (func_in scope.now) (arms_of arms.now) (ids_of ids.old)) }
{
    let mut all = Walked { rule: None, tally };
    for arm in arms {
        let vars = arm.vars.as_slice();
        let outer = remember(alloc, ids)?;
        let own = arm_broken(scope.program, scope.func, ids, v, arm.case, vars)?;
        let inside = walk_block(alloc, scope, around, vars, ids, all.tally, &arm.body)?;
        leave(ids, outer);
        all = inside.after_rule(lesser(all.rule, own));
    }
    Ok(all)
}
