//! Whether two paths come to one join of a part.

ghost use Rattle.std.specs.Prelude.{◌≡◌, ℕ, false, List, []};
ghost use Rattle.vlt_core.specs.Core as core;
ghost use Rattle.vlt_core.specs.Bodies.{flow_of, flow_of_block, flow_of_stmts, flow_of_arms};
ghost use Rattle.vlt_core.specs.Rows.{expr_rows};
ghost use Rattle.vlt_core.specs.Instances.{instance};
ghost use Rattle.vlt_core.specs.View.{program_of, func_of, expr_of, form_of, block_of, stmts_of, arms_of};
ghost use Rattle.vlt_rows.specs.Pieces.{switch_rows};
ghost use Rattle.vlt_paths.specs.declared.point.Hunt.{Hunt};
ghost use Rattle.vlt_paths.specs.declared.pair.Pair.{Pair};
ghost use Rattle.vlt_paths.specs.Along.{IsBound};
ghost use Rattle.vlt_paths.specs.Pairs.{has_blocks, MeetForm, MeetBlock, MeetStmts, MeetAfter, MeetSwitch, MeetTurn, MeetTurns, MeetLoop};

use crate::along::{Out, arm_at, go_turn, is_bound};
use crate::pair::Pair;
use crate::point::Hunt;
use vlt_base::VarId;
use vlt_core::{Arm, Block, Expr, Form, Func, Pick, Program, Stmt};

/// Whether both come to the join after a statement, which is at this end.
fn meet_after(
    p: &Program,
    f: &Func,
    hunt: Hunt,
    left: bool,
    form: &Form,
    at: u32,
    end: u32,
    pair: Pair<'_>,
) -> bool
    ensures { (ts : List core.Tok) → IsBound hunt ts left → MeetAfter hunt
        (flow_of (program_of p.now)
        (instance (program_of p.now) (func_of f.now) hunt.origin) ts (form_of form.now)) at end
        pair.entry result }
{
    pair.go_on(p, f, hunt, left, form, at).is_join(end)
}

/// No join stands in a statement without blocks, or after it.
fn meet_step(form: &Form) -> bool
    requires { has_blocks (form_of form.now) ≡ false }
    ensures { (p : core.Program) (f : core.Func) (ts : List core.Tok) (hunt : Hunt) (at : ℕ)
        (pair : Pair) → MeetForm hunt (flow_of p f ts (form_of form.now)) at pair result }
{
    false
}

/// Whether both come to one join of a statement.
#[cycle(together)]
fn meet_form(
    p: &Program,
    f: &Func,
    hunt: Hunt,
    left: bool,
    form: &Form,
    at: u32,
    pair: Pair<'_>,
) -> bool
    ensures { (ts : List core.Tok) → IsBound hunt ts left → MeetForm hunt
        (flow_of (program_of p.now)
        (instance (program_of p.now) (func_of f.now) hunt.origin) ts
        (form_of form.now)) at pair.entry result }
{
    match form {
        Form::If {
            cond,
            then_block,
            else_block,
        } => {
            let following = pair.past_expr(p, f, hunt, at, cond);
            if meet_block(p, f, hunt, left, then_block, following.take(at, Pick::Then)) {
                return true;
            }
            meet_block(p, f, hunt, left, else_block, following.take(at, Pick::Else))
                || meet_after(p, f, hunt, left, form, at, else_block.end, pair)
        }
        Form::While { cond, body } => {
            meet_loop(p, f, hunt, body, cond, at, pair)
                || meet_after(p, f, hunt, left, form, at, body.end, pair)
        }
        Form::Switch { v, arms, end } => {
            meet_switch(p, f, hunt, left, *v, arms.as_slice(), at, pair)
                || meet_after(p, f, hunt, left, form, at, *end, pair)
        }
        Form::Focus { y, z, body } => {
            let inside = pair.past_focus(p, f, hunt, at, *y, *z);
            meet_block(p, f, hunt, left, body, inside)
        }
        Form::Scope { body } => meet_block(p, f, hunt, left, body, pair),
        _ => meet_step(form),
    }
}

/// Whether both come to one join of an arm, by the next choice.
#[cycle(together)]
fn meet_switch(
    p: &Program,
    f: &Func,
    hunt: Hunt,
    left: bool,
    v: VarId,
    arms: &[Arm],
    at: u32,
    pair: Pair<'_>,
) -> bool
    ensures { (ts : List core.Tok) → IsBound hunt ts left → MeetSwitch hunt at
        (switch_rows (func_of f.now) v.0)
        (flow_of_arms (program_of p.now)
        (instance (program_of p.now) (func_of f.now) hunt.origin) ts v.0 (arms_of arms.now))
        pair.entry result }
{
    let following = pair.past_switch(f, hunt, at, v);
    match following.first.arm(at) {
        None => false,
        Some(position) => match arm_at(arms, position) {
            None => false,
            Some(arm) => {
                let inside = following
                    .take(at, Pick::Case(position))
                    .past_arm(p, f, hunt, at, v, arm.case, arm.vars.as_slice());
                meet_block(p, f, hunt, left, &arm.body, inside)
            }
        },
    }
}

/// Whether both come to the head of a loop here, or to one join of its body in the turns that follow.
#[cycle(together)]
fn meet_turn(
    p: &Program,
    f: &Func,
    hunt: Hunt,
    body: &Block,
    cond: &Expr,
    at: u32,
    pair: Pair<'_>,
) -> bool
    ensures { MeetTurn hunt at (expr_rows (program_of p.now) (func_of f.now) (expr_of cond.now))
        (flow_of_block (program_of p.now)
        (instance (program_of p.now) (func_of f.now) hunt.origin) [] (block_of body.now))
        pair.entry result }
{
    let inside = pair.past_expr(p, f, hunt, at, cond).take(at, Pick::Turn);
    pair.is_join(at) || meet_block(p, f, hunt, false, body, inside)
}

/// The same, with the second path at each head that it comes to from here.
#[cycle(together)]
fn meet_turns(
    p: &Program,
    f: &Func,
    hunt: Hunt,
    body: &Block,
    cond: &Expr,
    at: u32,
    pair: Pair<'_>,
) -> bool
    ensures { MeetTurns hunt at (expr_rows (program_of p.now) (func_of f.now) (expr_of cond.now))
        (flow_of_block (program_of p.now)
        (instance (program_of p.now) (func_of f.now) hunt.origin) [] (block_of body.now))
        pair.entry result }
{
    let mut here = pair;
    loop {
        if meet_turn(p, f, hunt, body, cond, at, here) {
            return true;
        }
        let turn = go_turn(p, f, hunt, body, cond, at, here.second);
        match turn.out {
            Out::Continue => here.second = turn.point,
            _ => return false,
        }
    }
}

/// The same, with both paths at each head that they come to from here.
#[cycle(together)]
fn meet_loop(
    p: &Program,
    f: &Func,
    hunt: Hunt,
    body: &Block,
    cond: &Expr,
    at: u32,
    pair: Pair<'_>,
) -> bool
    ensures { MeetLoop hunt at (expr_rows (program_of p.now) (func_of f.now) (expr_of cond.now))
        (flow_of_block (program_of p.now)
        (instance (program_of p.now) (func_of f.now) hunt.origin) [] (block_of body.now))
        pair.entry result }
{
    let mut here = pair;
    loop {
        if meet_turns(p, f, hunt, body, cond, at, here) {
            return true;
        }
        let turn = go_turn(p, f, hunt, body, cond, at, here.first);
        match turn.out {
            Out::Continue => here.first = turn.point,
            _ => return false,
        }
    }
}

#[cycle(together)]
fn meet_block(p: &Program, f: &Func, hunt: Hunt, left: bool, block: &Block, pair: Pair<'_>) -> bool
    ensures { (ts : List core.Tok) → IsBound hunt ts left → MeetBlock hunt
        (flow_of_block (program_of p.now)
        (instance (program_of p.now) (func_of f.now) hunt.origin) ts (block_of block.now))
        pair.entry result }
{
    let inside = is_bound(hunt, left, block.bound.as_slice());
    meet_stmts(p, f, hunt, inside, block.stmts.as_slice(), pair)
}

/// Whether both come to one join of these statements.
#[cycle(together)]
pub fn meet_stmts(
    p: &Program,
    f: &Func,
    hunt: Hunt,
    left: bool,
    stmts: &[Stmt],
    pair: Pair<'_>,
) -> bool
    ensures { (ts : List core.Tok) → IsBound hunt ts left → MeetStmts hunt
        (flow_of_stmts (program_of p.now)
        (instance (program_of p.now) (func_of f.now) hunt.origin) ts (stmts_of stmts.now))
        pair.entry result }
{
    let mut here = pair;
    for s in stmts {
        if meet_form(p, f, hunt, left, &s.form, s.at, here) {
            return true;
        }
        here = here.go_on(p, f, hunt, left, &s.form, s.at);
    }
    false
}
