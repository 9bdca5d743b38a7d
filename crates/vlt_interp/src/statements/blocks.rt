//! Statements with blocks.

ghost use Rattle.std.specs.Prelude.{◌≡◌, ◌≤◌, ◌+◌, ℕ, pos, length, vec_capacity, option_map};
ghost use Rattle.vlt_core.specs.Core as core;
ghost use Rattle.vlt_core.specs.View.{expr_of, block_of, arms_of, arm_of};
ghost use Rattle.vlt_heap.specs.Shown.{IsSound};
ghost use Rattle.vlt_meaning.specs.Run.{Setup};
ghost use Rattle.vlt_steps.specs.Writing.{Outside};
ghost use Rattle.vlt_interp.specs.declared.tasks.task.Task.TheVariants.{Unfocus as UnfocusTask};
ghost use Rattle.vlt_interp.specs.Tasks.Moves.{doing, entering, MayDo, Does, IsRightTask, DoesTask};
ghost use Rattle.vlt_interp.specs.Statements.Arms.{arm_for};

use crate::tasks::{At, Run, Task};
use vlt_acts::{Focus, begin_focus, case_number, end_focus, number, open_arm};
use vlt_base::VarId;
use vlt_core::{Arm, Block, Expr};
use vlt_steps::{Stop, put};

/// A block comes next.
pub fn enter_block<'a>(block: &'a Block, run: &mut Run<'a, '_>)
    requires sound { IsSound run.old.heap }
    requires room { length run.old.tasks.items + 2 ≤ vec_capacity run.old.tasks }
    ensures { (s : Setup) (b : Outside) → Does (entering (block_of block.now)) s run.old run.new
        b b None }
{
    put(&mut run.tasks, Task::Closing);
    put(&mut run.tasks, Task::List(block.stmts.as_slice()));
}

/// One block or the other.
pub fn choose<'a>(
    e: &Expr,
    then_block: &'a Block,
    else_block: &'a Block,
    run: &mut Run<'a, '_>,
) -> Option<Stop>
    requires can { MayDo (core.choose (expr_of e.now) (block_of then_block.now)
        (block_of else_block.now)) run.old }
    ensures { (s : Setup) (b : Outside) → Does (doing (core.choose (expr_of e.now)
        (block_of then_block.now) (block_of else_block.now))) s run.old run.new b b result }
{
    match number(e, &run.values, &run.heap) {
        Ok(z) => {
            if z != 0 {
                enter_block(then_block, run);
            } else {
                enter_block(else_block, run);
            }
            None
        }
        Err(trap) => Some(Stop::Trap(trap)),
    }
}

/// The next turn of a loop, or what is after it.
pub fn turn_on<'a>(e: &'a Expr, body: &'a Block, run: &mut Run<'a, '_>) -> Option<Stop>
    requires can { MayDo (core.loop (expr_of e.now) (block_of body.now)) run.old }
    ensures { (s : Setup) (b : Outside) → Does (doing (core.loop (expr_of e.now)
        (block_of body.now))) s run.old run.new b b result }
{
    if run.fuel == 0 {
        return Some(Stop::FuelEnd);
    }
    run.fuel -= 1;
    match number(e, &run.values, &run.heap) {
        Ok(z) => {
            if z != 0 {
                put(&mut run.tasks, Task::Turn(e, body));
                enter_block(body, run);
            }
            None
        }
        Err(trap) => Some(Stop::Trap(trap)),
    }
}

/// The arm of a case.
fn arm_of_case<'a>(arms: &'a [Arm], case: i64) -> Option<&'a Arm>
    ensures { (n : ℕ) → case ≡ pos n → option_map (λ a. arm_of a.now) result
        ≡ arm_for n (arms_of arms.now) }
{
    match arms.split_first() {
        None => None,
        Some((arm, rest)) => {
            if i64::from(arm.case) == case {
                Some(arm)
            } else {
                arm_of_case(rest, case)
            }
        }
    }
}

/// The arm of the case that a variable's value has.
pub fn switch_on<'a>(v: VarId, arms: &'a [Arm], run: &mut Run<'a, '_>)
    requires can { MayDo (core.switch v.0 (arms_of arms.now) 0) run.old }
    ensures { (end : ℕ) (s : Setup) (b : Outside) →
        Does (doing (core.switch v.0 (arms_of arms.now) end)) s run.old run.new b b None }
{
    match arm_of_case(arms, case_number(&run.values, v)) {
        Some(arm) => {
            open_arm(&mut run.values, &run.heap, v, arm.vars.as_slice());
            enter_block(&arm.body, run);
        }
        None => unreachable!(),
    }
}

/// `focus y as tracked(K) z { .. }`
pub fn focus_on<'a>(y: VarId, z: VarId, body: &'a Block, run: &mut Run<'a, '_>)
    requires can { MayDo (core.focus y.0 z.0 (block_of body.now)) run.old }
    ensures { (s : Setup) (b : Outside) →
        Does (doing (core.focus y.0 z.0 (block_of body.now))) s run.old run.new b b None }
{
    let focus = begin_focus(&mut run.values, &mut run.heap, run.func, y, z);
    put(&mut run.tasks, Task::Unfocus(focus));
    enter_block(body, run);
}

/// The object of a focus goes back to its adopter, where a step goes on to the end of its block.
pub fn unfocus(focus: Focus, run: &mut Run)
    requires sound { IsSound run.old.heap }
    requires right { IsRightTask (UnfocusTask focus) run.old }
    ensures { (s : Setup) (b : Outside) → DoesTask (UnfocusTask focus) s run.old run.new b b
        None }
{
    match run.at {
        At::Goes => end_focus(&run.values, &mut run.heap, focus),
        At::Jumps { .. } => {}
        At::Leaves => {}
    }
}
