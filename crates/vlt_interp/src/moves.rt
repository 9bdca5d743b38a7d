//! The moves of the machine.

ghost use Rattle.std.specs.Prelude.{◌∷◌};
ghost use Rattle.vlt_core.specs.View.{form_of};
ghost use Rattle.vlt_steps.specs.Writing.{Outside};
ghost use Rattle.vlt_interp.specs.declared.tasks.task.Task.TheVariants.{List as ListTask, Turn as TurnTask, Back as BackTask};
ghost use Rattle.vlt_interp.specs.Tasks.Shown.{tasks_left};
ghost use Rattle.vlt_interp.specs.Calls.Called.{Acts};
ghost use Rattle.vlt_interp.specs.Going.{CanMove, CanDoTask, GoesTask, Moves, CanAct};

use crate::calls::call;
use crate::returns::{give_back, go_back};
use crate::statements::{choose, do_simple, enter_block, focus_on, switch_on, turn_on, unfocus};
use crate::tasks::{At, Rules, Run, Task};
use vlt_acts::Waiting;
use vlt_core::{Block, Expr, Form, Stmt};
use vlt_io::Sink;
use vlt_steps::{Stop, put};

/// A statement, with what is left to do after it.
fn act<'a, K: Sink>(
    rules: &Rules<'a>,
    form: &'a Form,
    run: &mut Run<'a, '_>,
    sink: &mut K,
) -> Option<Stop>
    requires can { CanAct (form_of form.now) rules.now run.old }
    ensures { Acts (form_of form.now) rules.now run.old run.new
        (record { written = K.written sink.old; faults = K.faults sink.old })
        (record { written = K.written sink.new; faults = K.faults sink.new }) result }
{
    match form {
        Form::Call {
            f,
            target,
            keys,
            args,
        } => call(
            rules,
            *f,
            *target,
            keys.as_slice(),
            args.as_slice(),
            run,
            sink,
        ),
        Form::If {
            cond,
            then_block,
            else_block,
        } => choose(cond, then_block, else_block, run),
        Form::While { cond, body } => turn_on(cond, body, run),
        Form::Switch { v, arms, .. } => {
            switch_on(*v, arms.as_slice(), run);
            None
        }
        Form::Focus { y, z, body } => {
            focus_on(*y, *z, body, run);
            None
        }
        Form::Scope { body } => {
            enter_block(body, run);
            None
        }
        Form::Return { value } => give_back(value, run),
        Form::Jump { continues } => {
            run.at = At::Jumps {
                continues: *continues,
            };
            None
        }
        other => do_simple(rules, other, run, sink),
    }
}

/// Statements go on only from a statement that came to them.
fn list<'a, K: Sink>(
    rules: &Rules<'a>,
    stmts: &'a [Stmt],
    run: &mut Run<'a, '_>,
    sink: &mut K,
) -> Option<Stop>
    requires can { CanDoTask (ListTask stmts) rules.now run.old }
    ensures { GoesTask (ListTask stmts.entry) rules.now run.old run.new
        (record { written = K.written sink.old; faults = K.faults sink.old })
        (record { written = K.written sink.new; faults = K.faults sink.new }) result }
{
    match run.at {
        At::Goes => match stmts.split_first() {
            None => None,
            Some((first, rest)) => {
                put(&mut run.tasks, Task::List(rest));
                act(rules, &first.form, run, sink)
            }
        },
        At::Jumps { .. } => None,
        At::Leaves => None,
    }
}

/// A loop goes on from the end of its body, and from `continue`.
fn turn<'a>(rules: &Rules<'a>, e: &'a Expr, body: &'a Block, run: &mut Run<'a, '_>) -> Option<Stop>
    requires can { CanDoTask (TurnTask e body) rules.now run.old }
    ensures { (b : Outside) → GoesTask (TurnTask e.entry body.entry) rules.now run.old run.new b b
        result }
{
    match run.at {
        At::Goes => turn_on(e, body, run),
        At::Jumps { continues } => {
            run.at = At::Goes;
            if continues {
                turn_on(e, body, run)
            } else {
                None
            }
        }
        At::Leaves => None,
    }
}

/// A function that was left.
fn back<'a>(rules: &Rules<'a>, waiting: Waiting<'a>, run: &mut Run<'a, '_>)
    requires can { CanDoTask (BackTask waiting) rules.now run.old }
    ensures { (b : Outside) → GoesTask (BackTask waiting.entry) rules.now run.old run.new b b
        None }
{
    match run.at {
        At::Leaves => go_back(waiting, run),
        At::Goes => unreachable!(),
        At::Jumps { .. } => unreachable!(),
    }
}

/// One move.
pub fn step<'a, K: Sink>(rules: &Rules<'a>, run: &mut Run<'a, '_>, sink: &mut K) -> Option<Stop>
    requires can { CanMove rules.now run.old }
    ensures { Moves (tasks_left run.old) rules.now run.old run.new
        (record { written = K.written sink.old; faults = K.faults sink.old })
        (record { written = K.written sink.new; faults = K.faults sink.new }) result }
{
    match run.tasks.pop() {
        None => Some(Stop::Done),
        Some(Task::List(stmts)) => list(rules, stmts, run, sink),
        Some(Task::Closing) => None,
        Some(Task::Turn(e, body)) => turn(rules, e, body, run),
        Some(Task::Unfocus(focus)) => {
            unfocus(focus, run);
            None
        }
        Some(Task::Back(waiting)) => {
            back(rules, waiting, run);
            None
        }
    }
}
