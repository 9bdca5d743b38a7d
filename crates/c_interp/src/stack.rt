//! The stack of tasks.

ghost use Rattle.std.specs.Prelude.{◌≡◌, ◌≤◌, ℕ, List, Some, None, vec_capacity};
ghost use Rattle.vlt_rings.specs.Things.{Things};
ghost use Rattle.c_syntax.specs.declared.rules.TheConstants as rule;
ghost use Rattle.c_meaning.specs.World as model;
ghost use Rattle.c_meaning.specs.Primitives.{Effect};
ghost use Rattle.c_machine.specs.Machine as m;
ghost use Rattle.c_values.specs.Shown.{AreMadeSlots};
ghost use Rattle.c_primitives.specs.declared.world.World.{World as Shown};
ghost use Rattle.c_primitives.specs.Shown.{Comes};
ghost use Rattle.vlt_steps.specs.Writing.{Outside};
ghost use Rattle.c_interp.specs.declared.task.Task.{Task};
ghost use Rattle.c_interp.specs.declared.frames.Frames.{Frames as Values};
ghost use Rattle.c_interp.specs.Shown.{state_of, caller_of, tasks_of, given_view, IsPlain, KeepsFrames, CameTo};

use crate::frames::Frames;
use crate::stop::{CStop, stop_at};
use crate::task::{Caller, Task};
use c_primitives::Halt;
use c_syntax::rules::NO_VALUE;
use c_syntax::{CResult, CVar};
use c_values::Value;
use vlt_steps::{Stop, put};

/// A stop by a value that isn't given.
pub fn no_value(n: u32) -> Option<CStop>
    ensures { result ≡ Some (CStop.Undefined rule.NO_VALUE n) }
{
    Some(CStop::Undefined {
        rule: NO_VALUE,
        statement: n,
    })
}

/// A value comes to the target of the statement of a number.
fn receive(n: u32, target: Option<CVar>, value: Option<Value>, frames: &mut Frames) -> Option<CStop>
    ensures comes { (ts : List Task) (w : model.World) →
        IsPlain result ts frames.new w (m.after_receiving n target (given_view value) (tasks_of ts)
        (state_of frames.old w)) }
    ensures kept { KeepsFrames value frames.old frames.new }
{
    let Some(v) = target else {
        return None;
    };
    match value {
        Some(a) => {
            frames.set(v, a);
            None
        }
        None => no_value(n),
    }
}

/// What a statement of a number gives comes to its target, or the run ends.
pub fn after(
    n: u32,
    target: Option<CVar>,
    r: Result<Option<Value>, Halt>,
    frames: &mut Frames,
) -> Option<CStop>
    ensures comes { (ts : List Task) (things : Things) (w : model.World) (s : Shown)
        (before after : Outside) (e : Effect) → AreMadeSlots things frames.old.values.items →
        Comes things s w before after r e → CameTo w before after result ts frames.new s
        (m.after n target e (tasks_of ts) (state_of frames.old w)) }
    ensures room { vec_capacity frames.old.values ≤ vec_capacity frames.new.values }
{
    match r {
        Ok(value) => receive(n, target, value, frames),
        Err(halt) => Some(stop_at(halt, n)),
    }
}

/// How many functions run that aren't glue, once one returns.
fn depth_out(is_glue: bool, depth: u32) -> u32
    ensures { result ≡ m.depth_out is_glue depth }
{
    if is_glue {
        depth
    } else {
        depth.saturating_sub(1)
    }
}

/// Back to the caller.
fn go_back<'a>(caller: Caller<'a>, frames: &mut Frames<'a>)
    ensures state { (w : model.World) → state_of frames.new w
        ≡ m.caller_state (caller_of caller.entry) (state_of frames.old w) }
    ensures kept { KeepsFrames None frames.old frames.new }
{
    frames.values.truncate(frames.base);
    frames.depth = depth_out(frames.is_glue, frames.depth);
    frames.base = caller.base;
    frames.func = caller.func;
    frames.is_glue = caller.is_glue;
}

/// The function returns, with a value or without one.
pub fn leave<'a>(
    value: Option<Value>,
    tasks: &mut Vec<Task<'a>>,
    frames: &mut Frames<'a>,
) -> Option<CStop>
    ensures comes { (w : model.World) → IsPlain result tasks.new.items frames.new w
        (m.leave (given_view value) (tasks_of tasks.old.items) (state_of frames.old w)) }
    ensures kept { KeepsFrames value frames.old frames.new }
    ensures room { vec_capacity tasks.old ≤ vec_capacity tasks.new }
{
    while let Some(task) = tasks.pop() {
        match task {
            Task::List(..) => {}
            Task::Again(..) => {}
            Task::Back(caller) => {
                go_back(caller, frames);
                return receive(caller.n, caller.target, value, frames);
            }
            Task::Bottom(_) => return Some(CStop::Stopped(Stop::Done)),
        }
    }
    Some(CStop::Stopped(Stop::Done))
}

/// Following the loop that is under way. `count` is how many statements there are.
pub fn break_to(count: u32, tasks: &mut Vec<Task>) -> Option<CStop>
    ensures comes { (f : Values) (w : model.World) →
        IsPlain result tasks.new.items f w (m.break_to count (tasks_of tasks.old.items)
        (state_of f w)) }
    ensures room { vec_capacity tasks.old ≤ vec_capacity tasks.new }
{
    while let Some(task) = tasks.pop() {
        match task {
            Task::List(..) => {}
            Task::Again(..) => return None,
            Task::Back(_) => return no_value(count),
            Task::Bottom(_) => return no_value(count),
        }
    }
    no_value(count)
}

/// To the next turn of the loop that is under way. `count` is how many statements there are.
pub fn continue_to(count: u32, tasks: &mut Vec<Task>) -> Option<CStop>
    ensures comes { (f : Values) (w : model.World) →
        IsPlain result tasks.new.items f w (m.continue_to count (tasks_of tasks.old.items)
        (state_of f w)) }
    ensures room { vec_capacity tasks.old ≤ vec_capacity tasks.new }
{
    while let Some(task) = tasks.pop() {
        match task {
            Task::List(..) => {}
            Task::Again(n, body) => {
                put(tasks, Task::Again(n, body));
                return None;
            }
            Task::Back(_) => return no_value(count),
            Task::Bottom(_) => return no_value(count),
        }
    }
    no_value(count)
}

/// The end of the body of a function that gives this, its own task being the last.
pub fn end_body<'a>(
    count: u32,
    given: CResult,
    tasks: &mut Vec<Task<'a>>,
    frames: &mut Frames<'a>,
) -> Option<CStop>
    ensures comes { (w : model.World) → IsPlain result tasks.new.items frames.new w
        (m.body_end count given None (tasks_of tasks.old.items) (state_of frames.old w)) }
    ensures kept { KeepsFrames None frames.old frames.new }
    ensures room { vec_capacity tasks.old ≤ vec_capacity tasks.new }
{
    match given {
        CResult::Nothing => leave(None, tasks, frames),
        CResult::Number => no_value(count),
        CResult::Reference => no_value(count),
    }
}
