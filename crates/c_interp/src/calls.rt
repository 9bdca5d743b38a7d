//! Calls.

ghost use Rattle.std.specs.Prelude.{◌≡◌, ◌≤◌, ◌+◌, List, map, length, vec_capacity};
ghost use Rattle.c_syntax.specs.C as c;
ghost use Rattle.c_syntax.specs.View.{arg_of, call_of, func_of};
ghost use Rattle.c_meaning.specs.Run as run;
ghost use Rattle.c_machine.specs.Machine as m;
ghost use Rattle.c_primitives.specs.Shown.{IsReady};
ghost use Rattle.vlt_steps.specs.Writing.{Outside};
ghost use Rattle.c_interp.specs.declared.frames.Frames.{Frames as Values};
ghost use Rattle.c_values.specs.declared.value.Value.{Value};
ghost use Rattle.c_values.specs.Shown.{value_view};
ghost use Rattle.c_interp.specs.Shown.{tasks_of, state_of, setup_of, Came, HasRoomToDo};
ghost use Rattle.c_interp.specs.Calling.{ArePushed, HasPushed, IsDepth, numbered_of};

use crate::frames::{Frames, fill};
use crate::rules::{Found, Rules};
use crate::stack::{after, no_value};
use crate::stop::CStop;
use crate::task::{Caller, Task};
use c_primitives::World;
use c_syntax::{CArg, CCall, CFunc, CName, CVar};
use c_values::arg;
use vlt_io::Sink;
use vlt_steps::{Stop, put};

/// Whether a function can be called with these arguments.
fn can_call(glue: bool, func: &CFunc, args: &[CArg], is_glue: bool) -> bool
    ensures { (f : run.Frame) → f.is_glue ≡ is_glue →
        result ≡ run.can_call glue (func_of func.now) (map arg_of args.now) f }
{
    func.params.len() == args.len() && !(glue && is_glue)
}

/// The values of arguments after those of the running frame.
fn push_args(args: &[CArg], frames: &mut Frames) -> Result<(), u8>
    requires top { frames.old.base ≤ length frames.old.values.items }
    requires room { length frames.old.values.items + length args.now ≤ vec_capacity
        frames.old.values }
    ensures pushed { ArePushed result (map arg_of args.now) frames.old frames.new }
    ensures room { vec_capacity frames.old.values ≤ vec_capacity frames.new.values }
{
    let end = frames.values.len();
    for x in args {
        match arg(x, frames.vars_to(end)) {
            Ok(a) => put(&mut frames.values, Some(a)),
            Err(rule) => return Err(rule),
        }
    }
    Ok(())
}

/// How many functions run that aren't glue, once one is called.
fn depth_in(glue: bool, depth: u32, most: u32) -> Option<u32>
    ensures { (r : run.Setup) → r.depth ≡ most → IsDepth r glue depth result }
{
    if glue {
        Some(depth)
    } else if depth < most {
        Some(depth + 1)
    } else {
        None
    }
}

/// Enters a function, the values of whose arguments stand after those of the running frame, which end there.
fn enter<'a>(
    rules: &Rules<'a>,
    n: u32,
    target: Option<CVar>,
    glue: bool,
    found: Found<'a>,
    end: usize,
    tasks: &mut Vec<Task<'a>>,
    frames: &mut Frames<'a>,
    world: &mut World,
) -> Option<CStop>
    requires ready { IsReady world.old }
    requires within { end ≤ length frames.old.values.items }
    requires room { length frames.old.values.items + length
        (func_of found.func.now).vars ≤ vec_capacity frames.old.values }
    requires tasks { length tasks.old.items + 2 ≤ vec_capacity tasks.old }
    ensures { (before : Values) (values : List Value) (b : Outside) →
        HasPushed before frames.old values → end ≡ length before.values.items →
        Came (vec_capacity tasks.old) (vec_capacity tasks.new) before frames.new world.old
        world.new b b result tasks.new.items
        (λ w. m.enter (setup_of rules.now) n target glue (numbered_of found.entry)
        (map value_view values) (tasks_of tasks.old.items) (state_of before w)) }
{
    if world.fuel == 0 {
        return Some(CStop::Stopped(Stop::FuelEnd));
    }
    world.fuel -= 1;
    let Some(depth) = depth_in(glue, frames.depth, rules.depth) else {
        return Some(CStop::Stopped(Stop::DepthEnd));
    };
    fill(&mut frames.values, found.func.vars.len());
    let caller = Caller {
        base: frames.base,
        func: frames.func,
        is_glue: frames.is_glue,
        n,
        target,
        given: found.func.result,
    };
    put(tasks, Task::Back(caller));
    put(tasks, Task::List(found.first, found.func.body.as_slice()));
    frames.base = end;
    frames.func = found.func;
    frames.is_glue = glue;
    frames.depth = depth;
    None
}

/// Calls the function of a name.
fn call<'a>(
    rules: &Rules<'a>,
    n: u32,
    target: Option<CVar>,
    name: CName,
    args: &[CArg],
    tasks: &mut Vec<Task<'a>>,
    frames: &mut Frames<'a>,
    world: &mut World,
) -> Option<CStop>
    requires room { HasRoomToDo rules.now n (c.call (c.function name (map arg_of args.now)))
        (length tasks.old.items) (vec_capacity tasks.old) frames.old world.old }
    ensures { (b : Outside) → Came (vec_capacity tasks.old)
        (vec_capacity tasks.new) frames.old frames.new world.old world.new b b result
        tasks.new.items (λ w. m.does_call (setup_of rules.now) n target
        (c.function name (map arg_of args.now)) (tasks_of tasks.old.items)
        (state_of frames.old w)) }
{
    let Some(found) = rules.find(name) else {
        return no_value(n);
    };
    if !can_call(name.glue, found.func, args, frames.is_glue) {
        return no_value(n);
    }
    let end = frames.values.len();
    match push_args(args, frames) {
        Ok(()) => enter(
            rules, n, target, name.glue, found, end, tasks, frames, world,
        ),
        Err(rule) => Some(CStop::Undefined { rule, statement: n }),
    }
}

/// A call, whose value comes to the target of the statement of a number.
pub fn do_call<'a, K: Sink>(
    rules: &Rules<'a>,
    n: u32,
    target: Option<CVar>,
    x: &CCall,
    tasks: &mut Vec<Task<'a>>,
    frames: &mut Frames<'a>,
    world: &mut World,
    sink: &mut K,
) -> Option<CStop>
    requires room { HasRoomToDo rules.now n (c.call (call_of x.now)) (length tasks.old.items)
        (vec_capacity tasks.old) frames.old world.old }
    ensures { Came (vec_capacity tasks.old) (vec_capacity tasks.new) frames.old frames.new
        world.old world.new
        (record { written = K.written sink.old; faults = K.faults sink.old })
        (record { written = K.written sink.new; faults = K.faults sink.new }) result
        tasks.new.items (λ w. m.does_call (setup_of rules.now) n target (call_of x.now)
        (tasks_of tasks.old.items) (state_of frames.old w)) }
{
    match x {
        CCall::Primitive(p, args) => {
            let value = world.primitive(*p, args.as_slice(), frames.vars(), sink);
            after(n, target, value, frames)
        }
        CCall::Function(name, args) => call(
            rules,
            n,
            target,
            *name,
            args.as_slice(),
            tasks,
            frames,
            world,
        ),
    }
}
