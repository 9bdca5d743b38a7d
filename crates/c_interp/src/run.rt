//! Whole runs.

ghost use Rattle.std.specs.Prelude.{◌≡◌, ◌≤◌, ◌+◌, ◌++◌, false, None, replicate, length, vec_capacity};
ghost use Rattle.c_syntax.specs.View.{func_of};
ghost use Rattle.vlt_steps.specs.Writing.{Outside};
ghost use Rattle.c_interp.specs.Shown.{HasRoom};
ghost use Rattle.c_interp.specs.Running.{start_of, run_of, IsRunning, IsFinished, CanRun};

use crate::frames::{Frames, fill};
use crate::rules::{Found, Rules};
use crate::step::step;
use crate::stop::CStop;
use crate::task::Task;
use c_primitives::World;
use c_values::Value;
use vlt_io::Sink;
use vlt_steps::put;

/// Goes on to the end of the run.
pub fn finish<'a, K: Sink>(
    rules: &Rules<'a>,
    tasks: &mut Vec<Task<'a>>,
    frames: &mut Frames<'a>,
    world: &mut World,
    sink: &mut K,
) -> CStop
    requires room { HasRoom rules.now tasks.old.items
        (vec_capacity tasks.old) frames.old world.old }
    requires start { (b : Outside) → IsRunning rules.now (run_of rules.now world.old)
        (start_of world.old) b b tasks.old.items frames.old world.old }
    ensures { IsFinished (run_of rules.now world.old) (start_of world.old)
        (record { written = K.written sink.old; faults = K.faults sink.old })
        (record { written = K.written sink.new; faults = K.faults sink.new }) result world.new }
{
    loop {
        match step(rules, tasks, frames, world, sink) {
            None => {}
            Some(stop) => return stop,
        }
    }
}

/// The frame of the function that a run begins with, over an empty table of values.
fn first_frame<'a>(main: Found<'a>, values: Vec<Option<Value>>) -> Frames<'a>
    requires room { length values.items + length
        (func_of main.func.now).vars ≤ vec_capacity values }
    ensures func { result.func ≡ main.entry.func }
    ensures base { result.base ≡ 0 }
    ensures glue { result.is_glue ≡ false }
    ensures depth { result.depth ≡ 1 }
    ensures items { result.values.items ≡ values.items ++ replicate
        (length (func_of main.entry.func.now).vars) None }
    ensures kept { vec_capacity values ≤ vec_capacity result.values }
{
    let mut values = values;
    fill(&mut values, main.func.vars.len());
    Frames {
        values,
        base: 0,
        func: main.func,
        is_glue: false,
        depth: 1,
    }
}

/// Runs the function that a run begins with, over empty tables.
pub fn run<'a, K: Sink>(
    rules: &Rules<'a>,
    main: Found<'a>,
    tasks: &mut Vec<Task<'a>>,
    values: Vec<Option<Value>>,
    world: &mut World,
    sink: &mut K,
) -> CStop
    requires start { CanRun rules.now main tasks.old.items (vec_capacity tasks.old) values.items
        (vec_capacity values) world.old }
    ensures { IsFinished (run_of rules.now world.old) (start_of world.old)
        (record { written = K.written sink.old; faults = K.faults sink.old })
        (record { written = K.written sink.new; faults = K.faults sink.new }) result world.new }
{
    let mut frames = first_frame(main, values);
    put(tasks, Task::Bottom(main.func.result));
    put(tasks, Task::List(main.first, main.func.body.as_slice()));
    finish(rules, tasks, &mut frames, world, sink)
}
