//! Whole runs.

ghost use Rattle.std.specs.Prelude.{◌≡◌};
ghost use Rattle.vlt_core.specs.View.{program_of};
ghost use Rattle.vlt_numbers.specs.HostAnswers.{lists_of};
ghost use Rattle.vlt_heap.specs.Shown.{heap_of};
ghost use Rattle.vlt_meaning.specs.Step.{Step};
ghost use Rattle.vlt_meaning.specs.World.{World};
ghost use Rattle.vlt_steps.specs.Writing.{Outside};
ghost use Rattle.vlt_interp.specs.Rooms.Start.{IsSet};
ghost use Rattle.vlt_interp.specs.Reached.{IsRunnable};
ghost use Rattle.vlt_interp.specs.Running.{IsRunning, HasGoal, ComesOrEnds, or_done};
ghost use Rattle.vlt_interp.specs.Start.{run_within, EndsAs};

use crate::moves::step;
use crate::rooms::Start;
use crate::tasks::{At, Rules, Run, Task};
use vlt_acts::{Host, start};
use vlt_base::Budgets;
use vlt_core::Program;
use vlt_io::Sink;
use vlt_numbers::Answers;
use vlt_steps::{Ended, Stop, put};

/// Goes on to where nothing is left to do, or to a stop.
pub fn finish<'a, K: Sink>(rules: &Rules<'a>, run: &mut Run<'a, '_>, sink: &mut K) -> Option<Stop>
    requires goal { HasGoal rules.now run.old }
    ensures heap { heap_of run.new.heap ≡ heap_of run.old.heap }
    ensures comes { (goal : Step) (w : World) →
        ((b : Outside) → IsRunning rules.now goal w b b run.old) → ComesOrEnds rules.now goal w
        (record { written = K.written sink.old; faults = K.faults sink.old })
        (record { written = K.written sink.new; faults = K.faults sink.new }) result run.new }
{
    while run.tasks.len() > 0 {
        if let Some(stop) = step(rules, run, sink) {
            return Some(stop);
        }
    }
    None
}

/// A run that came to where nothing is left to do is done.
fn or_done(stop: Option<Stop>) -> Stop
    ensures { result ≡ or_done stop }
{
    match stop {
        None => Stop::Done,
        Some(stop) => stop,
    }
}

/// Runs a program, over tables to which nothing was put.
pub fn run_program<'a, K: Sink>(
    program: &'a Program,
    budgets: Budgets,
    s: Start<'a>,
    input: &[i64],
    answers: &Answers,
    sink: &mut K,
) -> Ended<Stop>
    requires runnable { IsRunnable (program_of program.now) }
    requires set { IsSet (program_of program.now) budgets s }
    ensures { EndsAs (run_within program.now budgets input.now (lists_of answers.now))
        (record { written = K.written sink.old; faults = K.faults sink.old })
        (record { written = K.written sink.new; faults = K.faults sink.new }) result }
{
    let Budgets { fuel, depth, .. } = budgets;
    if depth == 0 {
        return Ended {
            stop: Stop::DepthEnd,
            fuel,
        };
    }
    let Some(main) = program.fns.get(program.main.0 as usize) else {
        unreachable!();
    };
    let Start {
        mut tasks,
        mut values,
        heap,
        line,
    } = s;
    start(&mut values, main);
    put(&mut tasks, Task::List(main.body.as_slice()));
    let host = Host {
        input,
        answers,
        taken: 0,
        line,
    };
    let rules = Rules { program, depth };
    let mut run = Run {
        func: main,
        tasks,
        at: At::Goes,
        depth: 1,
        fuel,
        values,
        heap,
        host,
    };
    let stop = or_done(finish(&rules, &mut run, sink));
    Ended {
        stop,
        fuel: run.fuel,
    }
}
