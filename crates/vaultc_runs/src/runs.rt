//! Runs of accepted programs, and the lines after their events.

ghost use Rattle.std.specs.Prelude.{◌≡◌};
ghost use Rattle.vlt_base.specs.declared.limits.TheConstants.{SOURCE_BYTES};
ghost use Rattle.vlt_core.specs.View.{program_of};
ghost use Rattle.vlt_numbers.specs.Given.Given.{given_by};
ghost use Rattle.vlt_interp.specs.Reached.{IsRunnable};
ghost use Rattle.vaultc_runs.specs.Runs.{IsReplyToProgram};
ghost use Rattle.vaultc_runs.specs.Finishes.{Finishes};
ghost use Rattle.vaultc_words.specs.FilesSeen.{AreShort};
ghost use Rattle.vaultc_runs.specs.Shown.{EndsRun, StopsRun};

use crate::lines::{bad_answer, bad_numbers, over_limit};
use crate::status::{DONE, NO_MEMORY, OUT_OF_BUDGET, OUT_OF_NUMBERS, SINK_FAILED, TRAPPED};
use crate::write::{finish, finish_reply};
use std::alloc::Global;
use vaultc_words::RunFiles;
use vlt_base::{Budgets, VALUE_SLOTS};
use vlt_core::Program;
use vlt_interp::runs::run;
use vlt_io::Sink;
use vlt_ops::TrapKind;
use vlt_steps::{RunEnd, Stop};

/// Who calls the functions of a program that is run.
#[derive(Clone, Copy, Debug)]
pub enum Caller<'a> {
    /// `main` is called, and nothing else.
    Main,
    /// A host makes the calls of a calls file that has these bytes.
    Host(&'a [u8]),
}

/// Writes the line after the events of a run that stopped so, and gives the status.
pub fn finish_stop<K: Sink>(alloc: Global, out: &mut K, stop: Stop) -> u8
    ensures { StopsRun K.Sink stop out.old out.new result }
{
    match stop {
        Stop::Done => DONE,
        Stop::Trap(TrapKind::Overflow) => finish(out, TRAPPED, b"trap 1\n"),
        Stop::Trap(TrapKind::ZeroDivisor) => finish(out, TRAPPED, b"trap 2\n"),
        Stop::FuelEnd => finish(out, OUT_OF_BUDGET, b"budget fuel\n"),
        Stop::HeapEnd => finish(out, OUT_OF_BUDGET, b"budget heap\n"),
        Stop::DepthEnd => finish(out, OUT_OF_BUDGET, b"budget depth\n"),
        Stop::InputEnd => finish(out, OUT_OF_NUMBERS, b"input ended\n"),
        Stop::AnswersEnd => finish(out, OUT_OF_NUMBERS, b"answers ended\n"),
        Stop::BadAnswer(position) => finish_reply(out, bad_answer(alloc, position)),
        Stop::SinkFault => SINK_FAILED,
    }
}

/// Writes the last line of an end, and gives the status.
pub fn finish_end<K: Sink>(alloc: Global, end: RunEnd<Stop>, out: &mut K) -> u8
    ensures { EndsRun K.Sink end out.old out.new result }
{
    match end {
        RunEnd::BadInput(line) => finish_reply(out, bad_numbers(alloc, "input", line)),
        RunEnd::BadAnswers(line) => finish_reply(out, bad_numbers(alloc, "answers", line)),
        RunEnd::TooWide => finish_reply(out, over_limit(alloc, VALUE_SLOTS)),
        RunEnd::Stopped(stop) => finish_stop(alloc, out, stop),
        RunEnd::Memory => NO_MEMORY,
    }
}

/// Runs an accepted program over the numbers of the run's files within the budgets, and gives the status.
pub fn run_program<K: Sink>(
    alloc: Global,
    program: &Program,
    files: &RunFiles,
    budgets: Budgets,
    out: &mut K,
) -> u8
    requires runnable { IsRunnable (program_of program.now) }
    requires short { AreShort SOURCE_BYTES files.now }
    ensures { Finishes K.Sink (IsReplyToProgram (program_of program.now)
        (given_by files.now.input.items files.now.answers.items) budgets)
        out.old out.new result }
{
    let input = files.input.as_slice();
    let answers = files.answers.as_slice();
    let end = run(alloc, program, input, answers, budgets, out);
    finish_end(alloc, end, out)
}
