//! A program, the bytes of its files of numbers and budgets in; how its run ends out, its events going to a sink.
//! Read `specs/Runs/Ends.antt` (EndsAs) first.
//! Used by: the command `run` of `vaultc`.

ghost use Rattle.std.specs.Prelude.{◌<◌, ◌-◌, ◌^◌, length};
ghost use Rattle.vlt_numbers.specs.HostAnswers.{lists_of};
ghost use Rattle.vlt_core.specs.View.{program_of};
ghost use Rattle.vlt_interp.specs.Reached.{IsRunnable};
ghost use Rattle.vlt_interp.specs.Runs.Ends.{EndsAs, EndsRun};

use crate::Machine;
use std::alloc::Global;
use vlt_base::Budgets;
use vlt_core::Program;
use vlt_io::Sink;
use vlt_numbers::{Given, read_given};
use vlt_steps::{OpenError, RunEnd, Stop, end_of};

/// Runs a program over the numbers of its files.
fn run_over<K: Sink>(
    alloc: Global,
    program: &Program,
    given: &Given,
    budgets: Budgets,
    out: &mut K,
) -> RunEnd<Stop>
    requires { IsRunnable (program_of program.now) }
    ensures { EndsRun (program_of program.now) given.now.input.items
        (lists_of given.now.answers) budgets
        (record { written = K.written out.old; faults = K.faults out.old })
        (record { written = K.written out.new; faults = K.faults out.new }) result }
{
    match Machine::open(alloc, program, budgets) {
        Ok(mut machine) => RunEnd::Stopped(machine.go(&given.input, &given.answers, out)),
        Err(OpenError::TooWide) => RunEnd::TooWide,
        Err(OpenError::Memory) => RunEnd::Memory,
    }
}

/// Runs a program within budgets, over the numbers of an input file and the answers of an answers file; a file without bytes
/// has none. The events are written to the sink, and nothing else is.
pub fn run<K: Sink>(
    alloc: Global,
    program: &Program,
    input: &[u8],
    answers: &[u8],
    budgets: Budgets,
    out: &mut K,
) -> RunEnd<Stop>
    requires runnable { IsRunnable (program_of program.now) }
    requires input { length input.now < 2 ^ 32 - 1 }
    requires answers { length answers.now < 2 ^ 32 - 1 }
    ensures { EndsAs (program_of program.now) input.now answers.now budgets
        (record { written = K.written out.old; faults = K.faults out.old })
        (record { written = K.written out.new; faults = K.faults out.new }) result }
{
    match read_given(alloc, input, answers) {
        Ok(given) => run_over(alloc, program, &given, budgets, out),
        Err(error) => end_of(error),
    }
}
