//! The run of a program that is read.

ghost use Rattle.std.specs.Prelude.{◌<◌, ◌-◌, ◌^◌, length};
ghost use Rattle.vlt_numbers.specs.HostAnswers.{lists_of};
ghost use Rattle.vlt_numbers.specs.Given.Given.{given_by};
ghost use Rattle.c_syntax.specs.View.{program_of};
ghost use Rattle.c_machine.specs.Machine.{IsRunnable};
ghost use Rattle.c_interp.specs.Runs.Ends.{EndsRun, EndsGiven};

use crate::{CMachine, CStop};
use c_syntax::CProgram;
use std::alloc::Global;
use vlt_base::Budgets;
use vlt_io::Sink;
use vlt_numbers::{Given, read_given};
use vlt_steps::{OpenError, RunEnd, end_of};

/// Runs a program over numbers and answers.
fn run<K: Sink>(
    alloc: Global,
    program: &CProgram,
    given: &Given,
    budgets: Budgets,
    out: &mut K,
) -> RunEnd<CStop>
    requires runnable { IsRunnable (program_of program.now) }
    ensures { EndsRun (program_of program.now) given.now.input.items
        (lists_of given.now.answers) budgets
        (record { written = K.written out.old; faults = K.faults out.old })
        (record { written = K.written out.new; faults = K.faults out.new }) result }
{
    match CMachine::open(alloc, program, budgets) {
        Ok(mut machine) => RunEnd::Stopped(machine.go(&given.input, &given.answers, out)),
        Err(OpenError::TooWide) => RunEnd::TooWide,
        Err(OpenError::Memory) => RunEnd::Memory,
    }
}

/// Runs a program over the numbers and answers of files.
pub fn run_file<K: Sink>(
    alloc: Global,
    program: &CProgram,
    input: &[u8],
    answers: &[u8],
    budgets: Budgets,
    out: &mut K,
) -> RunEnd<CStop>
    requires runnable { IsRunnable (program_of program.now) }
    requires input { length input.now < 2 ^ 32 - 1 }
    requires answers { length answers.now < 2 ^ 32 - 1 }
    ensures { EndsGiven (program_of program.now) (given_by input.now answers.now) budgets
        (record { written = K.written out.old; faults = K.faults out.old })
        (record { written = K.written out.new; faults = K.faults out.new }) result }
{
    match read_given(alloc, input, answers) {
        Ok(given) => run(alloc, program, &given, budgets, out),
        Err(error) => end_of(error),
    }
}
