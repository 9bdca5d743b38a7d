//! A program, a host's calls, the bytes of its files of numbers and budgets in; how the run ends out, its text going to a sink.
//! Read `specs/Runs/Ends.antt` (EndsAs) first.
//! Used by: the command `host` of `vaultc`.

ghost use Rattle.std.specs.Prelude.{◌<◌, ◌-◌, ◌^◌, length};
ghost use Rattle.vlt_numbers.specs.HostAnswers.{lists_of};
ghost use Rattle.vlt_core.specs.View.{program_of};
ghost use Rattle.vlt_host_meaning.specs.Tables.{calls_in};
ghost use Rattle.vlt_host.specs.Machine.Callable.{IsCallable};
ghost use Rattle.vlt_host.specs.Runs.Ends.{EndsAs, EndsRun};

use crate::machine::HostMachine;
use crate::runs::calls::run_calls;
use crate::runs::stop::HostStop;
use std::alloc::Global;
use vlt_base::Budgets;
use vlt_core::Program;
use vlt_host_meaning::Calls;
use vlt_io::Sink;
use vlt_numbers::{Given, read_given};
use vlt_steps::{OpenError, RunEnd, end_of};

/// Makes a host's calls over the numbers of the run's files.
fn run_over<K: Sink>(
    alloc: Global,
    program: &Program,
    calls: &Calls,
    given: &Given,
    budgets: Budgets,
    out: &mut K,
) -> RunEnd<HostStop>
    requires callable { IsCallable (program_of program.now) }
    requires few { length (program_of program.now).fns < 2 ^ 32 }
    ensures { EndsRun (program_of program.now) (calls_in calls.now) given.now.input.items
        (lists_of given.now.answers) budgets
        (record { written = K.written out.old; faults = K.faults out.old })
        (record { written = K.written out.new; faults = K.faults out.new }) result }
{
    match HostMachine::open(alloc, program, budgets) {
        Ok(mut machine) => RunEnd::Stopped(run_calls(
            &mut machine,
            program,
            calls,
            &given.input,
            &given.answers,
            out,
        )),
        Err(OpenError::TooWide) => RunEnd::TooWide,
        Err(OpenError::Memory) => RunEnd::Memory,
    }
}

/// Makes a host's calls on a program within budgets, over the numbers of an input file and the answers of an answers file; a file
/// without bytes has none. The text of the calls is written to the sink, and nothing else is.
pub fn run_for_host<K: Sink>(
    alloc: Global,
    program: &Program,
    calls: &Calls,
    input: &[u8],
    answers: &[u8],
    budgets: Budgets,
    out: &mut K,
) -> RunEnd<HostStop>
    requires callable { IsCallable (program_of program.now) }
    requires few { length (program_of program.now).fns < 2 ^ 32 }
    requires input { length input.now < 2 ^ 32 - 1 }
    requires answers { length answers.now < 2 ^ 32 - 1 }
    ensures { EndsAs (program_of program.now) (calls_in calls.now) input.now answers.now budgets
        (record { written = K.written out.old; faults = K.faults out.old })
        (record { written = K.written out.new; faults = K.faults out.new }) result }
{
    match read_given(alloc, input, answers) {
        Ok(given) => run_over(alloc, program, calls, &given, budgets, out),
        Err(error) => end_of(error),
    }
}
