//! Runs of accepted programs for hosts, and the lines after what they write.

ghost use Rattle.std.specs.Prelude.{◌≡◌};
ghost use Rattle.vlt_base.specs.declared.limits.TheConstants.{SOURCE_BYTES};
ghost use Rattle.vlt_core.specs.View.{program_of};
ghost use Rattle.vlt_numbers.specs.Given.Given.{given_by};
ghost use Rattle.vlt_host.specs.CallsFile.{calls_of};
ghost use Rattle.vaultc_runs.specs.Callable.{IsRunnableForHosts};
ghost use Rattle.vaultc_runs.specs.HostRuns.{IsReplyToHost};
ghost use Rattle.vaultc_runs.specs.Finishes.{Finishes};
ghost use Rattle.vaultc_words.specs.Sources.{IsOver};
ghost use Rattle.vaultc_words.specs.FilesSeen.{AreShort};
ghost use Rattle.vaultc_runs.specs.Shown.{EndsHost, RefusesCalls, StopsHost};

use crate::lines::{bad_call, bad_numbers, over_limit};
use crate::runs;
use crate::status::NO_MEMORY;
use crate::write::finish_reply;
use std::alloc::Global;
use vaultc_words::RunFiles;
use vlt_base::{Budgets, VALUE_SLOTS};
use vlt_core::Program;
use vlt_host::{CallsError, HostStop, read_calls, run_for_host};
use vlt_io::Sink;
use vlt_steps::RunEnd;

/// Writes the line after what a run wrote that stopped so, and gives the status.
fn finish_stop<K: Sink>(alloc: Global, out: &mut K, stop: HostStop) -> u8
    ensures { StopsHost K.Sink stop out.old out.new result }
{
    match stop {
        HostStop::Stopped(stop) => runs::finish_stop(alloc, out, stop),
        HostStop::BadCall(position) => finish_reply(out, bad_call(alloc, position)),
    }
}

/// Writes the last line of an end, and gives the status.
fn finish_end<K: Sink>(alloc: Global, end: RunEnd<HostStop>, out: &mut K) -> u8
    ensures { EndsHost K.Sink end out.old out.new result }
{
    match end {
        RunEnd::BadInput(line) => finish_reply(out, bad_numbers(alloc, "input", line)),
        RunEnd::BadAnswers(line) => finish_reply(out, bad_numbers(alloc, "answers", line)),
        RunEnd::TooWide => finish_reply(out, over_limit(alloc, VALUE_SLOTS)),
        RunEnd::Stopped(stop) => finish_stop(alloc, out, stop),
        RunEnd::Memory => NO_MEMORY,
    }
}

/// Writes the line of a calls file that has a line that is no call, and gives the status.
fn finish_calls_error<K: Sink>(alloc: Global, out: &mut K, error: CallsError) -> u8
    ensures { RefusesCalls K.Sink error out.old out.new result }
{
    match error {
        CallsError::Bad(line) => finish_reply(out, bad_numbers(alloc, "calls", line)),
        CallsError::Memory => NO_MEMORY,
    }
}

/// Makes the calls of a calls file on an accepted program, over the numbers of the run's files within the budgets, and gives
/// the status.
pub fn run_host<K: Sink>(
    alloc: Global,
    program: &Program,
    calls: &[u8],
    files: &RunFiles,
    budgets: Budgets,
    out: &mut K,
) -> u8
    requires callable { IsRunnableForHosts (program_of program.now) }
    requires calls { ¬ (IsOver SOURCE_BYTES calls.now) }
    requires short { AreShort SOURCE_BYTES files.now }
    ensures { Finishes K.Sink (IsReplyToHost (program_of program.now) (calls_of calls.now)
        (given_by files.now.input.items files.now.answers.items) budgets)
        out.old out.new result }
{
    let calls = match read_calls(alloc, calls) {
        Ok(calls) => calls,
        Err(error) => return finish_calls_error(alloc, out, error),
    };
    let input = files.input.as_slice();
    let answers = files.answers.as_slice();
    let end = run_for_host(alloc, program, &calls, input, answers, budgets, out);
    finish_end(alloc, end, out)
}
