//! A host's calls, one after another.

ghost use Rattle.std.specs.Prelude.{◌≡◌, ◌<◌, ◌^◌, [], length, map};
ghost use Rattle.std.specs.Option.{option_map};
ghost use Rattle.vlt_core.specs.View.{func_of, program_of};
ghost use Rattle.vlt_numbers.specs.HostAnswers.{lists_of};
ghost use Rattle.vlt_meaning.specs.World.{World};
ghost use Rattle.vlt_host_meaning.specs.EntryFunctions.{function_of_name};
ghost use Rattle.vlt_host_meaning.specs.HostRun.{host_run};
ghost use Rattle.vlt_host_meaning.specs.Tables.{call_of, calls_in};
ghost use Rattle.vlt_host.specs.Machine.HostMachine.{IsHosted, ShowsObjects, ShowsWorld, program_in, budgets_of, setup_in, fuel_left};
ghost use Rattle.vlt_host.specs.Runs.Ends.{StopsAs};
ghost use Rattle.vlt_host.specs.Runs.Made.{MakesCall};

use crate::machine::{Called, HostMachine, Supply};
use crate::runs::held_line::write_held;
use crate::runs::stop::HostStop;
use vlt_base::FnId;
use vlt_core::{Func, Program};
use vlt_host_meaning::{Call, Calls};
use vlt_io::Sink;
use vlt_numbers::Answers;
use vlt_steps::Stop;

/// What asking for a call comes to.
pub enum Made {
    /// The call isn't permitted.
    Refused,
    Called(Called),
}

/// The first function of a name.
fn function_named(fns: &[Func], name: &[u8]) -> Option<FnId>
    requires { length fns.now < 2 ^ 32 }
    ensures { option_map (λ f. f.0) result ≡ function_of_name name.now 0 (map func_of fns.now) }
{
    for (i, f) in fns.iter().enumerate() {
        if f.name.as_slice() == name {
            return Some(FnId(i as u32));
        }
    }
    None
}

/// Makes a call of a host, where it is permitted.
fn make_call<K: Sink>(
    machine: &mut HostMachine<'_>,
    program: &Program,
    call: Call<'_>,
    supply: &mut Supply<'_>,
    sink: &mut K,
) -> Made
    requires hosted { IsHosted machine.old }
    requires program { program_in machine.old ≡ program_of program.now }
    requires few { length (program_of program.now).fns < 2 ^ 32 }
    ensures hosted { IsHosted machine.new }
    ensures setup { setup_in machine.new ≡ setup_in machine.old }
    ensures makes { (w : World) → ShowsWorld machine.old supply.old w →
        MakesCall (setup_in machine.old) (call_of call.entry) w
        (record { written = K.written sink.old; faults = K.faults sink.old })
        (record { written = K.written sink.new; faults = K.faults sink.new })
        machine.new supply.new result }
{
    let Some(f) = function_named(program.fns.as_slice(), call.name) else {
        return Made::Refused;
    };
    if !machine.permitted(f, call.args) {
        return Made::Refused;
    }
    Made::Called(machine.call(f, call.args, supply, sink))
}

/// Makes the calls on a machine on which none was made yet, with this input and these answers, until one isn't permitted or ends the
/// run. The text of the calls is written to the sink, and after the last one what the host holds.
pub fn run_calls<K: Sink>(
    machine: &mut HostMachine<'_>,
    program: &Program,
    calls: &Calls,
    input: &[i64],
    answers: &Answers,
    sink: &mut K,
) -> HostStop
    requires hosted { IsHosted machine.old }
    requires program { program_in machine.old ≡ program_of program.now }
    requires few { length (program_of program.now).fns < 2 ^ 32 }
    requires first { ShowsObjects machine.old [] }
    ensures hosted { IsHosted machine.new }
    ensures stops { StopsAs (host_run (program_of program.now) (fuel_left machine.old)
        (budgets_of machine.old).heap (budgets_of machine.old).depth input.now
        (lists_of answers.now) (calls_in calls.now))
        (record { written = K.written sink.old; faults = K.faults sink.old })
        (record { written = K.written sink.new; faults = K.faults sink.new }) result }
{
    let mut supply = Supply {
        input,
        answers,
        taken: 0,
    };
    let mut index = 0_usize;
    while let Some(call) = calls.get(index) {
        match make_call(machine, program, call, &mut supply, sink) {
            Made::Refused => return HostStop::BadCall(index as u32 + 1),
            Made::Called(Called::Ended(stop)) => return HostStop::Stopped(stop),
            Made::Called(Called::Back(_)) => index += 1,
        }
    }
    match write_held(machine, program, sink) {
        Ok(()) => HostStop::Stopped(Stop::Done),
        Err(_) => HostStop::Stopped(Stop::SinkFault),
    }
}
