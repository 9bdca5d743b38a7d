//! The stops of statements.

ghost use Rattle.std.specs.Prelude.{◌≡◌};
ghost use Rattle.vlt_interp.specs.Tasks.Halting.{stop_of_trap, full, stop_of_result};

use vlt_acts::Halt;
use vlt_ops::TrapKind;
use vlt_steps::Stop;

/// What a statement that may trap comes to.
pub fn or_trap(done: Result<(), TrapKind>) -> Option<Stop>
    ensures { result ≡ stop_of_trap done }
{
    match done {
        Ok(()) => None,
        Err(trap) => Some(Stop::Trap(trap)),
    }
}

/// What a statement that makes an object comes to.
pub fn or_full(done: Result<(), Halt>) -> Option<Stop>
    ensures { result ≡ full done }
{
    match done {
        Ok(()) => None,
        Err(Halt::Trap(trap)) => Some(Stop::Trap(trap)),
        Err(Halt::HeapEnd) => Some(Stop::HeapEnd),
    }
}

/// What a statement that speaks with the host comes to.
pub fn or_halt(done: Result<(), Stop>) -> Option<Stop>
    ensures { result ≡ stop_of_result done }
{
    match done {
        Ok(()) => None,
        Err(stop) => Some(stop),
    }
}
