//! How a machine stops.

ghost use Rattle.std.specs.Prelude.{◌≡◌};
ghost use Rattle.c_interp.specs.Halting.{stop_for};

use c_primitives::Halt;
use vlt_steps::Stop;

/// How a machine stops.
#[derive(Clone, Copy, Debug, PartialEq, Eq)]
pub enum CStop {
    /// As the machine of the source's runs stops too.
    Stopped(Stop),
    /// The text has no meaning: the rule is broken at the statement of this number.
    Undefined { rule: u8, statement: u32 },
}

/// The stop at the statement of a number.
pub fn stop_at(halt: Halt, n: u32) -> CStop
    ensures { result ≡ stop_for n halt }
{
    match halt {
        Halt::Broken(rule) => CStop::Undefined { rule, statement: n },
        Halt::Stopped(stop) => CStop::Stopped(stop),
    }
}
