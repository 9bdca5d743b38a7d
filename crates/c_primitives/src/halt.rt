//! How a statement ends a run.

ghost use Rattle.std.specs.Prelude.{◌≡◌};
ghost use Rattle.c_primitives.specs.Done.{done_as};

use c_values::Value;
use vlt_steps::Stop;

/// How a statement ends a run.
#[derive(Clone, Copy, Debug, PartialEq, Eq)]
pub enum Halt {
    /// The text has no meaning: a rule is broken.
    Broken(u8),
    /// The machine stops so.
    Stopped(Stop),
}

/// Nothing is given, or a rule is broken.
pub fn done(r: Result<(), u8>) -> Result<Option<Value>, Halt>
    ensures { result ≡ done_as r }
{
    match r {
        Ok(()) => Ok(None),
        Err(rule) => Err(Halt::Broken(rule)),
    }
}
