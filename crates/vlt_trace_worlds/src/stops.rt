//! How a run ends.

use std::alloc::AllocError;
use vlt_ops::TrapKind;

/// Why a step can't be done.
#[derive(Clone, Copy)]
pub enum Reason {
    /// There is no such variable, key, field, case, function or object, or it is of another kind.
    Missing,
    /// A variable has no value, or a key names no object.
    NoValue,
    /// An owning variable has a value already.
    NotEmpty,
    /// The object isn't held, or isn't lent, under its key.
    NotHeld,
    /// The object isn't the one that the key names.
    OtherObject,
    /// The guard's object didn't adopt it.
    NotGuarded,
    /// It is in no state that the step allows.
    WrongState,
    /// It isn't in the value or the field that it is taken out of.
    NotOwned,
    /// An object would adopt itself.
    SameObject,
    /// A block or a function ends while it has an object.
    LeftBehind,
    /// A body ends without a return.
    NoReturn,
}

/// How a run ends that doesn't come to main's end.
#[derive(Clone, Copy)]
pub enum Stop {
    Trap(TrapKind),
    FuelEnd,
    HeapEnd,
    DepthEnd,
    InputEnd,
    AnswersEnd,
    /// The answer at this position, from 1, doesn't keep its external's clause.
    BadAnswer(u64),
    /// A step can't be done, at the object of this position where there is one.
    Fault(Reason, Option<usize>),
}

/// Why a step isn't done: the run ends, or there is no memory.
#[derive(Clone, Copy)]
pub enum Halt {
    Ends(Stop),
    Memory,
}

impl From<AllocError> for Halt {
    ghost use Rattle.std.specs.Prelude.{◌≡◌};
    ghost use Rattle.vlt_trace_worlds.specs.declared.stops.Halt.TheVariants.{Memory};

    ghost from_gives = { λ _ error. error ≡ Memory };

    fn from(_: AllocError) -> Halt {
        Halt::Memory
    }
}

impl From<Stop> for Halt {
    ghost use Rattle.std.specs.Prelude.{◌≡◌};
    ghost use Rattle.vlt_trace_worlds.specs.declared.stops.Halt.TheVariants.{Ends};

    ghost from_gives = { λ stop error. error ≡ Ends stop };

    fn from(stop: Stop) -> Halt {
        Halt::Ends(stop)
    }
}
