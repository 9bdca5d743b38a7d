//! Calls in the table of values: arguments after the caller's frame in, the callee's frame out; at a return, back.
//! Read `vlt_meaning/specs/Calls.antt` first, then `specs/Frames/Frames.antt`, `specs/Frames/Entered.antt` and `specs/Frames/Left.antt`.
//! Used by: the machine of runs, `vlt_interp`.

mod entering;
mod leaving;
mod waiting;

pub use entering::{enter, start};
pub use leaving::{give, leave};
pub use waiting::Waiting;
