//! What single statements, calls and returns do to the slots of frames and to the heap: a part of a move in, its tables or trap out.
//! Read `vlt_meaning/specs/Run.antt` first, then `specs/Values/Parts.antt` and `specs/Acts/Acts.antt`; each module says what it reads.
//! Used by: the machine of runs, `vlt_interp`, and calls of externals.
#![tactic(auto)]

mod acts;
mod frames;
mod hosts;
mod objects;
mod values;

pub use acts::{Focus, adopt, become_state, begin_focus, end_focus, fill, release, set, unpack};
pub use frames::{Waiting, enter, give, leave, start};
pub use hosts::{Host, input, print};
pub use objects::{Halt, build, case_number, drop_value, make, open_arm, open_into, put, swap};
pub use values::{Values, number, push_operands};
