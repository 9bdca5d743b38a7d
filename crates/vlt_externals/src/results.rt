//! What an answer says is done: objects of a case come back, states are set, new objects are made.
//! Read `vlt_meaning/specs/Externals.antt` first, then `specs/Results/Stated.antt` and `specs/Results/Results.antt`.
//! Used by: the machine of runs, `vlt_interp`.

mod keys;
mod results;
mod states;

pub use results::put_result;
pub use states::{set_case, set_entries, take_case};
