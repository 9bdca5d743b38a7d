//! Calls of externals: arguments at the end of the table in; an event out, and what its answer says done.
//! Read `vlt_meaning/specs/Externals.antt` and `HostAnswers.antt` first, then `specs/HostCalls/Called.antt` (the whole call).
//! Used by: the machine of runs, `vlt_interp`.
#![tactic(auto)]

mod backs;
mod events;
mod host_answers;
mod host_calls;
mod keys;
mod results;
mod sending;

pub use backs::{set_state, take_back};
pub use events::{call_line, take_answer};
pub use host_answers::{after_entries, below, number};
pub use host_calls::call_external;
pub use keys::caller_key;
pub use sending::{send_owned, send_taken};
