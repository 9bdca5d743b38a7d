//! What both machines say of their steps: events and their lines in; what was written of them, and how a run stops and ends, out.
//! Read `specs/Writing.antt` first, then `specs/Stops.antt` (StopsAs) and `specs/Ends.antt`; `lines` has the bytes of an event.
//! Used by: the machine of the source's runs (`vlt_interp`) and that of C's runs (`c_interp`).
#![tactic(auto)]

mod end;
mod errors;
pub mod lines;
mod stop;
mod tables;

pub use end::{RunEnd, end_of};
pub use errors::OpenError;
pub use lines::{begin, tell_number, tell_object, write_number};
pub use stop::{Ended, Stop};
pub use tables::{next, put};
