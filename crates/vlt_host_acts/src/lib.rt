//! A host's call and a function that it calls: arguments, objects and what the host holds in; slots, lines and what it holds then out.
//! Read `vlt_host_meaning/specs/OneCall.antt` first, then `specs/Frames.antt` and `specs/Clause.antt`.
//! Used by: the machine that a host calls (`vlt_host::machine`).
//! Its part `permits` decides which calls a host may make.
#![tactic(auto)]

mod clause;
mod frames;
mod lines;
mod permits;
mod values;

pub use clause::remove_taken;
pub use frames::start_called;
pub use lines::{write_call, write_result};
pub use permits::{Held, Hosted, parameters};
pub use values::HostValue;
