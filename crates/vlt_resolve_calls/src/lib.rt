//! Ticks and calls: a target and the names in scope in, the least refusal and the core forms out.
//! Read `specs/Builds.antt` first, then `Calls`.
//! Used by: the elaboration of all right sides and of statements.
#![tactic(auto)]

mod builds;
mod calls;
mod matching;

pub use builds::{Case, build, case_of_tick, cases_of, without_tick};
pub use calls::{Use, call, has_fresh};
