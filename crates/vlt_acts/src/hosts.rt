//! Statements that speak with the host of a run: printing and input; events out, numbers in.
//! Read `vlt_meaning/specs/Run.antt` (does_simple) first, then `specs/Hosts/Hosts.antt`: what such a statement comes to.
//! Used by: the machine of runs, `vlt_interp`.

mod host;
mod numbers;

pub use host::Host;
pub use numbers::{input, print};
