//! A core program, a host's calls, files of numbers and budgets in; how its run for the host ends out, its text going to a sink.
//! Read `vlt_host_meaning/specs/HostRun.antt` first, then `specs/Runs/Ends.antt` (EndsAs).
//! Used by: the command `host` of `vaultc`.

mod calls;
mod held_line;
mod runs;
mod stop;

pub use calls::run_calls;
pub use runs::run_for_host;
pub use stop::HostStop;
