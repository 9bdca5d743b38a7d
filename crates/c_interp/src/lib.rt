//! A C program and budgets in; a machine, which runs it once over input and answers and writes its events, out.
//! Read `c_meaning/specs/Run.antt` first, then `specs/Machine.antt` and `specs/Halting.antt`; `runs` reads the C text and the files.
//! Used by: `vaultc_runs`.
#![tactic(auto)]

mod calls;
mod frames;
mod machine;
mod rules;
mod run;
mod runs;
mod stack;
mod start;
mod step;
mod stop;
mod task;

pub use machine::CMachine;
pub use runs::{CEnd, crun};
pub use stop::CStop;
pub use vlt_steps::{OpenError, Stop};
