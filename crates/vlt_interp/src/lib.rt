//! A core program and budgets in; a machine, which runs it once over input and answers and writes its events, out.
//! Read `vlt_meaning/specs/Run.antt` first, then `specs/Tasks/Moves.antt`, `specs/Reached.antt` and `specs/Machine.antt`; `runs` opens files.
//! Used by: `vaultc_runs`, for `run`, and the machine that a host calls (`vlt_host::machine`), which finishes runs that its host's calls begin.
#![tactic(auto)]

mod calls;
mod machine;
mod moves;
mod returns;
mod rooms;
mod run;
pub mod runs;
mod statements;
mod tasks;

pub use machine::Machine;
pub use rooms::{Start, is_too_wide_for_host, prepare};
pub use run::finish;
pub use tasks::{At, Rules, Run, Task};
pub use vlt_steps::{OpenError, Stop};
