//! What is left to do in a run of a core program; tables under way in, the configuration that they show out.
//! Read `vlt_meaning_laws/specs/Machine/Machine.antt` first, then `specs/Tasks/Shown.antt` and `specs/Tasks/Moves.antt`: what a part of a move owes.
//! Used by: `statements`, `calls`, `returns` and the machine.

mod stop;
mod task;

pub use stop::{or_full, or_halt, or_trap};
pub use task::{At, Rules, Run, Task};
