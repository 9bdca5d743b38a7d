//! A core program and budgets in; a machine that a host calls, in any order, out.
//! Read `vlt_host_meaning/specs/OneCall.antt` first, then `specs/Machine/Callable.antt` and `specs/Machine/HostMachine.antt`.
//! Used by: runs for a host (`vlt_host::runs`).

mod called;
mod calling;
mod host_machine;
mod settling;
mod tables;

pub use called::{Called, Supply};
pub use host_machine::{HeldObject, HostMachine};
pub use vlt_host_acts::HostValue;
