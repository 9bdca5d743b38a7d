//! The heap of a run: objects in, places and numbers out; no memory is taken once it is open.
//! Read `specs/Items.antt` first, then `specs/Shown.antt`: the objects that a heap shows, and what each call does to them.
//! Used by: the machine of runs, `vlt_interp`.
#![tactic(auto)]

mod heap;
mod slots;

pub use heap::Heap;
pub use slots::{Obj, Slot};
