//! Statements without blocks, over the slots of the running frame and the heap; the tables after them, or a trap, out.
//! Read `vlt_meaning/specs/Run.antt` (does_simple) first, then `specs/Acts/Acts.antt`: what a statement comes to in the tables.
//! Used by: the machine of runs, `vlt_interp`.

mod focus;
mod keys;
mod objects;
mod vars;

pub use focus::{Focus, begin_focus, end_focus};
pub use keys::unpack;
pub use objects::{adopt, become_state, release};
pub use vars::{fill, set};
