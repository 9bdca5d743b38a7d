//! Statements that make objects, hand them on and end them, over the slots of the running frame and the heap.
//! Read `vlt_meaning/specs/Run.antt` (does_simple) first, then `specs/Objects/Owned.antt`: the objects that slots own.
//! Used by: the machine of runs, `vlt_interp`.

mod cases;
mod cells;
mod drops;
mod halt;
mod making;
mod opening;
mod owned;
mod swaps;

pub use cases::{build, case_number, open_arm};
pub use cells::put;
pub use drops::drop_value;
pub use halt::Halt;
pub use making::make;
pub use opening::open_into;
pub use swaps::swap;
