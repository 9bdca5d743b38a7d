//! The maps of a walk over a body: the one that it begins with, those that it keeps, and what rows make of one.
//! Read `specs/Passed.antt` first, then `Kept` and `Unfit`.
//! Used by: the walk, and whatever else begins a body or keeps its maps.
#![tactic(auto)]

mod ends;
mod errors;
mod kept;
mod pass;
mod start;

pub use ends::{Walked, comes, leave_gone, leave_rows, stops};
pub use errors::Halt;
pub use kept::{Kept, copy_after, copy_around, join_copy_after};
pub use pass::{pass_gone, pass_rows};
pub use start::start_map_of;
