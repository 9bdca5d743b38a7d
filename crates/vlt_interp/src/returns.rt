//! Returns in a run under way: a function that gives a value, or none, in; the function left, and then its caller, out.
//! Read `vlt_meaning/specs/Calls.antt` (back_in) first, then `specs/Tasks/Moves.antt`: what a statement asks and comes to.
//! Used by: the machine.

mod returns;

pub use returns::{give_back, go_back};
