//! Statements of a core program that are no calls and no returns; a run under way in, the run after the statement or its stop out.
//! Read `vlt_meaning_laws/specs/Machine/Machine.antt` (act) first, then `specs/Tasks/Moves.antt`: what a statement asks and comes to.
//! Used by: the machine.

mod blocks;
mod simple;

pub use blocks::{choose, enter_block, focus_on, switch_on, turn_on, unfocus};
pub use simple::do_simple;
