//! Switches, arms and focuses, and the other steps of a walk: one of the tree and the names in scope in, what is refused, the scopes
//! of blocks and the core forms out. Read `Switches` of `vlt_elaboration` first.
//! Used by: `vlt_resolve`.
#![tactic(auto)]

mod pieces;
mod stop;
mod switches;

pub use pieces::{
    add_placed, close_block, focused, known_ty, one_stmt, opened_arm, passed, passed_with,
    switched, tested,
};
pub use stop::Stop;
