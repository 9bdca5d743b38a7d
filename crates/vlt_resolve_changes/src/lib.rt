//! Statements without blocks that declare nothing and don't jump: what they change, open, print and call.
//! Read `Statements` of `vlt_elaboration` first.
//! Used by: `vlt_resolve`.
#![tactic(auto)]

mod changes;
mod effects;
mod opens;

pub use changes::{change_state, put, release, swap};
pub use effects::{drop_call, print};
pub use opens::open;
