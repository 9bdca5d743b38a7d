//! Statements of a core program in; C statements, added to those that are there, out.
//! Read `c_lower/specs/Statements.antt` first, then `c_lower_calls/specs/Written.antt` (Writes).
//! Used by: `c_lower_program::code`, which lowers functions and programs.
#![tactic(auto)]

mod blocks;
mod exchanges;
mod flat;
mod simple;
mod stmts;
mod variants;

pub use blocks::{Body, push_case};
pub use stmts::lower_stmts;
