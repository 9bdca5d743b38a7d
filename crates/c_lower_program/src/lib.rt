//! A core program in; the C program that stands for it, out.
//! Read `c_lower/specs/Lowering.antt` first, then `specs/Refusals.antt`.
//! Used by: the command `emit`.
//! Its parts: `code` makes functions, `glue` those that stand for externals; then how long the text is.
#![tactic(auto)]

mod code;
mod error;
mod exprs;
mod functions;
mod glue;
mod program;
mod stmts;

pub use code::lower_bodies;
pub use error::LowerError;
pub use glue::lower_externals;
pub use program::lower;
