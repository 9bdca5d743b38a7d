//! Expressions and arguments of a C program, the variables of a frame and its blocks in; values, or the broken rule, out.
//! Read `c_meaning/specs/Values.antt` first, then `specs/Shown.antt`.
//! Used by: primitives, assignments and `c_interp::CMachine::go`.
#![tactic(auto)]

mod exprs;
mod value;
mod vars;

pub use exprs::{arg, base, eval, number};
pub use value::Value;
pub use vars::{Vars, find};
