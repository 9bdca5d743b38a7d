//! Functions of a core program in; functions of C, with head, variables and statements, out.
//! Read `c_lower/specs/Lowering.antt` first, then `specs/Code/Heads.antt`.
//! Used by: `glue`, for the functions that stand for externals, and `lower`.

mod funcs;
mod heads;

pub use funcs::{func_with, lower_bodies};
