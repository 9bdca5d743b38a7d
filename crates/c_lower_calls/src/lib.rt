//! Calls, returns and new objects of a core program in; C statements, added to those that are there, out.
//! Read `c_lower/specs/Statements.antt` first, then `specs/Written.antt` (Writes).
//! Used by: `c_lower_stmts`, which lowers the other statements, and `c_lower_program`, which lowers externals.
#![tactic(auto)]

mod calls;
mod copies;
mod objects;
mod returns;
mod runtime;

pub use calls::lower_call;
pub use copies::{copy_atoms, put_atom, put_atoms};
pub use objects::{new_block, own_fields, put_fields, release_owners};
pub use returns::{gives_variant, lower_return, return_atoms};
pub use runtime::{call_none, call_one, call_two, value_none, value_one, value_two};
