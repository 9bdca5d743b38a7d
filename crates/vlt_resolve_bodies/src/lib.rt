//! What a body is beside its statements: where its blocks end, the scope that it begins with, how it ends, and copies of what the table
//! of kinds declares. Read `Blocks` and `Elaboration` of `vlt_elaboration` first.
//! Used by: `vlt_resolve`.
#![tactic(auto)]

mod blocks;
mod copies;
mod endings;
mod mains;
mod scopes;

pub use blocks::{block_ends, closing, else_closing, ends, late, stmt_place};
pub use copies::{copy_decls, copy_func, copy_sets, func_of_head};
pub use endings::{add_last, check_end, check_head, declared_in};
pub use mains::main_of;
pub use scopes::body_scope;
