//! The head of a function of a core program in; the least rule on names and types that it breaks out, or none.
//! Read of `vlt_core` `specs/KindedHeads.antt` first, from "heads" on.
//! Used by: the rules on bodies and on whole programs.
#![tactic(auto)]

mod clauses;
mod externals;
mod given;
mod heads;
mod keys;
mod rows;

pub use clauses::any_new;
pub use heads::key_list_broken;
pub use keys::{has_key, has_new, head_has, is_key, is_new, locals, parameters, parameters_have};
pub use rows::head_broken;
