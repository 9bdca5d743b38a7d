//! A part of a statement of a core program in; the least rule on names and types that it breaks out, or none, and what is in scope after it.
//! Read of `vlt_core` `specs/KindedBodies.antt` first.
//! Used by: the rules on bodies.
#![tactic(auto)]

mod ends;
mod flat;
mod outer;
mod scope;
mod switches;
mod tokens;

pub use ends::{block_ends, list_ends, stmt_ends};
pub use flat::{Around, flat_broken};
pub use outer::{Outer, begin_block, leave, remember};
pub use scope::Scope;
pub use switches::{arm_broken, bind_focus, focus_broken, switch_broken};
pub use tokens::{arm_toks, tokens_broken};
