//! A call of a core program in; the least rule on names and types that it breaks out, or none.
//! Read of `vlt_core` `specs/KindedCalls.antt` first.
//! Used by: the rules on bodies.
#![tactic(auto)]

mod arguments;
mod calls;
mod clauses;
mod fitting;
mod targets;

pub use calls::{bind_call_target, call_broken};
