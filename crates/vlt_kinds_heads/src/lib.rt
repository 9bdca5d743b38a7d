//! Heads: declarations and core types in, the least refusal of the rules on heads and the heads as core functions out.
//! Read `specs/Places.antt` first, then `Keys`, `Bounds`, `Heads`, `Externals` and `Phase`.
//! Used by: the rules on bodies.
#![tactic(auto)]

mod binding;
mod bounds;
mod clauses;
mod externals;
mod facts;
mod heads;
mod keys;
mod made;
mod names;
mod noted;
mod places;
mod types;

pub use externals::cases_named;
pub use facts::{Facts, Typing};
pub use heads::check_heads;
