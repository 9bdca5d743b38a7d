//! Names of a file: its declarations in, the table of names and the first of the names that are declared twice out.
//! Read `specs/Names/Refusals.antt` first, then `Globals`.
//! Used by: the rules on types in this crate, and those on names, heads and bodies.

mod found;
mod globals;

pub use found::{LeastRefusal, Refusal};
pub use globals::{Entity, Globals, known_names};
pub use vlt_core::rules;
