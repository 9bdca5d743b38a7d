//! Declared names and types: declarations in, the least refusal of the rules on them and their core declarations out.
//! Read `specs/Names.antt` first, then `Decls` and `Made`.
//! Used by: the rules on bodies.
#![tactic(auto)]

mod cases;
mod decls;
mod fields;
mod header;
mod made;
mod names;
mod order;
mod parts;

pub use decls::check_types;
pub use made::core_types;
pub use names::{HasName, check_names, check_other_names, has_main};
pub use order::has_loop;
pub use parts::Part;
