//! New objects and adoptions: a right side that makes one, its target and the names in scope in, the least refusal and the core forms out.
//! Read `specs/News.antt` first, then `Adopts`.
//! Used by: the elaboration of right sides and of statements.
#![tactic(auto)]

mod adopts;
pub mod droppable;
mod news;
mod objects;
mod uses;

pub use adopts::{check_adopt, core_adopt};
pub use news::{add_hidden, check_hidden, check_new, new_forms};
pub use objects::known_args;
pub use uses::check_uses;
