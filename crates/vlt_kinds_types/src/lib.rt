//! Types of a file: its declarations in, what its names stand for and the least refusal of a written type out. `Kinds` is what bodies see.
//! Read `specs/Names/Refusals.antt` first, then `specs/Files.antt`, `Types` and `Kinds`; `names` has the table of names.
//! Used by: the rules on names, heads and bodies.
#![tactic(auto)]

mod file;
mod keys;
mod kinds;
mod listed;
mod lookups;
mod made;
mod names;
mod shapes;
mod states;
mod tables;
mod types;
mod uses;

pub use file::File;
pub use kinds::Kinds;
pub use listed::{add_listed, check_some_states, check_states, some_states_listed, states_listed};
pub use made::KeyNumbers;
pub use names::{Entity, Globals, LeastRefusal, Refusal, known_names, rules};
pub use shapes::{Shape, Sort, Wanted, header_in, set_in, wanted_in};
pub use states::StateNames;
pub use tables::{file_of, links_of};
pub use types::{sort_in, ty_place};
pub use uses::KeyUse;
