//! Declarations of a core program in; the least rule on names and types that a row of one breaks out, or none.
//! Read of `vlt_core` `specs/KindedHeads.antt` first, then `specs/Least.antt` and `specs/TypeRows.antt`.
//! Used by: the rules on heads, on bodies and on whole programs.
#![tactic(auto)]

mod declared;
mod dropping;
mod lowest;
mod parts;
mod sets;
mod shapes;
mod states;

pub use declared::{
    cases, decl, fields, header, is_abstract, is_declared, is_keyed, is_struct, is_variant,
};
pub use dropping::{is_droppable, is_droppable_struct, marks};
pub use lowest::{lesser, unless};
pub use parts::{case_broken, type_broken};
pub use sets::set_broken;
pub use shapes::{args, has_count, shape_broken, type_in};
pub use states::{are_below, declared_states_broken, is_released, state_broken, states_broken};
