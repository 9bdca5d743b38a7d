//! A statement of a core program without blocks, calls aside, or a return in; the least rule on names and types that it breaks out, or none.
//! Read of `vlt_core` `specs/KindedStatements.antt` first, then of `specs/KindedCalls.antt` the returns.
//! Used by: the rules on bodies.
#![tactic(auto)]

mod objects;
mod opened;
mod returns;
mod statements;

pub use objects::{
    Object, case_broken, guarded_object, is_variant_type, objects_apart, payload_wanted,
    tracked_broken, tracked_object, variant_object, wants_guarded, wants_tracked, wants_variant,
};
pub use opened::{open_broken, opened_var_broken};
pub use returns::return_broken;
pub use statements::{
    adopt_broken, become_broken, build_broken, dropped_broken, input_broken, make_broken,
    own_broken, print_broken, put_broken, release_broken, set_broken, swap_broken, unpack_broken,
};
