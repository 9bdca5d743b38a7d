//! Laws of worlds, frames and scopes: nothing goes in and nothing comes out.
//! Read `specs/Ranks.antt` first, then `Placed`, `Keys`, `Fits`, `Agrees` and `Scoped`.
//! Used by: `vlt_sound`. No run of an accepted program goes wrong.
#![tactic(auto)]

mod changes;
mod drops;
mod focus;
mod frames;
mod keys;
mod moves;
mod operands;
mod outside;
mod owners;
mod readings;
mod scopes;
mod steps;
mod worlds;

pub use changes::objects_move_together;
pub use drops::parts_of_what_may_be_dropped;
pub use focus::values_stay_fit;
pub use frames::expressions_are_fine;
pub use keys::keys_name_what_is_under_them;
pub use moves::moving_steps_are_safe;
pub use operands::operands_are_handed_over;
pub use outside::{hosts_change_their_own, objects_go_out_and_come_back};
pub use owners::owned_objects_stay_at_one_place;
pub use readings::answers_say_what_is_asked;
pub use scopes::{
    bound_keys_are_new, safe_steps_are_safe_in_scopes, scopes_are_known, scopes_only_widen,
};
pub use steps::{blocks_leave_nothing_behind, owning_steps_are_safe, plain_steps_are_safe};
pub use worlds::released_ends_below;
