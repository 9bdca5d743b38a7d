//! Worlds of a traced run: values, objects and frames go in, what a step finds in them and what it leaves of them comes out.
//! Read `specs/View.antt` first, then `specs/Running.antt`, `Steps`, `Wanted` and `Owners`.
//! Used by: the statements, calls and moves of `vaultq trace`, which carries out a run with all its tests.
#![tactic(auto)]

mod changes;
mod frames;
mod objects;
mod running;
mod states;
mod stops;
mod values;
mod world_changes;
mod worlds;

pub use changes::{OwnerTest, move_all, owned_at, passes, release, set_cell, set_owner, set_state};
pub use frames::{fill, is_fillable};
pub use objects::{
    guarded_object, held_object, in_states, is_full, object_at, reference_in, tracked_object,
};
pub use running::Running;
pub use states::{Wanted, allows, may_release, may_touch};
pub use stops::{Halt, Reason, Stop};
pub use values::{
    copy_of, copy_value, number, number_in, object_of, touchable_object, truth, value,
};
pub use worlds::{Event, Frame, Named, Object, Owner, Part, Value, World};
