//! The states in which a step allows an object.

ghost use Rattle.std.specs.Prelude.{◌≡◌};
ghost use Rattle.vlt_core.specs.View.{program_of};
ghost use Rattle.vlt_core.specs.LookupViews.{reference_view};
ghost use Rattle.vlt_core.specs.Lookups.{release_set, permitted_in};
ghost use Rattle.vlt_trace_worlds.specs.Wanted.{wanted_states};

use vlt_base::{StateSet, TypeId};
use vlt_core::{FieldDecl, Program, Reference, TypeDecl};

/// Which states a step wants of the object that a variable refers to.
#[derive(Clone, Copy)]
pub enum Wanted {
    Any,
    These(StateSet),
    /// Those in which it may be released.
    Release,
    /// Those in which this field may be touched.
    Field(u32),
}

/// Whether an object of the type may be released in the state.
pub fn may_release(p: &Program, t: TypeId, state: u8) -> bool
    ensures { result ≡ release_set (program_of p.now) t.0 state }
{
    match p.types.get(t.0 as usize) {
        Some(TypeDecl::Struct { release, .. }) => release.has(state),
        Some(TypeDecl::Abstract { .. }) => (state as usize) < p.state_count(t),
        Some(TypeDecl::Variant { .. }) => (state as usize) < p.state_count(t),
        None => (state as usize) < p.state_count(t),
    }
}

/// Whether a field of an object of the type may be touched in the state.
pub fn may_touch(p: &Program, t: TypeId, position: u32, state: u8) -> bool
    ensures { result ≡ permitted_in (program_of p.now) t.0 position state }
{
    match p.types.get(t.0 as usize) {
        Some(TypeDecl::Struct { fields, .. }) => match fields.get(position as usize) {
            Some(d) => d.states.has(state),
            None => false,
        },
        Some(TypeDecl::Abstract { .. }) => false,
        Some(TypeDecl::Variant { .. }) => false,
        None => false,
    }
}

/// Whether the states that are wanted have this one.
pub fn allows(p: &Program, wanted: Wanted, r: Reference, state: u8) -> bool
    ensures { result ≡ wanted_states (program_of p.now) wanted (reference_view r) state }
{
    match wanted {
        Wanted::Any => true,
        Wanted::These(states) => states.has(state),
        Wanted::Release => may_release(p, r.type_id, state),
        Wanted::Field(i) => may_touch(p, r.type_id, i, state),
    }
}
