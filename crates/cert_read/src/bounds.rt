//! Bound entries: which bounds are states, and how many instances a function has.

ghost use Rattle.std.specs.Prelude.{◌≡◌, ◌≤◌, map, length, filter, slice_get, option_map};
ghost use Rattle.std.specs.List.{range_with_len};
ghost use Rattle.vlt_base.specs.States.{has_state};
ghost use Rattle.vlt_core.specs.View.{program_of, type_of, key_of, entry_of, mode_of};
ghost use Rattle.vlt_core.specs.LookupViews.{bound_view};
ghost use Rattle.vlt_core.specs.Lookups.{key_type_in, set_in};
ghost use Rattle.vlt_core.specs.Instances.{bound_in};
ghost use Rattle.cert_format.specs.Bounds.{instances, is_state_of, is_bound_known, are_bounds_known};
ghost use Rattle.cert_read.specs.Heads.{head_of, origin_count};

use cert_read_decls::FnRow;
use vlt_base::{KeyId, SetId, StateSet, TypeId};
use vlt_core::{Bound, Entry, KeyDecl, Mode, Program, TypeDecl};

/// The bound entry of a clause, if it has one.
fn bound_in(clause: &[Entry]) -> Option<Bound>
    ensures { option_map bound_view result ≡ bound_in (map entry_of clause.now) }
{
    for e in clause {
        if let Mode::Bound(state) = e.mode {
            return Some(Bound { key: e.key, state });
        }
    }
    None
}

/// The type of a key's object, where one is given.
fn key_type(keys: &[KeyDecl], k: KeyId) -> Option<TypeId>
    ensures { option_map (λ t. t.0) result
        ≡ key_type_in (slice_get (map key_of keys.now) k.0) }
{
    keys.get(k.0 as usize)?.key_type
}

/// The set of a type's states.
fn set_of(t: &TypeDecl) -> Option<SetId>
    ensures { option_map (λ i. i.0) result ≡ set_in (Some (type_of t.now)) }
{
    match t {
        TypeDecl::Abstract { set, .. } => *set,
        TypeDecl::Struct { set, .. } => *set,
        TypeDecl::Variant { .. } => None,
    }
}

/// Whether the number is that of a state of the type's set.
fn is_state(p: &Program, t: Option<TypeId>, state: u8) -> bool
    ensures { result ≡ is_state_of (program_of p.now) (option_map (λ t. t.0) t) state }
{
    let Some(t) = t else {
        return false;
    };
    let Some(decl) = p.types.get(t.0 as usize) else {
        return false;
    };
    let Some(set) = set_of(decl) else {
        return false;
    };
    match p.sets.get(set.0 as usize) {
        Some(d) => (state as usize) < d.states.len(),
        None => false,
    }
}

fn is_bound_known(p: &Program, row: &FnRow, e: Entry) -> bool
    ensures { result
        ≡ is_bound_known (program_of p.now) (head_of row.now) e.key.0 (mode_of e.mode) }
{
    match e.mode {
        Mode::Bound(state) => is_state(p, key_type(row.lists.keys.as_slice(), e.key), state),
        _ => true,
    }
}

/// Whether each bound of the clause is a state of the set of its key's type.
pub(crate) fn are_bounds_known(p: &Program, row: &FnRow) -> bool
    ensures { result ≡ are_bounds_known (program_of p.now) (head_of row.now) }
{
    for e in row.lists.clause.as_slice() {
        if !is_bound_known(p, row, *e) {
            return false;
        }
    }
    true
}

/// How many states are in a set.
fn count(states: StateSet) -> u32
    ensures { result ≡ length (filter (has_state states) (range_with_len 0 32)) }
{
    let mut n = 0;
    for s in 0..32_u8 {
        if states.has(s) {
            n += 1;
        }
    }
    n
}

/// How many states the object of a bound entry's key can have.
fn origin_count(p: &Program, t: Option<TypeId>, state: u8) -> u32
    ensures { result ≡ origin_count (program_of p.now) (option_map (λ t. t.0) t) state }
{
    let Some(t) = t else {
        return 0;
    };
    match p.states_up_to(t, state) {
        Some(states) => count(states),
        None => 0,
    }
}

/// How many instances a function has; none for one without a bound entry.
pub(crate) fn instances(p: &Program, row: &FnRow) -> Option<u32>
    ensures { result ≡ instances (program_of p.now) (head_of row.now) }
{
    let bound = bound_in(row.lists.clause.as_slice())?;
    let t = key_type(row.lists.keys.as_slice(), bound.key);
    Some(origin_count(p, t, bound.state))
}
