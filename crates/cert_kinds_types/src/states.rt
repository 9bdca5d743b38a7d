//! States that are named of a declared type.

ghost use Rattle.std.specs.Prelude.{◌≡◌, ◌||◌, not, nat_lt};
ghost use Rattle.std.specs.List.{list_all};
ghost use Rattle.vlt_base.specs.States.{has_state};
ghost use Rattle.vlt_core.specs.View.{program_of};
ghost use Rattle.vlt_core.specs.KindedHeads as s;
ghost use Rattle.vlt_core.specs.Types as types;
ghost use Rattle.vlt_core.specs.Lookups as lookups;
ghost use Rattle.cert_kinds_types.specs.Least.{least};
ghost use Rattle.cert_kinds_types.specs.TypeRows.{declared_states_broken};

use crate::declared::{decl, has_set_of, is_declared};
use crate::lowest::unless;
use vlt_base::{StateSet, TypeId};
use vlt_core::{Program, TypeDecl, rules};
use vlt_kinds_queries::lies_within;

fn stays_below(states: StateSet, count: usize, state: u8) -> bool
    ensures { result ≡ (not (has_state states state) || nat_lt state count) }
{
    !states.has(state) || (state as usize) < count
}

fn stay_below(states: StateSet, count: usize, numbers: &[u8]) -> bool
    ensures { result ≡ list_all (λ s. not (has_state states s) || nat_lt s count) numbers.now }
{
    for state in numbers {
        if !stays_below(states, count, *state) {
            return false;
        }
    }
    true
}

/// Whether all states are below a number.
pub fn are_below(states: StateSet, count: usize) -> bool
    ensures { result ≡ types.lies_within (has_state states) (λ s. nat_lt s count) }
{
    stay_below(
        states,
        count,
        &[
            0, 1, 2, 3, 4, 5, 6, 7, 8, 9, 10, 11, 12, 13, 14, 15, 16, 17, 18, 19, 20, 21, 22, 23,
            24, 25, 26, 27, 28, 29, 30, 31,
        ],
    )
}

/// What states of a declared type's objects break.
pub fn states_broken(p: &Program, t: TypeId, states: StateSet) -> Option<u8>
    ensures { result ≡ least (s.states_broken (program_of p.now) t.0 (has_state states)) }
{
    if has_set_of(p, t) {
        unless(are_below(states, p.state_count(t)), rules::NOT_A_STATE)
    } else {
        None
    }
}

/// What states of a type's objects break, where the type is declared.
pub fn declared_states_broken(p: &Program, t: TypeId, states: StateSet) -> Option<u8>
    ensures { result ≡ least (declared_states_broken (program_of p.now) t.0 (has_state states)) }
{
    if is_declared(p, t) {
        states_broken(p, t, states)
    } else {
        None
    }
}

/// What one state of a declared type's objects breaks.
pub fn state_broken(p: &Program, t: TypeId, state: u8) -> Option<u8>
    ensures { result ≡ least (s.state_broken (program_of p.now) t.0 state) }
{
    if has_set_of(p, t) {
        unless((state as usize) < p.state_count(t), rules::NOT_A_STATE)
    } else {
        None
    }
}

/// Whether the states are among those in which an object of the type may be released.
pub fn is_released(p: &Program, t: TypeId, states: StateSet) -> bool
    ensures { result ≡ types.lies_within (has_state states)
        (lookups.release_set (program_of p.now) t.0) }
{
    match decl(p, t) {
        Some(TypeDecl::Struct { release, .. }) => lies_within(states, *release),
        _ => are_below(states, p.state_count(t)),
    }
}
