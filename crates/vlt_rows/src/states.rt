//! The states that a row names, as many as they are.

ghost use Rattle.std.specs.Prelude.{◌≡◌, ◌==◌, ◌&&◌, nat_lt, ℕ};
ghost use Rattle.vlt_core.specs.View.{program_of, func_of, states_of, entry_of};
ghost use Rattle.vlt_core.specs.Lookups.{release_set, permitted_in, states_or_all, before_set, after_set, states_of_type, key_type, key_states_up_to};
ghost use Rattle.vlt_core.specs.Instances.{entry_in};
ghost use Rattle.vlt_core.specs.HeldView.{IsSetOf};
ghost use Rattle.vlt_rows.specs.Wide.{states_named};
ghost use Rattle.vlt_rows.specs.Sides.{side_in};

use vlt_base::{KeyId, StateSet, TypeId};
use vlt_core::{Entry, Func, Mode, Program};

/// States as a program says them. A set has one to 32 of them; a type may have more, and a field that isn't there has none.
#[derive(Clone, Copy)]
pub enum States {
    Set(StateSet),
    /// Those below a number.
    Below(usize),
    Only(u8),
    Nothing,
}

/// The numbers below n, if there are any and all are below 32.
fn first(n: usize) -> Option<StateSet>
    ensures { IsSetOf (λ i. nat_lt i n) result }
{
    if 1 <= n && n <= 32 {
        Some(StateSet::first(n as u8))
    } else {
        None
    }
}

fn only(s: u8) -> Option<StateSet>
    ensures { IsSetOf (λ i. i == s) result }
{
    if s < 32 {
        Some(StateSet::only(s))
    } else {
        None
    }
}

impl States {
    /// The set of just these states, if there is one.
    pub fn set(self) -> Option<StateSet>
        ensures { IsSetOf (states_named self) result }
    {
        match self {
            States::Set(set) => Some(set),
            States::Below(n) => first(n),
            States::Only(s) => only(s),
            States::Nothing => None,
        }
    }
}

/// The states in which a field may be touched.
pub fn permitted_states(p: &Program, t: TypeId, position: u32) -> States
    ensures { states_named result ≡ permitted_in (program_of p.now) t.0 position }
{
    match p.permitted(t, position) {
        Some(states) => States::Set(states),
        None => States::Nothing,
    }
}

/// The states in which an object of the type may be released.
pub fn release_states(p: &Program, t: TypeId) -> States
    ensures { states_named result ≡ release_set (program_of p.now) t.0 }
{
    match p.release_set(t) {
        Some(states) => States::Set(states),
        None => States::Below(p.state_count(t)),
    }
}

/// All states of a key's object; of a key without a type every state.
fn states_of_key(p: &Program, f: &Func, k: KeyId) -> States
    ensures { states_named result
        ≡ states_of_type (program_of p.now) (key_type (func_of f.now) k.0) }
{
    match f.key_type(k) {
        Some(t) => States::Below(p.state_count(t)),
        None => States::Below(32),
    }
}

/// The states that an entry names, or all of the key.
pub fn side_states(p: &Program, f: &Func, k: KeyId, named: Option<StateSet>) -> States
    ensures { states_named result ≡ states_or_all (program_of p.now) (func_of f.now) k.0
        (states_of named) }
{
    match p.states_or_all(f, k, named) {
        Some(states) => States::Set(states),
        None => states_of_key(p, f, k),
    }
}

/// The states of a key's object up to this one.
pub fn states_up_to(p: &Program, f: &Func, k: KeyId, state: u8) -> States
    ensures { states_named result
        ≡ key_states_up_to (program_of p.now) (func_of f.now) k.0 state }
{
    match p.key_states_up_to(f, k, state) {
        Some(states) => States::Set(states),
        None => States::Nothing,
    }
}

/// One state alone.
pub fn one_state(s: u8) -> States
    ensures { states_named result ≡ (λ i. i == s) }
{
    if s < 32 {
        States::Set(StateSet::only(s))
    } else {
        States::Only(s)
    }
}

/// This state, if it is one of the key's object up to the bound.
fn state_up_to(p: &Program, f: &Func, k: KeyId, bound: u8, state: u8) -> States
    ensures { states_named result ≡ (λ s. s == state &&
        key_states_up_to (program_of p.now) (func_of f.now) k.0 bound s) }
{
    match p.key_states_up_to(f, k, bound) {
        Some(states) => {
            if states.has(state) {
                one_state(state)
            } else {
                States::Nothing
            }
        }
        None => States::Nothing,
    }
}

/// The states that a side of an entry names in the instance of this origin, or all of the key.
fn side_in(p: &Program, f: &Func, origin: Option<u8>, e: Entry, side: Option<StateSet>) -> States
    ensures { states_named result ≡ states_or_all (program_of p.now) (func_of f.now) e.key.0
        (side_in (program_of p.now) (func_of f.now) origin (entry_of e) (states_of side)) }
{
    match (origin, e.mode) {
        (Some(o), Mode::Bound(bound)) => state_up_to(p, f, e.key, bound, o),
        _ => side_states(p, f, e.key, side),
    }
}

/// The states in which an entry's key is held before a call of the instance of this origin.
pub fn states_before(p: &Program, f: &Func, origin: Option<u8>, e: Entry) -> States
    ensures { states_named result ≡ before_set (program_of p.now) (func_of f.now)
        (entry_in (program_of p.now) (func_of f.now) origin (entry_of e)) }
{
    side_in(p, f, origin, e, e.before)
}

/// The states in which an entry's key is held after a call of the instance of this origin.
pub fn states_after(p: &Program, f: &Func, origin: Option<u8>, e: Entry) -> States
    ensures { states_named result ≡ after_set (program_of p.now) (func_of f.now)
        (entry_in (program_of p.now) (func_of f.now) origin (entry_of e)) }
{
    side_in(p, f, origin, e, e.after)
}
