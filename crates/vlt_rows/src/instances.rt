//! The instances of a function.

ghost use Rattle.std.specs.Prelude.{◌≡◌, ◌↔◌, ◌∷◌, ◌++◌, [], IsTrue, false, if◌then◌else◌, None, Some, map, filter, IfOk, OnOk};
ghost use Rattle.std.specs.List.{range_with_len};
ghost use Rattle.vlt_base.specs.States.{has_state};
ghost use Rattle.vlt_core.specs.View.{program_of, func_of};
ghost use Rattle.vlt_core.specs.Lookups.{key_states_up_to};
ghost use Rattle.vlt_core.specs.Instances.{IsOrigin, origins};

use std::alloc::{AllocError, Global};
use vlt_base::{Items, StateSet};
use vlt_core::{Bound, Func, Program};

/// A function in its instance of this origin.
#[derive(Clone, Copy)]
pub struct Instance<'a> {
    pub program: &'a Program,
    pub func: &'a Func,
    pub origin: Option<u8>,
}

/// The only instance of a function without a bound entry.
fn alone(alloc: Global) -> Result<Items<Option<u8>>, AllocError>
    ensures { IfOk result (λ os. os ≡ None ∷ []) }
{
    let mut list = Items::new(alloc);
    list.push(None)?;
    Ok(list)
}

fn put_if(list: &mut Items<Option<u8>>, state: u8, wanted: bool) -> Result<(), AllocError>
    ensures { OnOk result (list.new ≡ list.old ++ (if wanted then Some state ∷ [] else [])) }
{
    if wanted {
        list.push(Some(state))
    } else {
        Ok(())
    }
}

/// An instance for each state of the set.
#[tactic(auto, using(crate::proofs::OfOrigins::one_listed))]
fn each_of(alloc: Global, states: StateSet) -> Result<Items<Option<u8>>, AllocError>
    ensures { IfOk result (λ os.
        os ≡ map Some (filter (has_state states) (range_with_len 0 32))) }
{
    let mut list = Items::new(alloc);
    for s in 0..32_u8 {
        put_if(&mut list, s, states.has(s))?;
    }
    Ok(list)
}

/// The origins of a function's instances, in ascending order.
#[tactic(auto, using(crate::proofs::OfOrigins::origins_alone, crate::proofs::OfOrigins::origins_each, crate::proofs::OfOrigins::origins_none))]
pub fn origins(alloc: Global, p: &Program, f: &Func) -> Result<Items<Option<u8>>, AllocError>
    ensures { IfOk result (λ os. os ≡ origins (program_of p.now) (func_of f.now)) }
{
    let Some(bound) = f.bound() else {
        return alone(alloc);
    };
    match p.key_states_up_to(f, bound.key, bound.state) {
        Some(states) => each_of(alloc, states),
        None => Ok(Items::new(alloc)),
    }
}

fn is_up_to(p: &Program, f: &Func, bound: Bound, state: u8) -> bool
    ensures { result ≡ key_states_up_to (program_of p.now) (func_of f.now) bound.key.0
        bound.state state }
{
    match p.key_states_up_to(f, bound.key, bound.state) {
        Some(states) => states.has(state),
        None => false,
    }
}

#[tactic(auto, using(crate::proofs::OfOrigins::origin_alone, crate::proofs::OfOrigins::origin_state, crate::proofs::OfOrigins::origin_lost, crate::proofs::OfOrigins::origin_stray))]
fn is_origin(p: &Program, f: &Func, origin: Option<u8>) -> bool
    ensures { IsTrue result ↔ IsOrigin (program_of p.now) (func_of f.now) origin }
{
    match (f.bound(), origin) {
        (None, None) => true,
        (Some(bound), Some(state)) => is_up_to(p, f, bound, state),
        (Some(_), None) => false,
        (None, Some(_)) => false,
    }
}

/// Whether the function has a body and an instance of this origin.
pub fn has_instance(p: &Program, f: &Func, origin: Option<u8>) -> bool
    ensures { IsTrue result ↔ (((func_of f.now).external ≡ false) ×
        IsOrigin (program_of p.now) (func_of f.now) origin) }
{
    if f.external {
        return false;
    }
    is_origin(p, f, origin)
}
