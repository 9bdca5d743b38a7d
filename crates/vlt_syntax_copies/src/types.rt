//! States and types.

ghost use Rattle.std.specs.Prelude.{◌≡◌, IfOk, option_map};
ghost use Rattle.vlt_syntax.specs.Tree as t;
ghost use Rattle.vlt_syntax.specs.View.{name_of, states_of, key_states_of, named_of, ty_of};
ghost use Rattle.vlt_syntax_copies.specs.Mapped as m;
ghost use Rattle.vlt_syntax_copies.specs.Shifted as s;

use crate::names::{shifted_name, shifted_names, shifted_span};
use std::alloc::{AllocError, Global};
use vlt_base::Span;
use vlt_syntax::{KeyStates, Name, Named, States, Ty};

pub fn shifted_states(alloc: Global, states: &States, by: u32) -> Result<States, AllocError>
    ensures { IfOk result (λ ss. states_of ss
        ≡ m.mapped_states (s.shifted_span by) (states_of states.now)) }
{
    match states {
        States::One(name) => Ok(States::One(shifted_name(alloc, name, by)?)),
        States::Several(names, at) => Ok(States::Several(
            shifted_names(alloc, names.as_slice(), by)?,
            shifted_span(*at, by),
        )),
    }
}

pub fn shifted_states_if(
    alloc: Global,
    states: &Option<States>,
    by: u32,
) -> Result<Option<States>, AllocError>
    ensures { IfOk result (λ ss. option_map states_of ss
        ≡ option_map (m.mapped_states (s.shifted_span by)) (option_map states_of states.now)) }
{
    match states {
        None => Ok(None),
        Some(states) => Ok(Some(shifted_states(alloc, states, by)?)),
    }
}

pub fn shifted_key_states(
    alloc: Global,
    states: &KeyStates,
    by: u32,
) -> Result<KeyStates, AllocError>
    ensures { IfOk result (λ k. key_states_of k
        ≡ m.mapped_key_states (s.shifted_span by) (key_states_of states.now)) }
{
    Ok(KeyStates {
        key: shifted_name(alloc, &states.key, by)?,
        states: shifted_states_if(alloc, &states.states, by)?,
    })
}

pub fn shifted_named(alloc: Global, named: &Named, by: u32) -> Result<Named, AllocError>
    ensures { IfOk result (λ n. named_of n
        ≡ m.mapped_named (s.shifted_span by) (named_of named.now)) }
{
    Ok(Named {
        name: shifted_name(alloc, &named.name, by)?,
        keys: shifted_names(alloc, named.keys.as_slice(), by)?,
    })
}

fn shifted_tracked(
    alloc: Global,
    key: &Name,
    named: &Named,
    at: Span,
    by: u32,
) -> Result<Ty, AllocError>
    ensures { IfOk result (λ x. ty_of x ≡ m.mapped_ty (s.shifted_span by)
        (t.tracked (name_of key.now) (named_of named.now) at)) }
{
    Ok(Ty::Tracked {
        key: shifted_name(alloc, key, by)?,
        named: shifted_named(alloc, named, by)?,
        at: shifted_span(at, by),
    })
}

fn shifted_owning(
    alloc: Global,
    states: &Option<States>,
    named: &Named,
    at: Span,
    by: u32,
) -> Result<Ty, AllocError>
    ensures { IfOk result (λ x. ty_of x ≡ m.mapped_ty (s.shifted_span by)
        (t.owning (option_map states_of states.now) (named_of named.now) at)) }
{
    Ok(Ty::Owning {
        named: shifted_named(alloc, named, by)?,
        states: shifted_states_if(alloc, states, by)?,
        at: shifted_span(at, by),
    })
}

fn shifted_guarded(alloc: Global, key: &Name, named: &Named, by: u32) -> Result<Ty, AllocError>
    ensures { IfOk result (λ x. ty_of x ≡ m.mapped_ty (s.shifted_span by)
        (t.guarded (name_of key.now) (named_of named.now))) }
{
    Ok(Ty::Guarded {
        key: shifted_name(alloc, key, by)?,
        named: shifted_named(alloc, named, by)?,
    })
}

pub fn shifted_ty(alloc: Global, ty: &Ty, by: u32) -> Result<Ty, AllocError>
    ensures { IfOk result (λ x. ty_of x ≡ m.mapped_ty (s.shifted_span by) (ty_of ty.now)) }
{
    match ty {
        Ty::Int(at) => Ok(Ty::Int(shifted_span(*at, by))),
        Ty::Bool(at) => Ok(Ty::Bool(shifted_span(*at, by))),
        Ty::Tracked { key, named, at } => shifted_tracked(alloc, key, named, *at, by),
        Ty::Owning { states, named, at } => shifted_owning(alloc, states, named, *at, by),
        Ty::Guarded { key, named } => shifted_guarded(alloc, key, named, by),
        Ty::Plain(named) => Ok(Ty::Plain(shifted_named(alloc, named, by)?)),
    }
}
