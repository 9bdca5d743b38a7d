//! Types that are compared and copied.

ghost use Rattle.std.specs.Prelude.{◌≡◌, map, option_map, IfOk};
ghost use Rattle.vlt_base.specs.States.{has_state};
ghost use Rattle.vlt_core.specs.View.{ty_of, keys_of, type_of};
ghost use Rattle.vlt_core.specs.Lookups as lookups;
ghost use Rattle.vlt_core.specs.Types as types;
ghost use Rattle.vlt_resolve_exprs.specs.Types as here;

use std::alloc::{AllocError, Global};
use vlt_base::{Items, KeyId, StateSet, TypeId};
use vlt_core::{Ty, TypeDecl};

#[tactic(auto, using(crate::proofs::Same::same_ids))]
pub fn same_keys(a: &[KeyId], b: &[KeyId]) -> bool
    ensures { result ≡ types.same_keys (keys_of a.now) (keys_of b.now) }
{
    a == b
}

/// Whether two types are the same declared one under the same keys.
#[tactic(auto, unfolding(crate::specs::Types::is_same_object))]
pub fn same_object(t: TypeId, a: &[KeyId], u: TypeId, b: &[KeyId]) -> bool
    ensures { result ≡ here.is_same_object t.0 (keys_of a.now) u.0 (keys_of b.now) }
{
    t.0 == u.0 && same_keys(a, b)
}

pub fn lies_within(a: StateSet, b: StateSet) -> bool
    ensures { result ≡ here.is_inside (has_state a) (has_state b) }
{
    a.within(b)
}

#[tactic(auto, using(crate::proofs::Same::inside_then, crate::proofs::Same::inside_else))]
fn same_states(a: StateSet, b: StateSet) -> bool
    ensures { result ≡ here.are_same_states (has_state a) (has_state b) }
{
    lies_within(a, b) && lies_within(b, a)
}

/// Whether two types are the same.
#[tactic(auto, unfolding(crate::specs::Types::is_same_ty, crate::specs::Types::is_same_object, crate::specs::Types::are_same_states))]
pub fn same_ty(a: &Ty, b: &Ty) -> bool
    ensures { result ≡ here.is_same_ty (ty_of a.now) (ty_of b.now) }
{
    match (a, b) {
        (Ty::Int, Ty::Int) => true,
        (Ty::Bool, Ty::Bool) => true,
        (Ty::Key(k, t, args), Ty::Key(l, u, others)) => {
            k.0 == l.0 && same_object(*t, args.as_slice(), *u, others.as_slice())
        }
        (Ty::Own(r, t, args), Ty::Own(s, u, others)) => {
            same_states(*r, *s) && same_object(*t, args.as_slice(), *u, others.as_slice())
        }
        (Ty::Guard(k, t, args), Ty::Guard(l, u, others)) => {
            k.0 == l.0 && same_object(*t, args.as_slice(), *u, others.as_slice())
        }
        (Ty::Var(t, args), Ty::Var(u, others)) => same_object(
            *t,
            args.as_slice(),
            *u,
            others.as_slice(),
        ),
        (Ty::OwnVar(t, args), Ty::OwnVar(u, others)) => same_object(
            *t,
            args.as_slice(),
            *u,
            others.as_slice(),
        ),
        _ => false,
    }
}

/// Whether a target of these states takes an owner of some of them, or a tracked object.
#[tactic(auto, unfolding(crate::specs::Types::takes_object))]
fn takes_object(states: StateSet, type_id: TypeId, args: &[KeyId], got: &Ty) -> bool
    ensures { result ≡ here.takes_object (has_state states) type_id.0 (keys_of args.now)
        (ty_of got.now) }
{
    match got {
        Ty::Own(r, u, others) => lies_within(*r, states)
            && same_object(type_id, args, *u, others.as_slice()),
        Ty::Key(_, u, others) => same_object(type_id, args, *u, others.as_slice()),
        _ => false,
    }
}

/// Whether a target of one type takes a value of another.
#[tactic(auto, unfolding(crate::specs::Types::takes))]
pub fn takes(wanted: &Ty, got: &Ty) -> bool
    ensures { result ≡ here.takes (ty_of wanted.now) (ty_of got.now) }
{
    match wanted {
        Ty::Own(s, t, args) => takes_object(*s, *t, args.as_slice(), got),
        _ => same_ty(wanted, got),
    }
}

/// Whether a tracked target, whose key is bound with it, takes the object of an owner.
#[tactic(auto, unfolding(crate::specs::Types::unpacks))]
pub fn unpacks(wanted: &Ty, got: &Ty) -> bool
    ensures { result ≡ here.unpacks (ty_of wanted.now) (ty_of got.now) }
{
    match (wanted, got) {
        (Ty::Key(_, t, args), Ty::Own(_, u, others)) => same_object(
            *t,
            args.as_slice(),
            *u,
            others.as_slice(),
        ),
        _ => false,
    }
}

pub fn copy_ty(alloc: Global, ty: &Ty) -> Result<Ty, AllocError>
    ensures { IfOk result (λ t. t ≡ ty.now) }
{
    Ok(match ty {
        Ty::Int => Ty::Int,
        Ty::Bool => Ty::Bool,
        Ty::Key(k, t, args) => Ty::Key(*k, *t, Items::from_slice(alloc, args.as_slice())?),
        Ty::Own(s, t, args) => Ty::Own(*s, *t, Items::from_slice(alloc, args.as_slice())?),
        Ty::Guard(k, t, args) => Ty::Guard(*k, *t, Items::from_slice(alloc, args.as_slice())?),
        Ty::Var(t, args) => Ty::Var(*t, Items::from_slice(alloc, args.as_slice())?),
        Ty::OwnVar(t, args) => Ty::OwnVar(*t, Items::from_slice(alloc, args.as_slice())?),
    })
}

fn key_at(args: &[KeyId], position: KeyId) -> KeyId
    ensures { result.0 ≡ types.stands_for (keys_of args.now) position.0 }
{
    match args.get(position.0 as usize) {
        Some(key) => *key,
        None => KeyId(0),
    }
}

fn keys_at(alloc: Global, args: &[KeyId], positions: &[KeyId]) -> Result<Items<KeyId>, AllocError>
    ensures { IfOk result (λ ks. keys_of ks ≡ map (types.stands_for (keys_of args.now))
        (keys_of positions.now)) }
{
    let mut keys = Items::new(alloc);
    for position in positions {
        keys.push(key_at(args, *position))?;
    }
    Ok(keys)
}

/// The type of a field or a payload, where these keys stand for the header's.
#[tactic(auto, unfolding(crate::specs::Types::ty_under))]
pub fn ty_under(alloc: Global, args: &[KeyId], ty: &Ty) -> Result<Ty, AllocError>
    ensures { IfOk result (λ r. ty_of r ≡ here.ty_under (keys_of args.now) (ty_of ty.now)) }
{
    Ok(match ty {
        Ty::Int => Ty::Int,
        Ty::Bool => Ty::Bool,
        Ty::Key(k, t, keys) => Ty::Key(
            key_at(args, *k),
            *t,
            keys_at(alloc, args, keys.as_slice())?,
        ),
        Ty::Own(s, t, keys) => Ty::Own(*s, *t, keys_at(alloc, args, keys.as_slice())?),
        Ty::Guard(k, t, keys) => Ty::Guard(
            key_at(args, *k),
            *t,
            keys_at(alloc, args, keys.as_slice())?,
        ),
        Ty::Var(t, keys) => Ty::Var(*t, keys_at(alloc, args, keys.as_slice())?),
        Ty::OwnVar(t, keys) => Ty::OwnVar(*t, keys_at(alloc, args, keys.as_slice())?),
    })
}

pub fn is_owning(ty: &Ty) -> bool
    ensures { result ≡ lookups.is_owning (ty_of ty.now) }
{
    matches!(ty, Ty::Own(..) | Ty::OwnVar(..))
}

pub fn is_struct(decl: Option<&TypeDecl>) -> bool
    ensures { result ≡ types.is_struct (option_map (λ d. type_of d.now) decl.entry) }
{
    matches!(decl, Some(TypeDecl::Struct { .. }))
}

pub fn is_variant(decl: Option<&TypeDecl>) -> bool
    ensures { result ≡ types.is_variant (option_map (λ d. type_of d.now) decl.entry) }
{
    matches!(decl, Some(TypeDecl::Variant { .. }))
}
