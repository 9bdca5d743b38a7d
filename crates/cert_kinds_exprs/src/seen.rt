//! Types under keys: as they are written, or with keys in place of those of a declaration or of a callee.

ghost use Rattle.std.specs.Prelude.{◌≡◌, ◌==◌, ◌&&◌, map, Some};
ghost use Rattle.std.specs.List.{list_all};
ghost use Rattle.vlt_base.specs.States.{has_state};
ghost use Rattle.vlt_core.specs.View.{ty_of, keys_of};
ghost use Rattle.vlt_core.specs.Lookups as lookups;
ghost use Rattle.vlt_core.specs.Types as types;
ghost use Rattle.cert_kinds_exprs.specs.Seen as z;

use vlt_base::{Items, KeyId, StateSet, TypeId};
use vlt_core::Ty;

/// Keys as they are written, or with those of a list in their place, which they are positions of.
#[derive(Clone, Copy)]
pub struct Keys<'a> {
    pub keys: &'a [KeyId],
    pub under: Option<&'a [KeyId]>,
}

/// A type under keys.
#[derive(Clone, Copy)]
pub enum Seen<'a> {
    Int,
    Bool,
    Tracked(KeyId, TypeId, Keys<'a>),
    Owning(StateSet, TypeId, Keys<'a>),
    Guarded(KeyId, TypeId, Keys<'a>),
    Variant(TypeId, Keys<'a>),
    OwningVariant(TypeId, Keys<'a>),
}

fn key_at(keys: &[KeyId], k: KeyId) -> KeyId
    ensures { result.0 ≡ types.stands_for (keys_of keys.now) k.0 }
{
    match keys.get(k.0 as usize) {
        Some(key) => *key,
        None => KeyId(0),
    }
}

fn key_under(under: Option<&[KeyId]>, k: KeyId) -> KeyId
    ensures { result.0 ≡ z.key_under (z.under_of under.entry) k.0 }
{
    match under {
        None => k,
        Some(keys) => key_at(keys, k),
    }
}

/// The type as it is written.
#[tactic(auto, using(crate::proofs::Under::as_they_are))]
pub fn plain(ty: &Ty) -> Seen<'_>
    ensures { z.seen_of result ≡ ty_of ty.now }
{
    match ty {
        Ty::Int => Seen::Int,
        Ty::Bool => Seen::Bool,
        Ty::Key(k, t, args) => Seen::Tracked(*k, *t, plain_keys(args.as_slice())),
        Ty::Own(states, t, args) => Seen::Owning(*states, *t, plain_keys(args.as_slice())),
        Ty::Guard(k, t, args) => Seen::Guarded(*k, *t, plain_keys(args.as_slice())),
        Ty::Var(t, args) => Seen::Variant(*t, plain_keys(args.as_slice())),
        Ty::OwnVar(t, args) => Seen::OwningVariant(*t, plain_keys(args.as_slice())),
    }
}

/// Keys as they are written.
#[tactic(auto, using(crate::proofs::Under::as_they_are))]
pub fn plain_keys(keys: &[KeyId]) -> Keys<'_>
    ensures { z.keys_seen result ≡ keys_of keys.now }
{
    Keys { keys, under: None }
}

fn keys_below<'a>(under: &'a [KeyId], keys: &'a [KeyId]) -> Keys<'a>
    ensures { z.keys_seen result ≡ map (types.stands_for (keys_of under.now)) (keys_of keys.now) }
{
    Keys {
        keys,
        under: Some(under),
    }
}

/// The type with these keys in place of its own, which are their positions.
pub fn below<'a>(keys: &'a [KeyId], ty: &'a Ty) -> Seen<'a>
    ensures { z.seen_of result ≡ types.with_keys (keys_of keys.now) (ty_of ty.now) }
{
    match ty {
        Ty::Int => Seen::Int,
        Ty::Bool => Seen::Bool,
        Ty::Key(k, t, args) => Seen::Tracked(
            key_at(keys, *k),
            *t,
            keys_below(keys, args.as_slice()),
        ),
        Ty::Own(states, t, args) => { Seen::Owning(*states, *t, keys_below(keys, args.as_slice())) }
        Ty::Guard(k, t, args) => Seen::Guarded(
            key_at(keys, *k),
            *t,
            keys_below(keys, args.as_slice()),
        ),
        Ty::Var(t, args) => Seen::Variant(*t, keys_below(keys, args.as_slice())),
        Ty::OwnVar(t, args) => Seen::OwningVariant(*t, keys_below(keys, args.as_slice())),
    }
}

fn same_from(a: &[KeyId], under: Option<&[KeyId]>, b: &[KeyId], other: Option<&[KeyId]>) -> bool
    ensures { result ≡ types.same_keys
        (map (z.key_under (z.under_of under.entry)) (keys_of a.now))
        (map (z.key_under (z.under_of other.entry)) (keys_of b.now)) }
{
    match a {
        [] => b.len() == 0,
        [k, ks @ ..] => match b {
            [] => false,
            [j, js @ ..] => {
                key_under(under, *k).0 == key_under(other, *j).0 && same_from(ks, under, js, other)
            }
        },
    }
}

/// Whether two lists of keys are the same.
pub fn same_keys(a: Keys, b: Keys) -> bool
    ensures { result ≡ types.same_keys (z.keys_seen a.entry) (z.keys_seen b.entry) }
{
    same_from(a.keys, a.under, b.keys, b.under)
}

/// Whether two objects are of one declared type under the same keys.
pub fn same_object(t: TypeId, a: Keys, u: TypeId, b: Keys) -> bool
    ensures { result ≡ types.same_object t.0 (z.keys_seen a.entry) u.0 (z.keys_seen b.entry) }
{
    t.0 == u.0 && same_keys(a, b)
}

fn is_same_at(a: StateSet, b: StateSet, state: u8) -> bool
    ensures { result ≡ types.is_same_bool (has_state a state) (has_state b state) }
{
    if a.has(state) {
        b.has(state)
    } else {
        !b.has(state)
    }
}

fn are_same_at(a: StateSet, b: StateSet, states: &[u8]) -> bool
    ensures { result ≡ list_all (λ s. types.is_same_bool (has_state a s) (has_state b s))
        states.now }
{
    for state in states {
        if !is_same_at(a, b, *state) {
            return false;
        }
    }
    true
}

fn same_states(a: StateSet, b: StateSet) -> bool
    ensures { result ≡ types.same_states (has_state a) (has_state b) }
{
    are_same_at(
        a,
        b,
        &[
            0, 1, 2, 3, 4, 5, 6, 7, 8, 9, 10, 11, 12, 13, 14, 15, 16, 17, 18, 19, 20, 21, 22, 23,
            24, 25, 26, 27, 28, 29, 30, 31,
        ],
    )
}

/// Whether two types are the same.
pub fn same_ty(a: Seen, b: Seen) -> bool
    ensures { result ≡ types.same_ty (z.seen_of a.entry) (z.seen_of b.entry) }
{
    match (a, b) {
        (Seen::Int, Seen::Int) => true,
        (Seen::Bool, Seen::Bool) => true,
        (Seen::Tracked(k, t, args), Seen::Tracked(j, u, others)) => {
            k.0 == j.0 && same_object(t, args, u, others)
        }
        (Seen::Owning(r, t, args), Seen::Owning(s, u, others)) => {
            same_states(r, s) && same_object(t, args, u, others)
        }
        (Seen::Guarded(k, t, args), Seen::Guarded(j, u, others)) => {
            k.0 == j.0 && same_object(t, args, u, others)
        }
        (Seen::Variant(t, args), Seen::Variant(u, others)) => same_object(t, args, u, others),
        (Seen::OwningVariant(t, args), Seen::OwningVariant(u, others)) => {
            same_object(t, args, u, others)
        }
        _ => false,
    }
}

/// Whether the type owns.
pub fn is_owning(ty: Seen) -> bool
    ensures { result ≡ lookups.is_owning (z.seen_of ty.entry) }
{
    match ty {
        Seen::Owning(_, _, _) => true,
        Seen::OwningVariant(_, _) => true,
        _ => false,
    }
}
