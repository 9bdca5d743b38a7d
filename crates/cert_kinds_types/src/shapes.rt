//! What a type's prefix, keys and arguments break, in a declaration.

ghost use Rattle.std.specs.Prelude.{◌≡◌, ◌==◌, length, Some};
ghost use Rattle.std.specs.Option.{option_map};
ghost use Rattle.std.specs.List.{flat_map};
ghost use Rattle.vlt_base.specs.States.{has_state};
ghost use Rattle.vlt_core.specs.View.{program_of, ty_of, keys_of, header_of};
ghost use Rattle.vlt_core.specs.KindedHeads as s;
ghost use Rattle.vlt_core.specs.Types as types;
ghost use Rattle.cert_kinds_types.specs.Least.{least};
ghost use Rattle.cert_kinds_types.specs.Arguments as z;

use crate::declared::{decl, header, is_owning_type, is_struct, is_variant};
use crate::lowest::{lesser, unless};
use crate::states::states_broken;
use vlt_base::{Items, KeyId, StateSet, TypeId};
use vlt_core::{Program, Ty, rules};

/// The keys that stand for the header's.
pub fn args(ty: &Ty) -> &[KeyId]
    ensures { keys_of result.now ≡ types.args_of (ty_of ty.now) }
{
    match ty {
        Ty::Int | Ty::Bool => &[],
        Ty::Key(_, _, args) | Ty::Guard(_, _, args) => args.as_slice(),
        Ty::Own(_, _, args) => args.as_slice(),
        Ty::Var(_, args) | Ty::OwnVar(_, args) => args.as_slice(),
    }
}

/// The declared type, where there is one.
pub fn type_in(ty: &Ty) -> Option<TypeId>
    ensures { option_map (λ t. t.0) result ≡ types.type_in (ty_of ty.now) }
{
    match ty {
        Ty::Int | Ty::Bool => None,
        Ty::Key(_, t, _) | Ty::Guard(_, t, _) => Some(*t),
        Ty::Own(_, t, _) => Some(*t),
        Ty::Var(t, _) | Ty::OwnVar(t, _) => Some(*t),
    }
}

fn own_broken(p: &Program, t: TypeId, states: StateSet) -> Option<u8>
    ensures { result ≡ least (s.shape_broken (program_of p.now)
        (z.bare_owning t.0 (has_state states))) }
{
    if is_variant(p, t) {
        Some(rules::WRONG_PREFIX)
    } else {
        states_broken(p, t, states)
    }
}

fn variant_broken(p: &Program, t: TypeId) -> Option<u8>
    ensures { result ≡ least (s.shape_broken (program_of p.now) (z.bare_variant t.0)) }
{
    if is_variant(p, t) {
        unless(!is_owning_type(p, t), rules::WRONG_OWNERSHIP)
    } else {
        Some(rules::BARE_OBJECT)
    }
}

/// What a type breaks whose prefix doesn't fit the declared type.
pub fn shape_broken(p: &Program, ty: &Ty) -> Option<u8>
    ensures { result ≡ least (s.shape_broken (program_of p.now) (ty_of ty.now)) }
{
    match ty {
        Ty::Int | Ty::Bool => None,
        Ty::Key(_, t, _) => unless(!is_variant(p, *t), rules::WRONG_PREFIX),
        Ty::Own(states, t, _) => own_broken(p, *t, *states),
        Ty::Guard(_, t, _) => unless(is_struct(p, *t), rules::WRONG_PREFIX),
        Ty::Var(t, _) => variant_broken(p, *t),
        Ty::OwnVar(t, _) => unless(
            is_variant(p, *t) && is_owning_type(p, *t),
            rules::WRONG_OWNERSHIP,
        ),
    }
}

/// What a key breaks that isn't a position of the header.
fn part_key_broken(header: &[Option<TypeId>], k: KeyId) -> Option<u8>
    ensures { result ≡ least (z.part_key_broken (header_of header.now) k.0) }
{
    unless((k.0 as usize) < header.len(), rules::KEY_NOT_IN_HEADER)
}

#[tactic(auto, using(crate::proofs::Smallest::each_more))]
fn part_key_list_broken(header: &[Option<TypeId>], keys: &[KeyId]) -> Option<u8>
    ensures { result ≡ least (flat_map (z.part_key_broken (header_of header.now))
        (keys_of keys.now)) }
{
    let mut found = None;
    for k in keys {
        found = lesser(found, part_key_broken(header, *k));
    }
    found
}

#[tactic(auto, using(crate::proofs::Smallest::joined))]
fn part_keys_broken(header: &[Option<TypeId>], ty: &Ty) -> Option<u8>
    ensures { result ≡ least (flat_map (z.part_key_broken (header_of header.now))
        (types.keys_of_ty (ty_of ty.now))) }
{
    match ty {
        Ty::Int | Ty::Bool => None,
        Ty::Key(k, _, args) | Ty::Guard(k, _, args) => lesser(
            part_key_broken(header, *k),
            part_key_list_broken(header, args.as_slice()),
        ),
        Ty::Own(_, _, args) => part_key_list_broken(header, args.as_slice()),
        Ty::Var(_, args) | Ty::OwnVar(_, args) => part_key_list_broken(header, args.as_slice()),
    }
}

/// What a key breaks that stands for a header's key of this type.
fn part_arg_broken(header: &[Option<TypeId>], k: KeyId, t: TypeId) -> Option<u8>
    ensures { result ≡ least (z.part_arg_broken (header_of header.now) k.0 t.0) }
{
    match header.get(k.0 as usize) {
        None => None,
        Some(None) => Some(rules::KEY_ARGUMENT),
        Some(Some(u)) => unless(t.0 == u.0, rules::KEY_ARGUMENT),
    }
}

fn part_wanted_broken(header: &[Option<TypeId>], k: KeyId, wanted: Option<TypeId>) -> Option<u8>
    ensures { result ≡ least (s.when_some (option_map (λ t. t.0) wanted)
        (z.part_arg_broken (header_of header.now) k.0)) }
{
    match wanted {
        None => None,
        Some(t) => part_arg_broken(header, k, t),
    }
}

#[tactic(auto, using(crate::proofs::Smallest::joined))]
fn part_args_broken(
    header: &[Option<TypeId>],
    args: &[KeyId],
    wanted: &[Option<TypeId>],
) -> Option<u8>
    ensures { result ≡ least (z.args_broken (z.part_arg_broken (header_of header.now))
        (keys_of args.now) (header_of wanted.now)) }
{
    match args {
        [] => None,
        [k, ks @ ..] => match wanted {
            [] => None,
            [t, ts @ ..] => lesser(
                part_wanted_broken(header, *k, *t),
                part_args_broken(header, ks, ts),
            ),
        },
    }
}

/// Whether the type has as many arguments as its header has keys.
pub fn has_count(p: &Program, ty: &Ty, t: TypeId) -> bool
    ensures { result ≡ (length (types.args_of (ty_of ty.now))
        == length (types.header_of (program_of p.now) t.0)) }
{
    args(ty).len() == header(p, t).len()
}

#[tactic(auto, using(crate::proofs::Smallest::joined))]
fn part_declared_broken(p: &Program, own: &[Option<TypeId>], ty: &Ty, t: TypeId) -> Option<u8>
    ensures { result ≡ least (z.declared_broken (program_of p.now)
        (z.part_arg_broken (header_of own.now)) (ty_of ty.now) t.0
        (types.decl_of (program_of p.now) t.0)) }
{
    match decl(p, t) {
        None => Some(rules::NOT_A_TYPE),
        Some(_) => lesser(
            lesser(
                unless(has_count(p, ty, t), rules::KEY_COUNT),
                shape_broken(p, ty),
            ),
            part_args_broken(own, args(ty), header(p, t)),
        ),
    }
}

/// What the type of a field or a payload breaks.
#[tactic(auto, using(crate::proofs::Smallest::joined))]
pub fn part_broken(p: &Program, own: &[Option<TypeId>], ty: &Ty) -> Option<u8>
    ensures { result ≡ least (s.part_broken (program_of p.now) (header_of own.now)
        (ty_of ty.now)) }
{
    match type_in(ty) {
        None => part_keys_broken(own, ty),
        Some(t) => lesser(
            part_keys_broken(own, ty),
            part_declared_broken(p, own, ty, t),
        ),
    }
}
