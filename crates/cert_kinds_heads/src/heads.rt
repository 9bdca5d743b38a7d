//! What the types of a function and its keys break.

ghost use Rattle.std.specs.Prelude.{◌≡◌, map, Some, option_map};
ghost use Rattle.std.specs.List.{flat_map};
ghost use Rattle.vlt_core.specs.View.{program_of, func_of, ty_of, keys_of, header_of, var_of, key_of};
ghost use Rattle.vlt_core.specs.KindedHeads as s;
ghost use Rattle.vlt_core.specs.Types as types;
ghost use Rattle.cert_kinds_types.specs.Least.{least};
ghost use Rattle.cert_kinds_types.specs.Arguments as arguments;
ghost use Rattle.cert_kinds_heads.specs.Heads as parts;
ghost use Rattle.cert_kinds_heads.specs.Summaries as summaries;

use crate::given::{Given, types_give};
use crate::keys::{is_key, is_left_out, is_new, parameters_have};
use cert_kinds_types::{
    args, decl, has_count, header, is_declared, lesser, shape_broken, state_broken, states_broken,
    type_in, unless,
};
use vlt_base::{KeyId, StateSet, TypeId};
use vlt_core::{Entry, Func, KeyDecl, Mode, Program, Ty, VarDecl, rules};

fn is_only(by: Given, t: TypeId) -> bool
    ensures { result ≡ summaries.is_only (summaries.summary_of by) t.0 }
{
    match by {
        Given::Only(u) => u.0 == t.0,
        _ => false,
    }
}

/// What a key breaks that stands for a header's key of this type.
#[tactic(auto, using(crate::proofs::Summaries::only_summary))]
fn argument_broken(p: &Program, f: &Func, k: usize, t: TypeId) -> Option<u8>
    ensures { result ≡ least (s.argument_broken (program_of p.now) (func_of f.now) k t.0) }
{
    if is_left_out(f, k) || !is_key(f, k) {
        None
    } else {
        unless(is_only(types_give(p, f, k), t), rules::KEY_ARGUMENT)
    }
}

fn reference_by(by: Given, t: TypeId) -> Option<u8>
    ensures { result ≡ least (summaries.reference_by t.0 (summaries.summary_of by)) }
{
    match by {
        Given::Nothing => Some(rules::KEY_ARGUMENT),
        Given::Only(u) => unless(u.0 == t.0, rules::TWO_KEY_TYPES),
        Given::Several => Some(rules::TWO_KEY_TYPES),
    }
}

/// What a reference's own key breaks.
#[tactic(auto, using(crate::proofs::Summaries::reference_summary))]
fn reference_broken(p: &Program, f: &Func, k: KeyId, t: TypeId) -> Option<u8>
    ensures { result ≡ least (s.reference_broken (program_of p.now) (func_of f.now)
        (summaries.typing k.0 t.0)) }
{
    if is_left_out(f, k.0 as usize) || !is_key(f, k.0 as usize) {
        None
    } else {
        reference_by(types_give(p, f, k.0 as usize), t)
    }
}

fn own_broken(p: &Program, f: &Func, ty: &Ty) -> Option<u8>
    ensures { result ≡ least (flat_map (s.reference_broken (program_of p.now) (func_of f.now))
        (s.own_typings (ty_of ty.now))) }
{
    match ty {
        Ty::Key(k, t, _) => reference_broken(p, f, *k, *t),
        _ => None,
    }
}

fn type_key_broken(f: &Func, k: KeyId) -> Option<u8>
    ensures { result ≡ least (parts.type_key_broken (func_of f.now) k.0) }
{
    unless(is_key(f, k.0 as usize), rules::UNKNOWN_NAME)
}

/// What keys break that aren't the function's.
#[tactic(auto, using(cert_kinds_types::proofs::Smallest::each_more))]
pub fn key_list_broken(f: &Func, keys: &[KeyId]) -> Option<u8>
    ensures { result ≡ least (flat_map (parts.type_key_broken (func_of f.now))
        (keys_of keys.now)) }
{
    let mut found = None;
    for k in keys {
        found = lesser(found, type_key_broken(f, *k));
    }
    found
}

#[tactic(auto, using(cert_kinds_types::proofs::Smallest::joined))]
fn type_keys_broken(f: &Func, ty: &Ty) -> Option<u8>
    ensures { result ≡ least (flat_map (parts.type_key_broken (func_of f.now))
        (types.keys_of_ty (ty_of ty.now))) }
{
    match ty {
        Ty::Int | Ty::Bool => None,
        Ty::Key(k, _, args) | Ty::Guard(k, _, args) => lesser(
            type_key_broken(f, *k),
            key_list_broken(f, args.as_slice()),
        ),
        Ty::Own(_, _, args) => key_list_broken(f, args.as_slice()),
        Ty::Var(_, args) | Ty::OwnVar(_, args) => key_list_broken(f, args.as_slice()),
    }
}

fn wanted_broken(p: &Program, f: &Func, k: KeyId, wanted: Option<TypeId>) -> Option<u8>
    ensures { result ≡ least (s.when_some (option_map (λ t. t.0) wanted)
        (s.argument_broken (program_of p.now) (func_of f.now) k.0)) }
{
    match wanted {
        None => None,
        Some(t) => argument_broken(p, f, k.0 as usize, t),
    }
}

fn args_broken(p: &Program, f: &Func, args: &[KeyId], wanted: &[Option<TypeId>]) -> Option<u8>
    ensures { result ≡ least (arguments.args_broken
        (s.argument_broken (program_of p.now) (func_of f.now))
        (keys_of args.now) (header_of wanted.now)) }
{
    match args {
        [] => None,
        [k, ks @ ..] => match wanted {
            [] => None,
            [t, ts @ ..] => lesser(wanted_broken(p, f, *k, *t), args_broken(p, f, ks, ts)),
        },
    }
}

#[tactic(auto, using(cert_kinds_types::proofs::Smallest::joined))]
fn declared_broken(p: &Program, f: &Func, ty: &Ty, t: TypeId) -> Option<u8>
    ensures { result ≡ least (arguments.declared_broken (program_of p.now)
        (s.argument_broken (program_of p.now) (func_of f.now)) (ty_of ty.now) t.0
        (types.decl_of (program_of p.now) t.0)) }
{
    match decl(p, t) {
        None => Some(rules::NOT_A_TYPE),
        Some(_) => lesser(
            lesser(
                unless(has_count(p, ty, t), rules::KEY_COUNT),
                shape_broken(p, ty),
            ),
            args_broken(p, f, args(ty), header(p, t)),
        ),
    }
}

#[tactic(auto, using(cert_kinds_types::proofs::Smallest::joined))]
fn shaped_broken(p: &Program, f: &Func, ty: &Ty) -> Option<u8>
    ensures { result ≡ least (parts.shaped_broken (program_of p.now) (func_of f.now)
        (ty_of ty.now)) }
{
    match type_in(ty) {
        None => type_keys_broken(f, ty),
        Some(t) => lesser(type_keys_broken(f, ty), declared_broken(p, f, ty, t)),
    }
}

/// What a type of the function breaks.
#[tactic(auto, using(cert_kinds_types::proofs::Smallest::joined))]
pub fn type_broken(p: &Program, f: &Func, ty: &Ty) -> Option<u8>
    ensures { result ≡ least (s.type_broken (program_of p.now) (func_of f.now)
        (ty_of ty.now)) }
{
    lesser(shaped_broken(p, f, ty), own_broken(p, f, ty))
}

/// What the types of variables break.
#[tactic(auto, using(cert_kinds_types::proofs::Smallest::each_more))]
pub fn vars_broken(p: &Program, f: &Func, vars: &[VarDecl]) -> Option<u8>
    ensures { result ≡ least (flat_map
        (λ d. s.type_broken (program_of p.now) (func_of f.now) d.ty)
        (map var_of vars.now)) }
{
    let mut found = None;
    for d in vars {
        found = lesser(found, type_broken(p, f, &d.ty));
    }
    found
}

fn listed_type_broken(p: &Program, listed: Option<TypeId>) -> Option<u8>
    ensures { result ≡ least (parts.listed_type_broken (program_of p.now)
        (option_map (λ t. t.0) listed)) }
{
    match listed {
        None => None,
        Some(t) => unless(is_declared(p, t), rules::NOT_A_TYPE),
    }
}

fn listed_by(listed: Option<TypeId>, by: Given) -> Option<u8>
    ensures { result ≡ least (summaries.listed_by (option_map (λ t. t.0) listed)
        (summaries.summary_of by)) }
{
    match (listed, by) {
        (None, Given::Nothing) => None,
        (Some(_), Given::Nothing) => Some(rules::WRONG_TYPE),
        (None, Given::Only(_)) => Some(rules::WRONG_TYPE),
        (Some(t), Given::Only(u)) => unless(t.0 == u.0, rules::WRONG_TYPE),
        (_, Given::Several) => Some(rules::TWO_KEY_TYPES),
    }
}

#[tactic(auto, using(crate::proofs::Summaries::listed_summary))]
fn agrees(p: &Program, f: &Func, k: usize, listed: Option<TypeId>) -> Option<u8>
    ensures { result ≡ least (summaries.listed_types (option_map (λ t. t.0) listed)
        (s.given_types (program_of p.now) (func_of f.now) k)) }
{
    listed_by(listed, types_give(p, f, k))
}

/// What the declaration of a key breaks.
#[tactic(auto, using(cert_kinds_types::proofs::Smallest::joined))]
fn key_broken(p: &Program, f: &Func, k: usize, d: &KeyDecl) -> Option<u8>
    ensures { result ≡ least (s.key_broken (program_of p.now) (func_of f.now) k
        (key_of d.now)) }
{
    lesser(
        listed_type_broken(p, d.key_type),
        agrees(p, f, k, d.key_type),
    )
}

/// What the list of the function's keys breaks.
pub fn keys_broken(p: &Program, f: &Func, keys: &[KeyDecl]) -> Option<u8>
    ensures { result ≡ least (s.listed_broken (program_of p.now) (func_of f.now) 0
        (map key_of keys.now)) }
{
    let mut found = None;
    for k in 0..keys.len() {
        found = lesser(found, key_broken(p, f, k, &keys[k]));
    }
    found
}
