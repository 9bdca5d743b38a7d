//! What the head of an external breaks.

ghost use Rattle.std.specs.Prelude.{◌≡◌, ◌==◌, map, Some, option_map};
ghost use Rattle.std.specs.List.{flat_map, list_any};
ghost use Rattle.vlt_core.specs.View.{program_of, func_of, ty_of, keys_of, var_of, entry_of, case_of, case_key_of};
ghost use Rattle.vlt_core.specs.KindedHeads as s;
ghost use Rattle.cert_kinds_types.specs.Least.{least};
ghost use Rattle.cert_kinds_heads.specs.Heads as z;

use crate::keys::{has_new, is_new, parameters};
use cert_kinds_types::{
    cases, is_abstract, is_declared, is_struct, is_variant, lesser, type_in, unless,
};
use vlt_base::{Items, KeyId, StateSet, TypeId};
use vlt_core::{CaseDecl, Entry, Func, Program, Ty, VarDecl, rules};

fn is_external_parameter(ty: &Ty) -> bool
    ensures { result ≡ s.is_external_parameter (ty_of ty.now) }
{
    !matches!(ty, Ty::Var(..) | Ty::OwnVar(..))
}

fn parameter_broken(ty: &Ty) -> Option<u8>
    ensures { result ≡ least (z.external_parameter_broken (ty_of ty.now)) }
{
    unless(is_external_parameter(ty), rules::EXTERN_HEAD)
}

#[tactic(auto, using(cert_kinds_types::proofs::Smallest::each_more))]
fn parameters_broken(vars: &[VarDecl]) -> Option<u8>
    ensures { result ≡ least (flat_map z.external_parameter_broken
        (map (λ d. d.ty) (map var_of vars.now))) }
{
    let mut found = None;
    for d in vars {
        found = lesser(found, parameter_broken(&d.ty));
    }
    found
}

fn is_tracked_by(ty: &Ty, k: usize) -> bool
    ensures { result ≡ s.has (map (λ x. x.key) (s.own_typings (ty_of ty.now))) k }
{
    match ty {
        Ty::Key(j, _, _) => j.0 as usize == k,
        _ => false,
    }
}

fn any_tracked(vars: &[VarDecl], k: usize) -> bool
    ensures { result ≡ list_any (λ ty. s.has (map (λ x. x.key) (s.own_typings ty)) k)
        (map (λ d. d.ty) (map var_of vars.now)) }
{
    for d in vars {
        if is_tracked_by(&d.ty, k) {
            return true;
        }
    }
    false
}

#[tactic(auto, using(crate::proofs::Entries::has_tracked))]
fn has_tracked(f: &Func, k: KeyId) -> bool
    ensures { result ≡ s.has (s.tracked_keys (func_of f.now)) k.0 }
{
    any_tracked(parameters(f), k.0 as usize)
}

fn entry_broken(f: &Func, e: Entry) -> Option<u8>
    ensures { result ≡ least (z.external_entry_broken (func_of f.now) (entry_of e)) }
{
    unless(is_new(e) || has_tracked(f, e.key), rules::EXTERN_HEAD)
}

#[tactic(auto, using(cert_kinds_types::proofs::Smallest::each_more))]
fn entries_broken(f: &Func, clause: &[Entry]) -> Option<u8>
    ensures { result ≡ least (flat_map (z.external_entry_broken (func_of f.now))
        (map entry_of clause.now)) }
{
    let mut found = None;
    for e in clause {
        found = lesser(found, entry_broken(f, *e));
    }
    found
}

fn is_external_payload(p: &Program, ty: &Ty) -> bool
    ensures { result ≡ s.is_external_payload (program_of p.now) (ty_of ty.now) }
{
    match ty {
        Ty::Int | Ty::Bool => true,
        Ty::Own(_, t, _) => !(is_struct(p, *t) || is_variant(p, *t)),
        _ => false,
    }
}

fn payload_broken(p: &Program, ty: &Ty) -> Option<u8>
    ensures { result ≡ least (z.external_payload_broken (program_of p.now) (ty_of ty.now)) }
{
    unless(is_external_payload(p, ty), rules::EXTERN_HEAD)
}

#[tactic(auto, using(cert_kinds_types::proofs::Smallest::each_more))]
fn payloads_broken(p: &Program, payload: &[Ty]) -> Option<u8>
    ensures { result ≡ least (flat_map (z.external_payload_broken (program_of p.now))
        (map ty_of payload.now)) }
{
    let mut found = None;
    for ty in payload {
        found = lesser(found, payload_broken(p, ty));
    }
    found
}

fn case_key_broken(f: &Func, args: &[KeyId], key: (u32, StateSet)) -> Option<u8>
    ensures { result ≡ least (z.external_case_key_broken (func_of f.now) (keys_of args.now)
        (case_key_of key)) }
{
    match args.get(key.0 as usize) {
        None => None,
        Some(k) => unless(has_tracked(f, *k), rules::EXTERN_HEAD),
    }
}

#[tactic(auto, using(cert_kinds_types::proofs::Smallest::each_more))]
fn case_keys_broken(f: &Func, args: &[KeyId], keys: &[(u32, StateSet)]) -> Option<u8>
    ensures { result ≡ least (flat_map
        (z.external_case_key_broken (func_of f.now) (keys_of args.now))
        (map case_key_of keys.now)) }
{
    let mut found = None;
    for key in keys {
        found = lesser(found, case_key_broken(f, args, *key));
    }
    found
}

#[tactic(auto, using(cert_kinds_types::proofs::Smallest::joined))]
fn case_broken(p: &Program, f: &Func, args: &[KeyId], d: &CaseDecl) -> Option<u8>
    ensures { result ≡ least (s.external_case_broken (program_of p.now) (func_of f.now)
        (keys_of args.now) (case_of d.now)) }
{
    lesser(
        payloads_broken(p, d.payload.as_slice()),
        case_keys_broken(f, args, d.keys.as_slice()),
    )
}

#[tactic(auto, using(cert_kinds_types::proofs::Smallest::each_more))]
fn cases_broken(p: &Program, f: &Func, args: &[KeyId], cases: &[CaseDecl]) -> Option<u8>
    ensures { result ≡ least (flat_map
        (s.external_case_broken (program_of p.now) (func_of f.now) (keys_of args.now))
        (map case_of cases.now)) }
{
    let mut found = None;
    for d in cases {
        found = lesser(found, case_broken(p, f, args, d));
    }
    found
}

fn result_broken(p: &Program, f: &Func, ty: &Ty) -> Option<u8>
    ensures { result ≡ least (s.external_result_broken (program_of p.now) (func_of f.now)
        (ty_of ty.now)) }
{
    match ty {
        Ty::Int | Ty::Bool => None,
        Ty::Key(k, t, _) => unless(
            is_abstract(p, *t) && has_new(f, k.0 as usize),
            rules::EXTERN_HEAD,
        ),
        Ty::Own(_, t, _) => unless(is_abstract(p, *t), rules::EXTERN_HEAD),
        Ty::Guard(_, _, _) => Some(rules::EXTERN_HEAD),
        Ty::Var(t, args) | Ty::OwnVar(t, args) => cases_broken(p, f, args.as_slice(), cases(p, *t)),
    }
}

fn is_declared_result(p: &Program, ty: &Ty) -> bool
    ensures { result ≡ s.is_declared_result (program_of p.now) (ty_of ty.now) }
{
    match type_in(ty) {
        None => false,
        Some(t) => is_declared(p, t),
    }
}

fn given_broken(p: &Program, f: &Func, given: &Option<Ty>) -> Option<u8>
    ensures { result ≡ least (z.external_given_broken (program_of p.now) (func_of f.now)
        (option_map ty_of given.now)) }
{
    match given {
        None => None,
        Some(ty) => {
            if is_declared_result(p, ty) {
                result_broken(p, f, ty)
            } else {
                None
            }
        }
    }
}

/// What the head of an external breaks beside what each head does.
#[tactic(auto, using(cert_kinds_types::proofs::Smallest::joined))]
pub fn external_broken(p: &Program, f: &Func) -> Option<u8>
    ensures { result ≡ least (s.external_broken (program_of p.now) (func_of f.now)) }
{
    lesser(
        lesser(
            parameters_broken(parameters(f)),
            entries_broken(f, f.clause.as_slice()),
        ),
        given_broken(p, f, &f.result),
    )
}
