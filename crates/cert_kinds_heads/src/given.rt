//! The types that a function's types give a key.

ghost use Rattle.std.specs.Prelude.{◌≡◌, map, Some, None, option_map};
ghost use Rattle.std.specs.List.{flat_map};
ghost use Rattle.vlt_core.specs.View.{program_of, func_of, ty_of, keys_of, header_of, var_of};
ghost use Rattle.vlt_core.specs.KindedHeads as s;
ghost use Rattle.cert_kinds_heads.specs.Summaries as z;

use crate::keys::{has_new, head_has, locals, parameters, parameters_have};
use cert_kinds_types::{args, header, type_in};
use vlt_base::{KeyId, TypeId};
use vlt_core::{Func, Program, Ty, VarDecl};

/// The types that are given to a key, as far as the rules ask: none, one type alone, or several.
#[derive(Clone, Copy)]
pub enum Given {
    Nothing,
    Only(TypeId),
    Several,
}

fn both(a: Given, b: Given) -> Given
    ensures { z.summary_of result ≡ z.both (z.summary_of a) (z.summary_of b) }
{
    match (a, b) {
        (Given::Nothing, b) => b,
        (Given::Only(t), Given::Nothing) => Given::Only(t),
        (Given::Only(t), Given::Only(u)) => {
            if t.0 == u.0 {
                Given::Only(t)
            } else {
                Given::Several
            }
        }
        (Given::Only(_), Given::Several) => Given::Several,
        (Given::Several, _) => Given::Several,
    }
}

/// What the type gives its own key, where it is a reference's.
fn own_gives(k: usize, ty: &Ty) -> Given
    ensures { z.summary_of result ≡ z.summary (s.types_at k (s.own_typings (ty_of ty.now))) }
{
    match ty {
        Ty::Key(j, t, _) => {
            if j.0 as usize == k {
                Given::Only(*t)
            } else {
                Given::Nothing
            }
        }
        _ => Given::Nothing,
    }
}

fn arg_gives(k: usize, j: KeyId, wanted: Option<TypeId>) -> Given
    ensures { z.summary_of result ≡ z.summary (s.types_at k
        (z.arg_typing j.0 (option_map (λ t. t.0) wanted))) }
{
    match wanted {
        None => Given::Nothing,
        Some(t) => {
            if j.0 as usize == k {
                Given::Only(t)
            } else {
                Given::Nothing
            }
        }
    }
}

fn args_give(k: usize, args: &[KeyId], wanted: &[Option<TypeId>]) -> Given
    ensures { z.summary_of result ≡ z.summary (s.types_at k
        (s.arg_typings (keys_of args.now) (header_of wanted.now))) }
{
    match args {
        [] => Given::Nothing,
        [j, js @ ..] => match wanted {
            [] => Given::Nothing,
            [t, ts @ ..] => both(arg_gives(k, *j, *t), args_give(k, js, ts)),
        },
    }
}

fn header_gives(p: &Program, k: usize, ty: &Ty) -> Given
    ensures { z.summary_of result ≡ z.summary (s.types_at k
        (z.args_typings (program_of p.now) (ty_of ty.now))) }
{
    match type_in(ty) {
        None => Given::Nothing,
        Some(t) => args_give(k, args(ty), header(p, t)),
    }
}

#[tactic(auto, using(crate::proofs::Summaries::summary_joined))]
fn type_gives(p: &Program, k: usize, ty: &Ty) -> Given
    ensures { z.summary_of result ≡ z.summary (s.types_at k
        (s.typings (program_of p.now) (ty_of ty.now))) }
{
    both(own_gives(k, ty), header_gives(p, k, ty))
}

fn parameters_give(p: &Program, k: usize, vars: &[VarDecl]) -> Given
    ensures { z.summary_of result ≡ z.summary (s.types_at k
        (flat_map (s.typings (program_of p.now)) (map (λ d. d.ty) (map var_of vars.now)))) }
{
    let mut found = Given::Nothing;
    for d in vars {
        found = both(found, type_gives(p, k, &d.ty));
    }
    found
}

fn locals_give(k: usize, vars: &[VarDecl]) -> Given
    ensures { z.summary_of result ≡ z.summary (s.types_at k
        (flat_map (λ d. s.own_typings d.ty) (map var_of vars.now))) }
{
    let mut found = Given::Nothing;
    for d in vars {
        found = both(found, own_gives(k, &d.ty));
    }
    found
}

fn result_gives(k: usize, given: &Option<Ty>) -> Given
    ensures { z.summary_of result ≡ z.summary (z.result_types k (option_map ty_of given.now)) }
{
    match given {
        None => Given::Nothing,
        Some(ty) => own_gives(k, ty),
    }
}

/// What the function's types give a key.
pub fn types_give(p: &Program, f: &Func, k: usize) -> Given
    ensures { z.summary_of result
        ≡ z.summary (s.given_types (program_of p.now) (func_of f.now) k) }
{
    if has_new(f, k) {
        result_gives(k, &f.result)
    } else if parameters_have(f, k) {
        parameters_give(p, k, parameters(f))
    } else if head_has(f, k) {
        Given::Nothing
    } else {
        locals_give(k, locals(f))
    }
}
