//! What the clause and the result of a head break.

ghost use Rattle.std.specs.Prelude.{◌≡◌, ◌&&◌, map, filter, length, nat_le, Some};
ghost use Rattle.std.specs.List.{flat_map, list_any};
ghost use Rattle.vlt_core.specs.View.{program_of, func_of, ty_of, keys_of, entry_of, states_of, mode_of};
ghost use Rattle.vlt_core.specs.KindedHeads as s;
ghost use Rattle.vlt_core.specs.Lookups as lookups;
ghost use Rattle.vlt_core.specs.Types as types;
ghost use Rattle.cert_kinds_types.specs.Least.{least};
ghost use Rattle.cert_kinds_heads.specs.Summaries as summaries;
ghost use Rattle.cert_kinds_heads.specs.Heads as z;

use crate::given::{Given, types_give};
use crate::keys::{any_has, has_key, has_new, is_key, is_new, parameters_have};
use cert_kinds_types::{decl, lesser, state_broken, states_broken, unless};
use vlt_base::{Items, KeyId, StateSet, TypeId};
use vlt_core::{Entry, Func, Mode, Program, Ty, rules};

fn side_broken(p: &Program, t: TypeId, side: Option<StateSet>) -> Option<u8>
    ensures { result ≡ least (s.when_some (states_of side)
        (s.states_broken (program_of p.now) t.0)) }
{
    match side {
        None => None,
        Some(states) => states_broken(p, t, states),
    }
}

fn bound_broken(p: &Program, t: TypeId, mode: Mode) -> Option<u8>
    ensures { result ≡ least (s.bound_broken (program_of p.now) t.0 (mode_of mode)) }
{
    match mode {
        Mode::Bound(b) => state_broken(p, t, b),
        _ => None,
    }
}

#[tactic(auto, using(cert_kinds_types::proofs::Smallest::joined))]
fn sides_broken(p: &Program, e: Entry, t: TypeId) -> Option<u8>
    ensures { result ≡ least (summaries.sides_broken (program_of p.now) (entry_of e) t.0) }
{
    match decl(p, t) {
        None => None,
        Some(_) => lesser(
            lesser(side_broken(p, t, e.before), side_broken(p, t, e.after)),
            bound_broken(p, t, e.mode),
        ),
    }
}

fn is_bound(e: Entry) -> bool
    ensures { result ≡ s.is_bound_entry (entry_of e) }
{
    matches!(e.mode, Mode::Bound(_))
}

fn names_states(e: Entry) -> bool
    ensures { result ≡ s.names_states (entry_of e) }
{
    is_bound(e) || e.before.is_some() || e.after.is_some()
}

fn entry_by(p: &Program, e: Entry, by: Given) -> Option<u8>
    ensures { result ≡ least (summaries.entry_by (program_of p.now) (entry_of e)
        (summaries.summary_of by)) }
{
    match by {
        Given::Nothing => unless(!names_states(e), rules::STATES_UNTYPED),
        Given::Only(t) => sides_broken(p, e, t),
        Given::Several => None,
    }
}

#[tactic(auto, using(crate::proofs::Summaries::entry_summary))]
fn named_broken(p: &Program, f: &Func, e: Entry) -> Option<u8>
    ensures { result ≡ least (summaries.entry_types (program_of p.now) (entry_of e)
        (s.given_types (program_of p.now) (func_of f.now) e.key.0)) }
{
    entry_by(p, e, types_give(p, f, e.key.0 as usize))
}

#[tactic(auto, using(cert_kinds_types::proofs::Smallest::joined))]
fn entry_broken(p: &Program, f: &Func, e: Entry) -> Option<u8>
    ensures { result ≡ least (s.entry_broken (program_of p.now) (func_of f.now)
        (entry_of e)) }
{
    if is_key(f, e.key.0 as usize) {
        lesser(
            unless(
                is_new(e) || parameters_have(f, e.key.0 as usize),
                rules::CLAUSE_KEY_UNBOUND,
            ),
            named_broken(p, f, e),
        )
    } else {
        Some(rules::UNKNOWN_NAME)
    }
}

/// What the entries of a clause break, each by itself.
#[tactic(auto, using(cert_kinds_types::proofs::Smallest::each_more))]
pub fn entries_broken(p: &Program, f: &Func, clause: &[Entry]) -> Option<u8>
    ensures { result ≡ least (flat_map (s.entry_broken (program_of p.now) (func_of f.now))
        (map entry_of clause.now)) }
{
    let mut found = None;
    for e in clause {
        found = lesser(found, entry_broken(p, f, *e));
    }
    found
}

fn is_key_of_result(f: &Func, k: KeyId) -> bool
    ensures { result ≡ s.is_key_of_result (func_of f.now).result k.0 }
{
    match &f.result {
        Some(Ty::Key(j, _, args)) => j.0 == k.0 && !has_key(args.as_slice(), k.0 as usize),
        _ => false,
    }
}

#[tactic(auto, using(crate::proofs::Entries::any_of_vars))]
fn any_var_has(f: &Func, k: KeyId) -> bool
    ensures { result ≡ list_any (λ d. s.has (types.keys_of_ty d.ty) k.0) (func_of f.now).vars }
{
    any_has(f.vars.as_slice(), k.0 as usize)
}

fn new_key_broken(f: &Func, k: KeyId) -> Option<u8>
    ensures { result ≡ least (s.new_key_broken (func_of f.now) k.0) }
{
    unless(
        is_key_of_result(f, k) && !any_var_has(f, k),
        rules::RESULT_KEY,
    )
}

fn new_entry_broken(f: &Func, e: Entry) -> Option<u8>
    ensures { result ≡ least (z.new_entry_broken (func_of f.now) (entry_of e)) }
{
    if is_new(e) {
        new_key_broken(f, e.key)
    } else {
        None
    }
}

#[tactic(auto, using(cert_kinds_types::proofs::Smallest::each_more))]
fn new_entries_broken(f: &Func, clause: &[Entry]) -> Option<u8>
    ensures { result ≡ least (flat_map (z.new_entry_broken (func_of f.now))
        (map entry_of clause.now)) }
{
    let mut found = None;
    for e in clause {
        found = lesser(found, new_entry_broken(f, *e));
    }
    found
}

#[tactic(auto, using(crate::proofs::Entries::flat_new))]
fn new_keys_broken(f: &Func) -> Option<u8>
    ensures { result ≡ least (flat_map (s.new_key_broken (func_of f.now))
        (s.new_keys (func_of f.now))) }
{
    new_entries_broken(f, f.clause.as_slice())
}

/// Whether the clause has a `new` key.
pub fn any_new(clause: &[Entry]) -> bool
    ensures { result ≡ list_any lookups.is_new (map entry_of clause.now) }
{
    for e in clause {
        if is_new(*e) {
            return true;
        }
    }
    false
}

fn has_few_new(clause: &[Entry]) -> bool
    ensures { result ≡ nat_le (length (filter lookups.is_new (map entry_of clause.now))) 1 }
{
    match clause {
        [] => true,
        [e, rest @ ..] => {
            if is_new(*e) {
                !any_new(rest)
            } else {
                has_few_new(rest)
            }
        }
    }
}

fn any_bound(clause: &[Entry]) -> bool
    ensures { result ≡ list_any s.is_bound_entry (map entry_of clause.now) }
{
    for e in clause {
        if is_bound(*e) {
            return true;
        }
    }
    false
}

/// Whether a clause has at most one bound entry.
pub fn has_few_bounds(clause: &[Entry]) -> bool
    ensures { result ≡ nat_le (length (filter s.is_bound_entry (map entry_of clause.now))) 1 }
{
    match clause {
        [] => true,
        [e, rest @ ..] => {
            if is_bound(*e) {
                !any_bound(rest)
            } else {
                has_few_bounds(rest)
            }
        }
    }
}

fn result_key_broken(f: &Func, k: KeyId) -> Option<u8>
    ensures { result ≡ least (z.result_key_broken (func_of f.now) k.0) }
{
    unless(
        has_new(f, k.0 as usize) || parameters_have(f, k.0 as usize),
        rules::RESULT_KEY,
    )
}

#[tactic(auto, using(cert_kinds_types::proofs::Smallest::each_more))]
fn result_key_list_broken(f: &Func, keys: &[KeyId]) -> Option<u8>
    ensures { result ≡ least (flat_map (z.result_key_broken (func_of f.now))
        (keys_of keys.now)) }
{
    let mut found = None;
    for k in keys {
        found = lesser(found, result_key_broken(f, *k));
    }
    found
}

#[tactic(auto, using(cert_kinds_types::proofs::Smallest::joined))]
fn result_keys_broken(f: &Func, ty: &Ty) -> Option<u8>
    ensures { result ≡ least (flat_map (z.result_key_broken (func_of f.now))
        (types.keys_of_ty (ty_of ty.now))) }
{
    match ty {
        Ty::Int | Ty::Bool => None,
        Ty::Key(k, _, args) | Ty::Guard(k, _, args) => lesser(
            result_key_broken(f, *k),
            result_key_list_broken(f, args.as_slice()),
        ),
        Ty::Own(_, _, args) => result_key_list_broken(f, args.as_slice()),
        Ty::Var(_, args) | Ty::OwnVar(_, args) => result_key_list_broken(f, args.as_slice()),
    }
}

fn result_list_broken(f: &Func) -> Option<u8>
    ensures { result ≡ least (flat_map (z.result_key_broken (func_of f.now))
        (s.keys_of_result (func_of f.now))) }
{
    match &f.result {
        None => None,
        Some(ty) => result_keys_broken(f, ty),
    }
}

/// What the result's keys and the `new` ones break.
#[tactic(auto, using(cert_kinds_types::proofs::Smallest::joined))]
pub fn result_broken(f: &Func) -> Option<u8>
    ensures { result ≡ least (s.result_broken (func_of f.now)) }
{
    lesser(
        lesser(
            unless(few_new_keys(f), rules::RESULT_KEY),
            new_keys_broken(f),
        ),
        result_list_broken(f),
    )
}

#[tactic(auto, using(crate::proofs::Entries::as_many))]
fn few_new_keys(f: &Func) -> bool
    ensures { result ≡ nat_le (length (s.new_keys (func_of f.now))) 1 }
{
    has_few_new(f.clause.as_slice())
}
