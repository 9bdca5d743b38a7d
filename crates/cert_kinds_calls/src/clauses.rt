//! The caller's keys of a call: those of the callee's clause, and those in scope.

ghost use Rattle.std.specs.Prelude.{◌≡◌, map, slice_get};
ghost use Rattle.std.specs.List.{list_any, filter_map, enumerate_from};
ghost use Rattle.vlt_core.specs.View.{func_of, keys_of, entry_of};
ghost use Rattle.vlt_core.specs.KindedHeads.{are_apart};
ghost use Rattle.vlt_core.specs.KindedCalls as s;
ghost use Rattle.cert_kinds_types.specs.Least.{least};
ghost use Rattle.cert_kinds_exprs.specs.Scopes.{ids_of};
ghost use Rattle.cert_kinds_calls.specs.Fitting as z;

use cert_kinds_exprs::Ids;
use cert_kinds_heads::{has_new, is_key};
use cert_kinds_types::{lesser, unless};
use vlt_base::KeyId;
use vlt_core::{Entry, Func, rules};

/// Whether the caller's key of an entry is this one.
fn gives_key(keys: &[KeyId], k: KeyId, e: Entry) -> bool
    ensures { result ≡ z.gives_key (keys_of keys.now) k.0 (entry_of e) }
{
    match keys.get(e.key.0 as usize) {
        None => false,
        Some(j) => j.0 == k.0,
    }
}

fn any_gives(clause: &[Entry], keys: &[KeyId], k: KeyId) -> bool
    ensures { result ≡ list_any (z.gives_key (keys_of keys.now) k.0) (map entry_of clause.now) }
{
    for e in clause {
        if gives_key(keys, k, *e) {
            return true;
        }
    }
    false
}

/// Whether the caller's key of an entry is that of one of others.
fn meets(clause: &[Entry], keys: &[KeyId], e: Entry) -> bool
    ensures { result ≡ z.meets (keys_of keys.now) (map entry_of clause.now)
        (slice_get (keys_of keys.now) (entry_of e).key) }
{
    match keys.get(e.key.0 as usize) {
        None => false,
        Some(k) => any_gives(clause, keys, *k),
    }
}

fn stay_apart(clause: &[Entry], keys: &[KeyId]) -> bool
    ensures { result ≡ z.stay_apart (keys_of keys.now) (map entry_of clause.now) }
{
    match clause {
        [] => true,
        [e, rest @ ..] => !meets(rest, keys, *e) && stay_apart(rest, keys),
    }
}

fn clause_keys_apart(g: &Func, keys: &[KeyId]) -> bool
    ensures { result ≡ are_apart (filter_map (λ e. slice_get (keys_of keys.now) e.key)
        (func_of g.now).clause) }
{
    stay_apart(g.clause.as_slice(), keys)
}

/// What a call breaks in which two keys of the callee's clause are one of the caller.
pub fn clause_keys_broken(g: &Func, keys: &[KeyId]) -> Option<u8>
    ensures { result ≡ least (s.clause_keys_broken (func_of g.now) (keys_of keys.now)) }
{
    unless(clause_keys_apart(g, keys), rules::CLAUSE_KEYS_MEET)
}

fn caller_key_broken(f: &Func, ids: &Ids, g: &Func, i: usize, k: KeyId) -> Option<u8>
    ensures { result ≡ least (z.caller_key_broken (func_of f.now) (ids_of ids.now)
        (func_of g.now) i k.0) }
{
    if has_new(g, i) || !is_key(f, k.0 as usize) {
        None
    } else {
        unless(ids.has_key(k), rules::NAME_TAKEN)
    }
}

/// What the caller's keys break that are neither fresh nor in scope.
pub fn caller_keys_broken(f: &Func, ids: &Ids, g: &Func, keys: &[KeyId]) -> Option<u8>
    ensures { result ≡ least (s.caller_keys_broken (func_of f.now) (ids_of ids.now)
        (func_of g.now) (enumerate_from 0 (keys_of keys.now))) }
{
    let mut found = None;
    for i in 0..keys.len() {
        found = lesser(found, caller_key_broken(f, ids, g, i, keys[i]));
    }
    found
}
