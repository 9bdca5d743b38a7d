//! What the target of a call breaks.

ghost use Rattle.std.specs.Prelude.{◌≡◌, Some, OnOk};
ghost use Rattle.std.specs.Option.{option_map};
ghost use Rattle.vlt_core.specs.View.{func_of, ty_of, keys_of};
ghost use Rattle.vlt_core.specs.Lookups.{var_type};
ghost use Rattle.vlt_core.specs.Types.{same_keys, args_of};
ghost use Rattle.vlt_core.specs.KindedOperands.{is_owning_some};
ghost use Rattle.vlt_core.specs.KindedStatements.{is_tracked_type};
ghost use Rattle.vlt_core.specs.KindedScopes as scopes;
ghost use Rattle.vlt_core.specs.KindedCalls as s;
ghost use Rattle.cert_kinds_types.specs.Least.{least};
ghost use Rattle.cert_kinds_exprs.specs.Scopes.{ids_of};
ghost use Rattle.cert_kinds_exprs.specs.Seen.{seen_of, seen_some, keys_seen};
ghost use Rattle.cert_kinds_calls.specs.Called as z;

use crate::arguments::{caller_type, same_but_keys};
use cert_kinds_exprs::{
    Ids, Keys, Seen, binding_broken, own_key, plain_keys, same_keys, same_ty, target_broken,
    var_type,
};
use cert_kinds_heads::any_new;
use cert_kinds_types::{lesser, unless};
use std::alloc::AllocError;
use vlt_base::{KeyId, VarId};
use vlt_core::{Func, Ty, rules};

/// Whether the callee gives a fresh object.
pub fn is_fresh_call(g: &Func) -> bool
    ensures { result ≡ s.is_fresh_call (func_of g.now) }
{
    any_new(g.clause.as_slice())
}

/// The keys in place of the header's.
fn seen_args(ty: Seen<'_>) -> Keys<'_>
    ensures { keys_seen result ≡ args_of (seen_of ty.entry) }
{
    match ty {
        Seen::Int | Seen::Bool => plain_keys(&[]),
        Seen::Tracked(_, _, args) | Seen::Guarded(_, _, args) => args,
        Seen::Owning(_, _, args) => args,
        Seen::Variant(_, args) | Seen::OwningVariant(_, args) => args,
    }
}

fn is_tracked(ty: Seen) -> bool
    ensures { result ≡ is_tracked_type (seen_of ty.entry) }
{
    matches!(ty, Seen::Tracked(..))
}

/// Whether a result is a fresh object that fits but for its own key.
fn fits_but_key(g: &Func, wanted: Seen, given: Seen) -> bool
    ensures { result ≡ z.fits_but_key (func_of g.now) (seen_of wanted.entry)
        (seen_of given.entry) }
{
    is_fresh_call(g)
        && is_tracked(wanted)
        && same_but_keys(wanted, given)
        && same_keys(seen_args(wanted), seen_args(given))
}

fn result_misfit(g: &Func, wanted: Seen, given: Seen) -> Option<u8>
    ensures { result ≡ least (s.result_misfit (func_of g.now) (seen_of wanted.entry)
        (seen_of given.entry)) }
{
    if same_ty(wanted, given) {
        None
    } else if fits_but_key(g, wanted, given) {
        Some(rules::TWO_CALLER_KEYS)
    } else {
        Some(rules::WRONG_TYPE)
    }
}

fn given_misfit(g: &Func, keys: &[KeyId], wanted: &Ty, given: Seen) -> Option<u8>
    ensures { result ≡ least (z.given_misfit (func_of g.now) (keys_of keys.now)
        (ty_of wanted.now) (seen_of given.entry)) }
{
    match caller_type(keys, wanted) {
        None => None,
        Some(ty) => result_misfit(g, ty, given),
    }
}

fn wanted_broken(g: &Func, keys: &[KeyId], wanted: &Ty, given: Option<Seen>) -> Option<u8>
    ensures { result ≡ least (z.wanted_broken (func_of g.now) (keys_of keys.now)
        (ty_of wanted.now) (seen_some given.entry)) }
{
    match given {
        None => None,
        Some(ty) => given_misfit(g, keys, wanted, ty),
    }
}

fn result_broken(g: &Func, keys: &[KeyId], given: Option<Seen>) -> Option<u8>
    ensures { result ≡ least (s.result_broken_by (func_of g.now) (keys_of keys.now)
        (func_of g.now).result (seen_some given.entry)) }
{
    match &g.result {
        None => Some(rules::WRONG_TYPE),
        Some(wanted) => wanted_broken(g, keys, wanted, given),
    }
}

fn gives_owning(g: &Func) -> bool
    ensures { result ≡ is_owning_some (func_of g.now).result }
{
    match &g.result {
        None => false,
        Some(ty) => ty.is_owning(),
    }
}

fn bound_target_broken(f: &Func, ids: &Ids, g: &Func, v: VarId) -> Option<u8>
    ensures { result ≡ least (z.bound_target_broken (func_of f.now) (ids_of ids.now)
        (func_of g.now) v.0) }
{
    if is_fresh_call(g) {
        binding_broken(f, ids, own_key(f, v), v)
    } else {
        target_broken(f, ids, v)
    }
}

/// What the target of a call breaks, or that there is none.
#[tactic(auto, using(cert_kinds_types::proofs::Smallest::joined))]
pub fn call_target_broken(
    f: &Func,
    ids: &Ids,
    g: &Func,
    keys: &[KeyId],
    target: Option<VarId>,
) -> Option<u8>
    ensures { result ≡ least (s.call_target_broken (func_of f.now) (ids_of ids.now)
        (func_of g.now) (keys_of keys.now) (option_map (λ v. v.0) target)) }
{
    match target {
        None => unless(!gives_owning(g) && !is_fresh_call(g), rules::DROPPED_RESULT),
        Some(v) => lesser(
            result_broken(g, keys, var_type(f, v)),
            bound_target_broken(f, ids, g, v),
        ),
    }
}

/// What the target of a call breaks whose callee isn't there.
pub fn target_alone_broken(f: &Func, ids: &Ids, target: Option<VarId>) -> Option<u8>
    ensures { result ≡ least (s.target_alone_broken (func_of f.now) (ids_of ids.now)
        (option_map (λ v. v.0) target)) }
{
    match target {
        None => None,
        Some(v) => target_broken(f, ids, v),
    }
}

/// The target is bound where the call gives a fresh object.
pub fn bind_given(f: &Func, g: &Func, ids: &mut Ids, v: VarId) -> Result<(), AllocError>
    ensures { OnOk result (ids_of ids.new ≡ s.with_call_target (func_of f.now)
        (Some (func_of g.now)) (Some v.0) (ids_of ids.old)) }
{
    if is_fresh_call(g) {
        ids.bind(f, own_key(f, v), v)
    } else {
        ids.bind_target(f, v)
    }
}
