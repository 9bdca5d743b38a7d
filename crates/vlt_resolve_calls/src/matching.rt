//! Which keys of the caller stand for those of a callee.

ghost use Rattle.std.specs.Prelude.{◌≡◌, ◌==◌, ◌++◌, ◌∷◌, ◌||◌, not, map, option_map, length, unwrap_or, IfOk, OnOk};
ghost use Rattle.std.specs.List.{list_any, list_all};
ghost use Rattle.vlt_base.specs.States.{has_state};
ghost use Rattle.vlt_syntax.specs.View as tree;
ghost use Rattle.vlt_core.specs.View.{ty_of, keys_of, key_of, entry_of};
ghost use Rattle.vlt_kinds_types.specs.Names.Refusals.{least_from};
ghost use Rattle.vlt_kinds_types.specs.Seen.{kinds_seen};
ghost use Rattle.vlt_resolve_exprs.specs.Exprs.{type_of as type_of_expr};
ghost use Rattle.vlt_resolve_exprs.specs.Seen.{scope_seen};
ghost use Rattle.vlt_core.specs.Types as types;
ghost use Rattle.vlt_resolve_calls.specs.Calls as c;
ghost use Rattle.vlt_resolve_calls.specs.Seen.{pair_of, pairs_of};

use std::alloc::{AllocError, Global};
use vlt_base::{Items, KeyId, StateSet, TypeId};
use vlt_core::rules::{CLAUSE_KEYS_MEET, TWO_CALLER_KEYS};
use vlt_core::{Entry, KeyDecl, Ty};
use vlt_kinds_types::{Kinds, LeastRefusal};
use vlt_resolve_exprs::{Scope, lies_within, type_of};
use vlt_syntax::Expr;

/// A key of the callee with the caller's key that stands for it.
pub type Pair = (KeyId, KeyId);

fn same_kind(t: TypeId, a: &[KeyId], u: TypeId, b: &[KeyId]) -> bool
    ensures { result ≡ c.same_kind t.0 (keys_of a.now) u.0 (keys_of b.now) }
{
    t.0 == u.0 && a.len() == b.len()
}

/// Whether two types are the same but for their keys.
#[tactic(auto, unfolding(crate::specs::Calls::same_shape))]
pub fn same_shape(a: &Ty, b: &Ty) -> bool
    ensures { result ≡ c.same_shape (ty_of a.now) (ty_of b.now) }
{
    match (a, b) {
        (Ty::Int, Ty::Int) => true,
        (Ty::Bool, Ty::Bool) => true,
        (Ty::Key(_, t, a), Ty::Key(_, u, b)) => same_kind(*t, a.as_slice(), *u, b.as_slice()),
        (Ty::Own(r, t, a), Ty::Own(s, u, b)) => {
            lies_within(*r, *s)
                && lies_within(*s, *r)
                && same_kind(*t, a.as_slice(), *u, b.as_slice())
        }
        (Ty::Guard(_, t, a), Ty::Guard(_, u, b)) => same_kind(*t, a.as_slice(), *u, b.as_slice()),
        (Ty::Var(t, a), Ty::Var(u, b)) => same_kind(*t, a.as_slice(), *u, b.as_slice()),
        (Ty::OwnVar(t, a), Ty::OwnVar(u, b)) => same_kind(*t, a.as_slice(), *u, b.as_slice()),
        _ => false,
    }
}

#[tactic(auto, unfolding(crate::specs::Calls::takes_kind))]
fn takes_kind(states: StateSet, t: TypeId, args: &[KeyId], got: &Ty) -> bool
    ensures { result ≡ c.takes_kind (has_state states) t.0 (keys_of args.now) (ty_of got.now) }
{
    match got {
        Ty::Own(r, u, b) => lies_within(*r, states) && same_kind(t, args, *u, b.as_slice()),
        Ty::Key(_, u, b) => same_kind(t, args, *u, b.as_slice()),
        _ => false,
    }
}

/// Whether a parameter takes an argument of this type, keys aside.
#[tactic(auto, unfolding(crate::specs::Calls::takes_shape))]
pub fn takes_shape(wanted: &Ty, got: &Ty) -> bool
    ensures { result ≡ c.takes_shape (ty_of wanted.now) (ty_of got.now) }
{
    match wanted {
        Ty::Own(states, t, args) => takes_kind(*states, *t, args.as_slice(), got),
        _ => same_shape(wanted, got),
    }
}

fn add_each(callee: &[KeyId], caller: &[KeyId], pairs: &mut Items<Pair>) -> Result<(), AllocError>
    requires { length callee.now ≡ length caller.now }
    ensures { OnOk result (pairs_of pairs.new
        ≡ pairs_of pairs.old ++ c.paired_each (keys_of callee.now) (keys_of caller.now)) }
{
    for (i, key) in callee.iter().enumerate() {
        pairs.push((*key, caller[i]))?;
    }
    Ok(())
}

/// Pairs keys one by one, where there are as many.
pub fn add_paired(
    callee: &[KeyId],
    caller: &[KeyId],
    pairs: &mut Items<Pair>,
) -> Result<(), AllocError>
    ensures { OnOk result (pairs_of pairs.new
        ≡ pairs_of pairs.old ++ c.key_pairs (keys_of callee.now) (keys_of caller.now)) }
{
    if callee.len() == caller.len() {
        add_each(callee, caller, pairs)?;
    }
    Ok(())
}

fn args_of(ty: &Ty) -> &[KeyId]
    ensures { keys_of result.now ≡ types.args_of (ty_of ty.now) }
{
    match ty {
        Ty::Int | Ty::Bool => &[],
        Ty::Key(_, _, args) | Ty::Guard(_, _, args) | Ty::Own(_, _, args) => args.as_slice(),
        Ty::Var(_, args) | Ty::OwnVar(_, args) => args.as_slice(),
    }
}

fn key_and_args(alloc: Global, key: KeyId, args: &[KeyId]) -> Result<Items<KeyId>, AllocError>
    ensures { IfOk result (λ ks. keys_of ks ≡ key.0 ∷ keys_of args.now) }
{
    let mut keys = Items::new(alloc);
    keys.push(key)?;
    keys.append(Items::from_slice(alloc, args)?)?;
    Ok(keys)
}

/// The keys in a type, its own before the others.
pub fn keys_of_ty(alloc: Global, ty: &Ty) -> Result<Items<KeyId>, AllocError>
    ensures { IfOk result (λ ks. keys_of ks ≡ types.keys_of_ty (ty_of ty.now)) }
{
    match ty {
        Ty::Key(key, _, args) => key_and_args(alloc, *key, args.as_slice()),
        Ty::Guard(key, _, args) => key_and_args(alloc, *key, args.as_slice()),
        _ => Items::from_slice(alloc, args_of(ty)),
    }
}

/// The keys of an argument that meet those of the parameter.
fn keys_handed(alloc: Global, wanted: &Ty, got: &Ty) -> Result<Items<KeyId>, AllocError>
    ensures { IfOk result (λ ks. keys_of ks ≡ c.keys_handed (ty_of wanted.now) (ty_of got.now)) }
{
    match wanted {
        Ty::Own(..) => Items::from_slice(alloc, args_of(got)),
        _ => keys_of_ty(alloc, got),
    }
}

#[tactic(auto, unfolding(crate::specs::Calls::fitting_pairs))]
fn add_fitting(
    alloc: Global,
    wanted: &Ty,
    got: &Ty,
    pairs: &mut Items<Pair>,
) -> Result<(), AllocError>
    ensures { OnOk result (pairs_of pairs.new
        ≡ pairs_of pairs.old ++ c.fitting_pairs (ty_of wanted.now) (ty_of got.now)) }
{
    if takes_shape(wanted, got) {
        let callee = keys_of_ty(alloc, wanted)?;
        let caller = keys_handed(alloc, wanted, got)?;
        add_paired(callee.as_slice(), caller.as_slice(), pairs)?;
    }
    Ok(())
}

#[tactic(auto, unfolding(crate::specs::Calls::argument_pairs))]
fn add_given(
    alloc: Global,
    wanted: &Ty,
    given: &Option<Ty>,
    pairs: &mut Items<Pair>,
) -> Result<(), AllocError>
    ensures { OnOk result (pairs_of pairs.new
        ≡ pairs_of pairs.old ++ c.argument_pairs (ty_of wanted.now) (option_map ty_of given.now)) }
{
    match given {
        Some(ty) => add_fitting(alloc, wanted, ty, pairs),
        None => Ok(()),
    }
}

fn add_argument(
    alloc: Global,
    kinds: &Kinds<'_>,
    scope: &Scope<'_>,
    wanted: &Ty,
    arg: &Expr,
    pairs: &mut Items<Pair>,
) -> Result<(), AllocError>
    ensures { OnOk result (pairs_of pairs.new
        ≡ pairs_of pairs.old ++ c.argument_pairs (ty_of wanted.now)
        (type_of_expr (kinds_seen kinds.now) (scope_seen scope.now) (tree.expr_of arg.now))) }
{
    let given = type_of(alloc, kinds, scope, arg)?;
    add_given(alloc, wanted, &given, pairs)
}

/// What the arguments and the parameters of a callee pair.
pub fn call_pairs(
    alloc: Global,
    kinds: &Kinds<'_>,
    scope: &Scope<'_>,
    args: &[Expr],
    params: &[Ty],
) -> Result<Items<Pair>, AllocError>
    ensures { IfOk result (λ pairs. pairs_of pairs
        ≡ c.call_pairs (kinds_seen kinds.now) (scope_seen scope.now) (map tree.expr_of args.now)
        (map ty_of params.now)) }
{
    let mut pairs = Items::new(alloc);
    for (i, arg) in args.iter().enumerate() {
        match params.get(i) {
            Some(wanted) => add_argument(alloc, kinds, scope, wanted, arg, &mut pairs)?,
            None => return Ok(pairs),
        }
    }
    Ok(pairs)
}

/// The caller's key that stands for a key of the callee: the first that met it.
pub fn caller_key(pairs: &[Pair], key: KeyId) -> Option<KeyId>
    ensures { option_map (λ k. k.0) result ≡ c.caller_key (pairs_of pairs.now) key.0 }
{
    for (callee, caller) in pairs {
        if key.0 == callee.0 {
            return Some(*caller);
        }
    }
    None
}

fn is_pair(pairs: &[Pair], pair: Pair) -> bool
    ensures { result ≡ c.is_pair (pairs_of pairs.now) (pair_of pair) }
{
    match caller_key(pairs, pair.0) {
        Some(key) => key.0 == pair.1.0,
        None => true,
    }
}

/// Whether no key of the callee would stand for two names.
#[tactic(auto, unfolding(crate::specs::Calls::is_clear))]
fn is_clear(pairs: &[Pair]) -> bool
    ensures { result ≡ c.is_clear (pairs_of pairs.now) }
{
    for pair in pairs {
        if !is_pair(pairs, *pair) {
            return false;
        }
    }
    true
}

fn is_one_of(key: u32, keys: &[u32]) -> bool
    ensures { result ≡ list_any (λ l. key == l) keys.now }
{
    for other in keys {
        if key == *other {
            return true;
        }
    }
    false
}

fn are_apart(keys: &[u32]) -> bool
    ensures { result ≡ c.are_apart keys.now }
{
    for (i, key) in keys.iter().enumerate() {
        if is_one_of(*key, &keys[i + 1..]) {
            return false;
        }
    }
    true
}

fn clause_keys(alloc: Global, pairs: &[Pair], clause: &[Entry]) -> Result<Items<u32>, AllocError>
    ensures { IfOk result (λ ks. ks ≡ c.clause_keys (pairs_of pairs.now)
        (map entry_of clause.now)) }
{
    let mut keys = Items::new(alloc);
    for entry in clause {
        if let Some(key) = caller_key(pairs, entry.key) {
            keys.push(key.0)?;
        }
    }
    Ok(keys)
}

/// What is refused at the callee's name, of the keys that stand for its own.
#[tactic(auto, using(vlt_kinds_types::proofs::OfNames::Least::least_of_both), unfolding(crate::specs::Calls::matching_refused))]
pub fn check_matching(
    alloc: Global,
    pairs: &[Pair],
    clause: &[Entry],
    at: u32,
    found: &mut LeastRefusal,
) -> Result<(), AllocError>
    ensures { OnOk result (found.new.least ≡ least_from found.old.least
        (c.matching_refused (pairs_of pairs.now) (map entry_of clause.now) at)) }
{
    found.add_if(!is_clear(pairs), TWO_CALLER_KEYS, at);
    let keys = clause_keys(alloc, pairs, clause)?;
    found.add_if(!are_apart(keys.as_slice()), CLAUSE_KEYS_MEET, at);
    Ok(())
}

/// Whether the callee's key met one key of the caller at most.
fn is_sole(pairs: &[Pair], key: KeyId) -> bool
    ensures { result ≡ list_all (λ q. not (key.0 == q.0) || c.is_pair (pairs_of pairs.now) q)
        (pairs_of pairs.now) }
{
    for pair in pairs {
        if key.0 == pair.0.0 && !is_pair(pairs, *pair) {
            return false;
        }
    }
    true
}

fn key_fits(pairs: &[Pair], pair: Pair) -> bool
    ensures { result ≡ c.key_fits (pairs_of pairs.now) (pair_of pair) }
{
    is_pair(pairs, pair) || !is_sole(pairs, pair.0)
}

/// Whether keys of a result fit those of its target.
pub fn keys_fit(pairs: &[Pair], keys: &[Pair]) -> bool
    ensures { result ≡ c.keys_fit (pairs_of pairs.now) (pairs_of keys.now) }
{
    for pair in keys {
        if !key_fits(pairs, *pair) {
            return false;
        }
    }
    true
}

fn given_key(pairs: &[Pair], fresh: KeyId, key: KeyId) -> KeyId
    ensures { result.0 ≡ unwrap_or (c.caller_key (pairs_of pairs.now) key.0) fresh.0 }
{
    match caller_key(pairs, key) {
        Some(caller) => caller,
        None => fresh,
    }
}

/// The caller's keys, one for each of these keys of the callee's head.
pub fn keys_given(
    alloc: Global,
    pairs: &[Pair],
    fresh: KeyId,
    keys: &[KeyDecl],
) -> Result<Items<KeyId>, AllocError>
    ensures { IfOk result (λ ks. keys_of ks ≡ c.keys_given (pairs_of pairs.now) fresh.0 0
        (map key_of keys.now)) }
{
    let mut made = Items::new(alloc);
    for (i, _key) in keys.iter().enumerate() {
        let Ok(number) = u32::try_from(i) else {
            return Err(AllocError);
        };
        made.push(given_key(pairs, fresh, KeyId(number)))?;
    }
    Ok(made)
}
