//! Uses and bindings of variables and keys.

ghost use Rattle.std.specs.Prelude.{◌≡◌, OnOk, nat_lt, length, option_map, Some};
ghost use Rattle.vlt_core.specs.KindedHeads as heads;
ghost use Rattle.vlt_core.specs.KindedScopes as s;
ghost use Rattle.vlt_core.specs.View.{func_of, ty_of, keys_of, vars_of, tok_of};
ghost use Rattle.vlt_core.specs.Types as types;
ghost use Rattle.cert_kinds_types.specs.Least.{least};
ghost use Rattle.std.specs.List.{flat_map};
ghost use Rattle.vlt_core.specs.Lookups as lookups;
ghost use Rattle.cert_kinds_exprs.specs.Scopes as z;
ghost use Rattle.cert_kinds_exprs.specs.Scopes.{ids_of, key_in_scope};

use cert_kinds_heads::has_key;
use cert_kinds_types::{lesser, unless};
use std::alloc::AllocError;
use vlt_base::{Items, KeyId, VarId};
use vlt_core::{Func, Tok, Ty, rules};

/// What is in scope at a point, in order of binding.
#[derive(Drop)]
pub struct Ids {
    pub vars: Items<VarId>,
    pub keys: Items<KeyId>,
    pub vars_ever: Items<VarId>,
    pub keys_ever: Items<KeyId>,
    /// The tokens that the block at hand bound.
    pub bound: Items<Tok>,
}

fn has_var(vars: &[VarId], v: VarId) -> bool
    ensures { result ≡ heads.has (vars_of vars.now) v.0 }
{
    for w in vars {
        if w.0 == v.0 {
            return true;
        }
    }
    false
}

impl Ids {
    /// Whether the variable is in scope.
    #[tactic(auto, using(crate::proofs::Reversed::has_reverse))]
    pub fn has_var(&self, v: VarId) -> bool
        ensures { result ≡ heads.has (ids_of self.now).vars v.0 }
    {
        has_var(self.vars.as_slice(), v)
    }

    /// Whether the variable was ever bound.
    #[tactic(auto, using(crate::proofs::Reversed::has_reverse))]
    pub fn had_var(&self, v: VarId) -> bool
        ensures { result ≡ heads.has (ids_of self.now).vars_ever v.0 }
    {
        has_var(self.vars_ever.as_slice(), v)
    }

    /// Whether the key is in scope.
    #[tactic(auto, using(crate::proofs::Reversed::has_reverse))]
    pub fn has_key(&self, k: KeyId) -> bool
        ensures { result ≡ heads.has (ids_of self.now).keys k.0 }
    {
        has_key(self.keys.as_slice(), k.0 as usize)
    }

    /// Whether the key was ever bound.
    #[tactic(auto, using(crate::proofs::Reversed::has_reverse))]
    pub fn had_key(&self, k: KeyId) -> bool
        ensures { result ≡ heads.has (ids_of self.now).keys_ever k.0 }
    {
        has_key(self.keys_ever.as_slice(), k.0 as usize)
    }
}

fn is_var(f: &Func, v: VarId) -> bool
    ensures { result ≡ nat_lt v.0 (length (func_of f.now).vars) }
{
    (v.0 as usize) < f.vars.len()
}

fn is_key(f: &Func, k: KeyId) -> bool
    ensures { result ≡ nat_lt k.0 (length (func_of f.now).keys) }
{
    (k.0 as usize) < f.keys.len()
}

/// What a use of a variable breaks.
pub fn use_broken(f: &Func, ids: &Ids, v: VarId) -> Option<u8>
    ensures { result ≡ least (s.use_broken (func_of f.now) (ids_of ids.now) v.0) }
{
    if is_var(f, v) {
        unless(ids.has_var(v), rules::NAME_TAKEN)
    } else {
        Some(rules::UNKNOWN_NAME)
    }
}

/// What a fresh key breaks.
fn fresh_broken(f: &Func, ids: &Ids, fresh: Option<KeyId>) -> Option<u8>
    ensures { result ≡ least (s.fresh_broken (func_of f.now) (ids_of ids.now)
        (option_map (λ k. k.0) fresh)) }
{
    match fresh {
        None => None,
        Some(k) => {
            if is_key(f, k) {
                unless(!ids.had_key(k), rules::NAME_TAKEN)
            } else {
                None
            }
        }
    }
}

/// Whether the key is in scope, a fresh one that is bound with it among them.
fn has_key_with(f: &Func, ids: &Ids, fresh: Option<KeyId>, k: KeyId) -> bool
    ensures { result ≡ heads.has (s.with_key (func_of f.now) (option_map (λ k. k.0) fresh)
        (ids_of ids.now)).keys k.0 }
{
    match fresh {
        None => ids.has_key(k),
        Some(j) => {
            if is_key(f, j) {
                j.0 == k.0 || ids.has_key(k)
            } else {
                ids.has_key(k)
            }
        }
    }
}

fn key_broken(f: &Func, ids: &Ids, fresh: Option<KeyId>, k: KeyId) -> Option<u8>
    ensures { result ≡ least (key_in_scope (func_of f.now)
        (s.with_key (func_of f.now) (option_map (λ k. k.0) fresh) (ids_of ids.now)) k.0) }
{
    if is_key(f, k) {
        unless(has_key_with(f, ids, fresh, k), rules::NAME_TAKEN)
    } else {
        None
    }
}

#[tactic(auto, using(cert_kinds_types::proofs::Smallest::each_more))]
fn key_list_broken(f: &Func, ids: &Ids, fresh: Option<KeyId>, keys: &[KeyId]) -> Option<u8>
    ensures { result ≡ least (flat_map (key_in_scope (func_of f.now)
        (s.with_key (func_of f.now) (option_map (λ k. k.0) fresh) (ids_of ids.now)))
        (keys_of keys.now)) }
{
    let mut found = None;
    for k in keys {
        found = lesser(found, key_broken(f, ids, fresh, *k));
    }
    found
}

#[tactic(auto, using(cert_kinds_types::proofs::Smallest::joined))]
fn type_keys_broken(f: &Func, ids: &Ids, fresh: Option<KeyId>, ty: &Ty) -> Option<u8>
    ensures { result ≡ least (flat_map (key_in_scope (func_of f.now)
        (s.with_key (func_of f.now) (option_map (λ k. k.0) fresh) (ids_of ids.now)))
        (types.keys_of_ty (ty_of ty.now))) }
{
    match ty {
        Ty::Int | Ty::Bool => None,
        Ty::Key(k, _, args) | Ty::Guard(k, _, args) => lesser(
            key_broken(f, ids, fresh, *k),
            key_list_broken(f, ids, fresh, args.as_slice()),
        ),
        Ty::Own(_, _, args) => key_list_broken(f, ids, fresh, args.as_slice()),
        Ty::Var(_, args) | Ty::OwnVar(_, args) => {
            key_list_broken(f, ids, fresh, args.as_slice())
        }
    }
}

/// What the keys of the type that a variable is bound with break.
fn keys_broken(f: &Func, ids: &Ids, fresh: Option<KeyId>, v: VarId) -> Option<u8>
    ensures { result ≡ least (s.keys_broken (func_of f.now)
        (s.with_key (func_of f.now) (option_map (λ k. k.0) fresh) (ids_of ids.now))
        (lookups.var_type (func_of f.now) v.0)) }
{
    match f.var_type(v) {
        None => None,
        Some(ty) => type_keys_broken(f, ids, fresh, ty),
    }
}

/// What the binding of a variable, with a fresh key, breaks.
#[tactic(auto, using(cert_kinds_types::proofs::Smallest::joined))]
pub fn binding_broken(f: &Func, ids: &Ids, fresh: Option<KeyId>, v: VarId) -> Option<u8>
    ensures { result ≡ least (s.binding_broken (func_of f.now) (ids_of ids.now)
        (option_map (λ k. k.0) fresh) v.0) }
{
    if is_var(f, v) {
        lesser(
            lesser(
                unless(!ids.had_var(v), rules::NAME_TAKEN),
                fresh_broken(f, ids, fresh),
            ),
            keys_broken(f, ids, fresh, v),
        )
    } else {
        Some(rules::UNKNOWN_NAME)
    }
}

/// What a target breaks: a variable in scope, or one that is bound here.
pub fn target_broken(f: &Func, ids: &Ids, v: VarId) -> Option<u8>
    ensures { result ≡ least (s.target_broken (func_of f.now) (ids_of ids.now) v.0) }
{
    if ids.has_var(v) && is_var(f, v) {
        None
    } else {
        binding_broken(f, ids, None, v)
    }
}

/// The key of a tracked variable, which is bound together with it.
pub fn own_key(f: &Func, x: VarId) -> Option<KeyId>
    ensures { option_map (λ k. k.0) result ≡ s.own_key (func_of f.now) x.0 }
{
    match f.var_type(x) {
        Some(Ty::Key(k, _, _)) => Some(*k),
        _ => None,
    }
}

impl Ids {
    /// The fresh key, where there is one, is bound, in no block. An error is a refused allocation.
    pub fn bind_key(&mut self, f: &Func, fresh: Option<KeyId>) -> Result<(), AllocError>
        ensures { OnOk result (ids_of self.new ≡ s.with_key (func_of f.now)
            (option_map (λ k. k.0) fresh) (ids_of self.old)) }
    {
        match fresh {
            None => Ok(()),
            Some(k) => {
                if is_key(f, k) {
                    self.push_key(k)
                } else {
                    Ok(())
                }
            }
        }
    }

    #[tactic(auto, using(crate::proofs::Reversed::pushed))]
    fn push_key(&mut self, k: KeyId) -> Result<(), AllocError>
        ensures { OnOk result (ids_of self.new ≡ z.more_key k.0 (ids_of self.old)) }
    {
        self.keys.push(k)?;
        self.keys_ever.push(k)
    }

    #[tactic(auto, using(crate::proofs::Reversed::pushed))]
    fn push_var(&mut self, v: VarId) -> Result<(), AllocError>
        ensures { OnOk result (ids_of self.new ≡ z.more_var v.0 (ids_of self.old)) }
    {
        self.vars.push(v)?;
        self.vars_ever.push(v)
    }

    /// The variable is bound, in no block. An error is a refused allocation.
    pub fn bind_var(&mut self, f: &Func, v: VarId) -> Result<(), AllocError>
        ensures { OnOk result (ids_of self.new ≡ s.with_var (func_of f.now) v.0
            (ids_of self.old)) }
    {
        if is_var(f, v) {
            self.push_var(v)
        } else {
            Ok(())
        }
    }

    #[tactic(auto, using(crate::proofs::Reversed::bound_more))]
    fn push_tok(&mut self, tok: Tok) -> Result<(), AllocError>
        ensures { OnOk result (ids_of self.new ≡ z.more_bound (tok_of tok) (ids_of self.old)) }
    {
        self.bound.push(tok)
    }

    #[tactic(auto, using(crate::proofs::Reversed::bound_none))]
    fn bind_key_tok(&mut self, fresh: Option<KeyId>) -> Result<(), AllocError>
        ensures { OnOk result (ids_of self.new ≡ z.with_key_tok (option_map (λ k. k.0) fresh)
            (ids_of self.old)) }
    {
        match fresh {
            None => Ok(()),
            Some(k) => self.push_tok(Tok::Key(k)),
        }
    }

    #[tactic(auto, using(crate::proofs::Reversed::bound_none))]
    fn bind_var_tok(&mut self, f: &Func, v: VarId) -> Result<(), AllocError>
        ensures { OnOk result (ids_of self.new ≡ z.with_var_tok (func_of f.now) v.0
            (ids_of self.old)) }
    {
        if f.is_owning_var(v) {
            self.push_tok(Tok::Var(v))
        } else {
            Ok(())
        }
    }

    /// The variable and its fresh key are bound in the block at hand. An error is a refused allocation.
    pub fn bind(&mut self, f: &Func, fresh: Option<KeyId>, v: VarId) -> Result<(), AllocError>
        ensures { OnOk result (ids_of self.new ≡ s.with_binding (func_of f.now)
            (option_map (λ k. k.0) fresh) v.0 (ids_of self.old)) }
    {
        self.bind_key(f, fresh)?;
        self.bind_var(f, v)?;
        self.bind_key_tok(fresh)?;
        self.bind_var_tok(f, v)
    }

    /// A target is bound where it isn't in scope. An error is a refused allocation.
    pub fn bind_target(&mut self, f: &Func, v: VarId) -> Result<(), AllocError>
        ensures { OnOk result (ids_of self.new ≡ s.with_target (func_of f.now) v.0
            (ids_of self.old)) }
    {
        if self.has_var(v) {
            Ok(())
        } else {
            self.bind(f, None, v)
        }
    }
}
