//! What is known where a statement stands.

ghost use Rattle.std.specs.Prelude.{◌≡◌, [], ◌∷◌, ◌++◌, map, option_map, length, slice_get, IfOk, OnOk};
ghost use Rattle.vlt_core.specs.View.{tok_of, ty_of};
ghost use Rattle.vlt_kinds_types.specs.Seen.{kinds_seen};
ghost use Rattle.vlt_resolve_exprs.specs.Exprs.{number_of};
ghost use Rattle.vlt_resolve_exprs.specs.Scopes as s;
ghost use Rattle.vlt_resolve_exprs.specs.Seen.{scope_seen, left_with};
ghost use Rattle.vlt_resolve_exprs.specs.Types.{then_with};

use crate::types::is_owning;
use indexmap::IndexMap;
use std::alloc::{AllocError, Global};
use std::mem;
use vlt_base::{Items, KeyId, TypeId, VarId};
use vlt_core::{KeyDecl, Tok, Ty, VarDecl};
use vlt_kinds_types::{KeyNumbers, Kinds};

/// The names in scope, all keys and variables of the function so far, and those that the innermost block binds.
#[derive(Drop)]
pub struct Scope<'a> {
    pub names: IndexMap<&'a [u8], Tok>,
    pub keys: Items<KeyDecl>,
    pub vars: Items<VarDecl>,
    pub block_keys: Items<KeyId>,
    pub block_vars: Items<VarId>,
}

impl Scope<'_> {
    fn tok_named(&self, name: &[u8]) -> Option<Tok>
        ensures { option_map tok_of result ≡ s.tok_named (scope_seen self.now) name.now }
    {
        self.names.get(&name).copied()
    }

    #[tactic(auto, unfolding(crate::specs::Scopes::var_named))]
    pub fn var_named(&self, name: &[u8]) -> Option<VarId>
        ensures { option_map (λ v. v.0) result ≡ s.var_named (scope_seen self.now) name.now }
    {
        match self.tok_named(name) {
            Some(Tok::Var(v)) => Some(v),
            _ => None,
        }
    }

    #[tactic(auto, unfolding(crate::specs::Scopes::key_named))]
    pub fn key_named(&self, name: &[u8]) -> Option<KeyId>
        ensures { option_map (λ k. k.0) result ≡ s.key_named (scope_seen self.now) name.now }
    {
        match self.tok_named(name) {
            Some(Tok::Key(k)) => Some(k),
            _ => None,
        }
    }

    /// The type of a variable that was looked up.
    pub fn ty_at(&self, v: Option<VarId>) -> Option<&Ty>
        ensures { option_map (λ t. ty_of t.now) result
            ≡ then_with (option_map (λ v. v.0) v)
            (λ n. s.ty_in (slice_get (scope_seen self.now).vars n)) }
    {
        let v = v?;
        let decl = self.vars.get(v.0 as usize)?;
        Some(&decl.ty)
    }

    /// The type of the variable of this name.
    #[tactic(auto, unfolding(crate::specs::Scopes::var_ty))]
    pub fn var_ty(&self, name: &[u8]) -> Option<&Ty>
        ensures { option_map (λ t. ty_of t.now) result
            ≡ s.var_ty (scope_seen self.now) name.now }
    {
        self.ty_at(self.var_named(name))
    }

    /// The type of a key's object, where it has one.
    #[tactic(auto, unfolding(crate::specs::Scopes::key_type))]
    pub fn key_type(&self, key: KeyId) -> Option<TypeId>
        ensures { option_map (λ t. t.0) result ≡ s.key_type (scope_seen self.now) key.0 }
    {
        match self.keys.get(key.0 as usize) {
            Some(decl) => decl.key_type,
            None => None,
        }
    }

    #[tactic(auto, unfolding(crate::specs::Scopes::is_taken))]
    pub fn is_taken(&self, kinds: &Kinds<'_>, name: &[u8]) -> bool
        ensures { result ≡ s.is_taken (kinds_seen kinds.now) (scope_seen self.now) name.now }
    {
        self.tok_named(name).is_some() || kinds.file.globals.has(name)
    }
}

impl KeyNumbers for Scope<'_> {
    ghost numbers = { λ scope n. number_of (s.key_named (scope_seen scope) n) };

    fn number(&self, key: &[u8]) -> u32 {
        match self.key_named(key) {
            Some(k) => k.0,
            None => 0,
        }
    }
}

impl<'a> Scope<'a> {
    /// The name stands for the token from here on.
    pub fn name_tok(&mut self, name: &'a [u8], tok: Tok) -> Result<(), AllocError>
        ensures { OnOk result (scope_seen self.new
            ≡ s.with_name (scope_seen self.old) name.now (tok_of tok)) }
    {
        self.names.insert(name, tok)?;
        Ok(())
    }

    fn push_key(
        &mut self,
        alloc: Global,
        name: &[u8],
        key_type: Option<TypeId>,
    ) -> Result<KeyId, AllocError>
        ensures number { IfOk result (λ k. k.0 ≡ length self.old.keys) }
        ensures scope { OnOk result (self.new ≡ record self.old {
          keys = self.old.keys ++ record { name = name.now; key_type = key_type } ∷ [];
        }) }
    {
        let Ok(number) = u32::try_from(self.keys.len()) else {
            return Err(AllocError);
        };
        self.keys.push(KeyDecl {
            name: Items::from_slice(alloc, name)?,
            key_type,
        })?;
        Ok(KeyId(number))
    }

    /// A new key that no name stands for: a hidden one where the name is empty.
    pub fn add_hidden_key(
        &mut self,
        alloc: Global,
        name: &[u8],
        key_type: Option<TypeId>,
    ) -> Result<KeyId, AllocError>
        ensures number { IfOk result (λ k. k.0 ≡ length self.old.keys) }
        ensures scope { OnOk result (scope_seen self.new
            ≡ s.more_key (scope_seen self.old) name.now (option_map (λ t. t.0) key_type)) }
    {
        let key = self.push_key(alloc, name, key_type)?;
        self.block_keys.push(key)?;
        Ok(key)
    }

    /// A new variable that no name stands for: a hidden one where the name is empty.
    pub fn add_hidden_var(
        &mut self,
        alloc: Global,
        name: &[u8],
        ty: Ty,
    ) -> Result<VarId, AllocError>
        ensures number { IfOk result (λ v. v.0 ≡ length self.old.vars) }
        ensures scope { OnOk result (scope_seen self.new
            ≡ s.more_var (scope_seen self.old) name.now (ty_of ty)) }
    {
        let Ok(number) = u32::try_from(self.vars.len()) else {
            return Err(AllocError);
        };
        let v = VarId(number);
        if is_owning(&ty) {
            self.block_vars.push(v)?;
        }
        self.vars.push(VarDecl {
            name: Items::from_slice(alloc, name)?,
            ty,
        })?;
        Ok(v)
    }

    /// A new key, in scope from here on.
    pub fn add_key(
        &mut self,
        alloc: Global,
        name: &'a [u8],
        key_type: Option<TypeId>,
    ) -> Result<KeyId, AllocError>
        ensures number { IfOk result (λ k. k.0 ≡ length self.old.keys) }
        ensures scope { OnOk result (scope_seen self.new
            ≡ s.with_key (scope_seen self.old) name.now (option_map (λ t. t.0) key_type)) }
    {
        let key = self.add_hidden_key(alloc, name, key_type)?;
        self.name_tok(name, Tok::Key(key))?;
        Ok(key)
    }

    /// A new variable, in scope from here on.
    pub fn add_var(&mut self, alloc: Global, name: &'a [u8], ty: Ty) -> Result<VarId, AllocError>
        ensures number { IfOk result (λ v. v.0 ≡ length self.old.vars) }
        ensures scope { OnOk result (scope_seen self.new
            ≡ s.with_var (scope_seen self.old) name.now (ty_of ty)) }
    {
        let v = self.add_hidden_var(alloc, name, ty)?;
        self.name_tok(name, Tok::Var(v))?;
        Ok(v)
    }

    /// The key of a focus, which no block binds.
    pub fn add_focus_key(
        &mut self,
        alloc: Global,
        name: &'a [u8],
        key_type: Option<TypeId>,
    ) -> Result<KeyId, AllocError>
        ensures number { IfOk result (λ k. k.0 ≡ length self.old.keys) }
        ensures scope { OnOk result (scope_seen self.new
            ≡ s.with_focus_key (scope_seen self.old) name.now (option_map (λ t. t.0) key_type)) }
    {
        let key = self.push_key(alloc, name, key_type)?;
        self.name_tok(name, Tok::Key(key))?;
        Ok(key)
    }
}

/// What a block covers of a scope.
#[derive(Drop)]
pub struct Outer {
    names: usize,
    block_keys: Items<KeyId>,
    block_vars: Items<VarId>,
}

impl<'a> Scope<'a> {
    /// Enters a block.
    pub fn enter(&mut self, alloc: Global) -> Outer
        ensures scope { scope_seen self.new ≡ s.scope_inside (scope_seen self.old) }
        ensures outer { result ≡ record {
          names = length self.old.names.entries;
          block_keys = self.old.block_keys;
          block_vars = self.old.block_vars;
        } }
    {
        Outer {
            names: self.names.len(),
            block_keys: mem::replace(&mut self.block_keys, Items::new(alloc)),
            block_vars: mem::replace(&mut self.block_vars, Items::new(alloc)),
        }
    }

    /// Leaves a block.
    pub fn leave(&mut self, outer: Outer)
        ensures { scope_seen self.new ≡ left_with outer (scope_seen self.old) }
    {
        self.names.truncate(outer.names);
        self.block_keys = outer.block_keys;
        self.block_vars = outer.block_vars;
    }

    /// The tokens that the block binds, keys first.
    pub fn bound(&self, alloc: Global) -> Result<Items<Tok>, AllocError>
        ensures { IfOk result (λ ts. map tok_of ts ≡ s.bound_in (scope_seen self.now)) }
    {
        let mut toks = Items::new(alloc);
        for key in self.block_keys.as_slice() {
            toks.push(Tok::Key(*key))?;
        }
        for var in self.block_vars.as_slice() {
            toks.push(Tok::Var(*var))?;
        }
        Ok(toks)
    }
}
