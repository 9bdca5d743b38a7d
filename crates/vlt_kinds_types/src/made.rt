//! What a type becomes.

ghost use Rattle.std.specs.Prelude.{◌≡◌, ℕ, List, option_map, IfOk};
ghost use Rattle.vlt_syntax.specs.View as view;
ghost use Rattle.vlt_core.specs.View as core_view;
ghost use Rattle.vlt_kinds_types.specs.Types as t;
ghost use Rattle.vlt_kinds_types.specs.Seen.{file_seen};

use crate::file::File;
use crate::shapes::Sort;
use crate::{listed, types};
use std::alloc::{AllocError, Global};
use vlt_base::{Items, KeyId, TypeId};
use vlt_core::Ty;
use vlt_syntax::{Name, Named, States};

/// What knows the numbers of the keys that are in scope.
pub trait KeyNumbers {
    ghost numbers: { Self → List ℕ → ℕ };

    /// The key's number; any number of a key that isn't in scope.
    fn number(&self, key: &[u8]) -> u32
        ensures { result ≡ numbers self.now key.now };
}

fn key_numbers<K: KeyNumbers>(
    alloc: Global,
    numbers: &K,
    keys: &[Name],
) -> Result<Items<KeyId>, AllocError>
    ensures { IfOk result (λ ids. core_view.keys_of ids
        ≡ t.key_numbers (K.numbers numbers.now) (view.names_of keys.now)) }
{
    let mut ids = Items::new(alloc);
    for key in keys {
        ids.push(KeyId(numbers.number(key.text.as_slice())))?;
    }
    Ok(ids)
}

impl File<'_> {
    fn type_number(&self, name: &Name) -> TypeId
        ensures { result.0 ≡ t.type_number (file_seen self.now) (view.name_of name.now) }
    {
        TypeId(self.type_named(name).unwrap_or(0))
    }

    #[tactic(auto, unfolding(crate::specs::Types::owned_ty))]
    fn owned_type<K: KeyNumbers>(
        &self,
        alloc: Global,
        numbers: &K,
        states: &Option<States>,
        named: &Named,
    ) -> Result<Ty, AllocError>
        ensures { IfOk result (λ ty. core_view.ty_of ty
            ≡ t.owned_ty (file_seen self.now) (K.numbers numbers.now)
            (option_map view.states_of states.now) (view.named_of named.now)) }
    {
        let number = self.type_number(&named.name);
        let keys = key_numbers(alloc, numbers, named.keys.as_slice())?;
        let shape = self.shape_named(&named.name);
        if is_variant_in(types::sort_in(shape)) {
            return Ok(Ty::OwnVar(number, keys));
        }
        let known = self.state_names(shape);
        let set = listed::states_listed(alloc, &known, states)?;
        Ok(Ty::Own(set, number, keys))
    }

    /// The core type of a type that isn't refused.
    pub fn core_type<K: KeyNumbers>(
        &self,
        alloc: Global,
        numbers: &K,
        ty: &vlt_syntax::Ty,
    ) -> Result<Ty, AllocError>
        ensures { IfOk result (λ core. core_view.ty_of core
            ≡ t.core_ty (file_seen self.now) (K.numbers numbers.now) (view.ty_of ty.now)) }
    {
        match ty {
            vlt_syntax::Ty::Int(_) => Ok(Ty::Int),
            vlt_syntax::Ty::Bool(_) => Ok(Ty::Bool),
            vlt_syntax::Ty::Owning { states, named, .. } => self.owned_type(
                alloc, numbers, states, named,
            ),
            vlt_syntax::Ty::Tracked { key, named, .. } => {
                let keys = key_numbers(alloc, numbers, named.keys.as_slice())?;
                let key = KeyId(numbers.number(key.text.as_slice()));
                Ok(Ty::Key(key, self.type_number(&named.name), keys))
            }
            vlt_syntax::Ty::Guarded { key, named } => {
                let keys = key_numbers(alloc, numbers, named.keys.as_slice())?;
                let key = KeyId(numbers.number(key.text.as_slice()));
                Ok(Ty::Guard(key, self.type_number(&named.name), keys))
            }
            vlt_syntax::Ty::Plain(named) => {
                let keys = key_numbers(alloc, numbers, named.keys.as_slice())?;
                Ok(Ty::Var(self.type_number(&named.name), keys))
            }
        }
    }
}

fn is_variant_in(sort: Option<Sort>) -> bool
    ensures { result ≡ t.is_variant_in sort }
{
    match sort {
        None => false,
        Some(sort) => sort.is_variant(),
    }
}
