//! What is refused in a type where it stands.

ghost use Rattle.std.specs.Prelude.{◌≡◌, Some, option_map, OnOk};
ghost use Rattle.vlt_syntax.specs.Tree as s;
ghost use Rattle.vlt_syntax.specs.View as view;
ghost use Rattle.vlt_kinds_types.specs.Names.Refusals.{least_from};
ghost use Rattle.vlt_kinds_types.specs.Types as t;
ghost use Rattle.vlt_kinds_types.specs.Files as f;
ghost use Rattle.vlt_kinds_types.specs.Seen.{file_seen};

use crate::file::File;
use crate::listed;
use crate::names::{LeastRefusal, rules};
use crate::shapes::{Shape, Sort};
use std::alloc::{AllocError, Global};
use vlt_syntax::{Name, Named, States, Ty};

impl Sort {
    /// Whether it is that of a variant.
    pub fn is_variant(self) -> bool
        ensures { result ≡ t.is_variant self }
    {
        !matches!(self, Sort::Abstract | Sort::Struct)
    }
}

/// The sort that a name stands for, where it is known.
pub fn sort_in(shape: Option<&Shape>) -> Option<Sort>
    ensures { result ≡ t.sort_in (option_map (λ s. s.now) shape.entry) }
{
    match shape {
        None => None,
        Some(shape) => Some(shape.sort),
    }
}

fn has_wrong_prefix(ty: &Ty, sort: Option<Sort>) -> bool
    ensures { result ≡ t.has_wrong_prefix (view.ty_of ty.now) sort }
{
    match (ty, sort) {
        (Ty::Tracked { .. }, Some(sort)) => sort.is_variant(),
        (
            Ty::Owning {
                states: Some(_),
                ..
            },
            Some(sort),
        ) => sort.is_variant(),
        (Ty::Guarded { .. }, Some(sort)) => sort != Sort::Struct,
        _ => false,
    }
}

fn has_wrong_ownership(ty: &Ty, sort: Option<Sort>) -> bool
    ensures { result ≡ t.has_wrong_ownership (view.ty_of ty.now) sort }
{
    match (ty, sort) {
        (Ty::Owning { states: None, .. }, Some(Sort::CopiedVariant)) => true,
        (Ty::Plain(_), Some(Sort::OwningVariant)) => true,
        (Ty::Plain(_), Some(Sort::KeyedVariant)) => true,
        _ => false,
    }
}

fn is_bare_object(ty: &Ty, sort: Option<Sort>) -> bool
    ensures { result ≡ t.is_bare_object (view.ty_of ty.now) sort }
{
    match (ty, sort) {
        (Ty::Plain(_), Some(Sort::Abstract)) => true,
        (Ty::Plain(_), Some(Sort::Struct)) => true,
        _ => false,
    }
}

/// The place of a type's first byte.
pub fn ty_place(ty: &Ty) -> u32
    ensures { result ≡ t.ty_place (view.ty_of ty.now) }
{
    match ty {
        Ty::Int(at) | Ty::Bool(at) => at.from,
        Ty::Tracked { at, .. } | Ty::Owning { at, .. } => at.from,
        Ty::Guarded { key, .. } => key.at.from,
        Ty::Plain(named) => named.name.at.from,
    }
}

#[tactic(auto, using(crate::proofs::OfNames::Least::least_of_both), unfolding(crate::specs::Types::form_refused))]
fn check_form(ty: &Ty, sort: Option<Sort>, at: u32, found: &mut LeastRefusal)
    ensures { found.new.least ≡ least_from found.old.least
        (t.form_refused (view.ty_of ty.now) sort at) }
{
    found.add_if(has_wrong_prefix(ty, sort), rules::WRONG_PREFIX, at);
    found.add_if(has_wrong_ownership(ty, sort), rules::WRONG_OWNERSHIP, at);
    found.add_if(is_bare_object(ty, sort), rules::BARE_OBJECT, at);
}

#[tactic(auto, unfolding(crate::specs::Types::name_refused))]
fn check_name(shape: Option<&Shape>, named: &Named, found: &mut LeastRefusal)
    ensures { found.new.least ≡ least_from found.old.least
        (t.name_refused (option_map (λ s. s.now) shape.entry) (view.named_of named.now)) }
{
    let at = named.name.at.from;
    match shape {
        None => found.add(rules::NOT_A_TYPE, at),
        Some(shape) => {
            let fits = shape.header.len() == named.keys.len();
            found.add_if(!fits, rules::KEY_COUNT, at);
        }
    }
}

fn has_states(sort: Option<Sort>) -> bool
    ensures { result ≡ t.has_states sort }
{
    matches!(sort, Some(Sort::Abstract) | Some(Sort::Struct))
}

#[tactic(auto, using(crate::proofs::OfNames::Least::least_of_both), unfolding(crate::specs::Types::named_refused))]
fn check_named(shape: Option<&Shape>, ty: &Ty, named: &Named, found: &mut LeastRefusal)
    ensures { found.new.least ≡ least_from found.old.least
        (t.named_refused (option_map (λ s. s.now) shape.entry) (view.ty_of ty.now)
        (view.named_of named.now)) }
{
    check_form(ty, sort_in(shape), ty_place(ty), found);
    check_name(shape, named, found);
}

impl File<'_> {
    /// The shape that the name in a type stands for.
    #[tactic(auto, unfolding(crate::specs::Types::shape_in))]
    pub fn shape_in(&self, ty: &Ty) -> Option<&Shape>
        ensures { option_map (λ s. s.now) result
            ≡ t.shape_in (file_seen self.now) (view.ty_of ty.now) }
    {
        match ty {
            Ty::Int(_) | Ty::Bool(_) => None,
            Ty::Tracked { named, .. } => self.shape_named(&named.name),
            Ty::Owning { named, .. } => self.shape_named(&named.name),
            Ty::Guarded { named, .. } => self.shape_named(&named.name),
            Ty::Plain(named) => self.shape_named(&named.name),
        }
    }

    /// Refuses what is wrong in states of an object of this shape.
    #[tactic(auto, unfolding(crate::specs::Types::owned_states_refused))]
    pub fn check_owned_states(
        &self,
        alloc: Global,
        shape: Option<&Shape>,
        states: &Option<States>,
        found: &mut LeastRefusal,
    ) -> Result<(), AllocError>
        ensures { OnOk result (found.new.least
            ≡ least_from found.old.least (t.owned_states_refused (file_seen self.now)
            (option_map (λ s. s.now) shape.entry) (option_map view.states_of states.now))) }
    {
        if has_states(sort_in(shape)) {
            let known = self.state_names(shape);
            listed::check_states(alloc, &known, states, found)?;
        }
        Ok(())
    }

    /// The same of states that are there.
    #[tactic(auto, unfolding(crate::specs::Types::owned_states_refused))]
    pub fn check_object_states(
        &self,
        alloc: Global,
        shape: Option<&Shape>,
        states: &States,
        found: &mut LeastRefusal,
    ) -> Result<(), AllocError>
        ensures { OnOk result (found.new.least
            ≡ least_from found.old.least (t.owned_states_refused (file_seen self.now)
            (option_map (λ s. s.now) shape.entry) (Some (view.states_of states.now)))) }
    {
        if has_states(sort_in(shape)) {
            let known = self.state_names(shape);
            listed::check_some_states(alloc, &known, states, found)?;
        }
        Ok(())
    }

    /// The same of one state.
    #[tactic(auto, unfolding(crate::specs::Types::owned_states_refused))]
    pub fn check_object_state(
        &self,
        alloc: Global,
        shape: Option<&Shape>,
        state: &Name,
        found: &mut LeastRefusal,
    ) -> Result<(), AllocError>
        ensures { OnOk result (found.new.least
            ≡ least_from found.old.least (t.owned_states_refused (file_seen self.now)
            (option_map (λ s. s.now) shape.entry) (Some (s.one (view.name_of state.now))))) }
    {
        if has_states(sort_in(shape)) {
            let known = self.state_names(shape);
            listed::check_state(alloc, &known, state, found)?;
        }
        Ok(())
    }

    #[tactic(auto, using(crate::proofs::OfNames::Least::least_of_both), unfolding(crate::specs::Types::owned_refused))]
    fn check_owned(
        &self,
        alloc: Global,
        ty: &Ty,
        states: &Option<States>,
        named: &Named,
        found: &mut LeastRefusal,
    ) -> Result<(), AllocError>
        ensures { OnOk result (found.new.least
            ≡ least_from found.old.least (t.owned_refused (file_seen self.now)
            (f.shape_named (file_seen self.now) (view.named_of named.now).name)
            (view.ty_of ty.now) (option_map view.states_of states.now)
            (view.named_of named.now))) }
    {
        let shape = self.shape_named(&named.name);
        check_named(shape, ty, named, found);
        self.check_owned_states(alloc, shape, states, found)?;
        Ok(())
    }

    /// Refuses what is wrong in a type wherever it stands, its keys aside.
    pub fn check_type(
        &self,
        alloc: Global,
        ty: &Ty,
        found: &mut LeastRefusal,
    ) -> Result<(), AllocError>
        ensures { OnOk result (found.new.least ≡ least_from found.old.least
            (t.ty_refused (file_seen self.now) (view.ty_of ty.now))) }
    {
        match ty {
            Ty::Int(_) | Ty::Bool(_) => Ok(()),
            Ty::Owning { states, named, .. } => self.check_owned(alloc, ty, states, named, found),
            Ty::Tracked { named, .. } => {
                check_named(self.shape_named(&named.name), ty, named, found);
                Ok(())
            }
            Ty::Guarded { named, .. } => {
                check_named(self.shape_named(&named.name), ty, named, found);
                Ok(())
            }
            Ty::Plain(named) => {
                check_named(self.shape_named(&named.name), ty, named, found);
                Ok(())
            }
        }
    }
}
