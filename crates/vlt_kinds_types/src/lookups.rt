//! What the table of kinds knows.

ghost use Rattle.std.specs.Prelude.{◌≡◌, [], option_map, is_some, true, slice_get};
ghost use Rattle.vlt_base.specs.States.{has_state};
ghost use Rattle.vlt_syntax.specs.View.{name_of};
ghost use Rattle.vlt_core.specs.View as view;
ghost use Rattle.vlt_core.specs.Core as core;
ghost use Rattle.vlt_core.specs.Lookups as l;
ghost use Rattle.vlt_core.specs.Types as t;
ghost use Rattle.vlt_kinds_types.specs.Kinds as s;
ghost use Rattle.vlt_kinds_types.specs.Seen.{kinds_seen};
ghost use Rattle.vlt_kinds_queries.specs.Types.{declared_seen};

use crate::kinds::Kinds;
use crate::names::Entity;
use vlt_base::{FnId, StateSet, TypeId};
use vlt_core::{Func, Ty};
use vlt_kinds_queries::Declared;
use vlt_syntax::Name;

impl Kinds<'_> {
    /// The function of this name.
    pub fn function_named(&self, name: &Name) -> Option<FnId>
        ensures { option_map (λ f. f.0) result
            ≡ s.function_named (kinds_seen self.now) (name_of name.now) }
    {
        match self.file.globals.find(name.text.as_slice()) {
            Some(Entity::AFunction(number)) => Some(FnId(number)),
            _ => None,
        }
    }

    /// The head of the function of this name.
    pub fn head_named(&self, name: &Name) -> Option<&Func>
        ensures { option_map (λ f. view.func_of f.now) result
            ≡ s.head_named (kinds_seen self.now) (name_of name.now) }
    {
        let FnId(number) = self.function_named(name)?;
        self.heads.get(number as usize)
    }

    /// The sets and types that are declared.
    pub fn declared(&self) -> Declared<'_>
        ensures { declared_seen result ≡ s.declared_program (kinds_seen self.now) }
    {
        Declared {
            sets: self.file.sets.as_slice(),
            types: self.types.as_slice(),
        }
    }

    /// Whether a value of the type is copied.
    pub fn is_plain(&self, ty: &Ty) -> bool
        ensures { result ≡ t.is_plain (view.ty_of ty.now) }
    {
        vlt_kinds_queries::is_plain(ty)
    }

    /// All states of a type; the first one alone where it has no set.
    pub fn all_states(&self, number: TypeId) -> StateSet
        ensures { has_state result ≡ l.all_states
            (s.declared_program (kinds_seen self.now)) number.0 }
    {
        self.declared().all_states(number)
    }

    /// The states in which an object of a type may be released.
    pub fn release_set(&self, number: TypeId) -> StateSet
        ensures { has_state result ≡ l.release_set
            (s.declared_program (kinds_seen self.now)) number.0 }
    {
        self.declared().release_set(number)
    }

    /// The states in which a field of a struct may be touched.
    pub fn permitted(&self, number: TypeId, field: u32) -> StateSet
        requires { is_some (slice_get (l.fields_of
            (s.declared_program (kinds_seen self.now)) number.0) field) ≡ true }
        ensures { has_state result
            ≡ l.permitted_in (s.declared_program (kinds_seen self.now)) number.0 field }
    {
        self.declared().permitted(number, field)
    }

    /// Whether objects of a struct may be dropped with all that they own.
    pub fn is_droppable_struct(&self, number: TypeId) -> bool
        ensures { result ≡ t.is_droppable_struct
            (s.declared_program (kinds_seen self.now)) number.0 }
    {
        self.declared().is_struct(number)
            && !vlt_kinds_queries::is_marked(self.marks.as_slice(), number)
    }

    /// Whether a value of the type may be dropped with all that it owns.
    pub fn is_droppable(&self, ty: &Ty) -> bool
        ensures { result ≡ t.is_droppable (s.declared_program (kinds_seen self.now))
            (view.ty_of ty.now) }
    {
        match ty {
            Ty::Own(states, number, _) => {
                self.is_droppable_struct(*number)
                    && vlt_kinds_queries::lies_within(*states, self.release_set(*number))
            }
            Ty::OwnVar(number, _) => self.is_droppable_variant(*number),
            _ => false,
        }
    }

    fn is_droppable_variant(&self, number: TypeId) -> bool
        ensures { result ≡ t.is_droppable (s.declared_program (kinds_seen self.now))
            (core.owning_variant number.0 []) }
    {
        let declared = self.declared();
        declared.is_variant(number)
            && !declared.is_keyed(number)
            && !vlt_kinds_queries::is_marked(self.marks.as_slice(), number)
    }
}
