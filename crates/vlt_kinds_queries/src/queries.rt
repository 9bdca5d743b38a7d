//! What declared types say of their states, and which of them may be dropped.

ghost use Rattle.std.specs.Prelude.{◌≡◌, ◌<◌, ◌≤◌, ◌||◌, not, suc, true, is_some, map, option_map, length, slice_get, IfSome, IfOk};
ghost use Rattle.vlt_kinds_queries.specs.Known.{HasKnownSet};
ghost use Rattle.std.specs.List.{list_any, list_all};
ghost use Rattle.vlt_base.specs.States.{has_state};
ghost use Rattle.vlt_core.specs.View as view;
ghost use Rattle.vlt_core.specs.Lookups as l;
ghost use Rattle.vlt_core.specs.Types as t;
ghost use Rattle.vlt_kinds_queries.specs.Marks as m;
ghost use Rattle.vlt_kinds_queries.specs.Rounds as r;
ghost use Rattle.vlt_kinds_queries.specs.Types.{declared_seen};

use crate::declared::Declared;
use std::alloc::{AllocError, Global};
use vlt_base::{Items, SetId, StateSet, TypeId};
use vlt_core::{CaseDecl, FieldDecl, Ty, TypeDecl};

fn is_kept(a: StateSet, b: StateSet, state: u8) -> bool
    ensures { result ≡ (not (has_state a state) || has_state b state) }
{
    !a.has(state) || b.has(state)
}

fn are_kept(a: StateSet, b: StateSet, states: &[u8]) -> bool
    ensures { result ≡ list_all (λ s. not (has_state a s) || has_state b s) states.now }
{
    for state in states {
        if !is_kept(a, b, *state) {
            return false;
        }
    }
    true
}

/// Whether each state of the first set is one of the second.
pub fn lies_within(a: StateSet, b: StateSet) -> bool
    ensures { result ≡ t.lies_within (has_state a) (has_state b) }
{
    are_kept(
        a,
        b,
        &[
            0, 1, 2, 3, 4, 5, 6, 7, 8, 9, 10, 11, 12, 13, 14, 15, 16, 17, 18, 19, 20, 21, 22, 23,
            24, 25, 26, 27, 28, 29, 30, 31,
        ],
    )
}

fn is_owning(ty: &Ty) -> bool
    ensures { result ≡ l.is_owning (view.ty_of ty.now) }
{
    matches!(ty, Ty::Own(..) | Ty::OwnVar(..))
}

fn part_type(ty: &Ty) -> TypeId
    ensures { result.0 ≡ t.part_type (view.ty_of ty.now) }
{
    match ty {
        Ty::Int | Ty::Bool => TypeId(0),
        Ty::Key(_, number, _) | Ty::Guard(_, number, _) => *number,
        Ty::Own(_, number, _) => *number,
        Ty::Var(number, _) | Ty::OwnVar(number, _) => *number,
    }
}

/// Whether a value of the type is copied.
pub fn is_plain(ty: &Ty) -> bool
    ensures { result ≡ t.is_plain (view.ty_of ty.now) }
{
    matches!(ty, Ty::Int | Ty::Bool | Ty::Guard(..) | Ty::Var(..))
}

/// Whether the type of this number is marked.
pub fn is_marked(marks: &[bool], number: TypeId) -> bool
    ensures { result ≡ m.is_marked marks.now number.0 }
{
    match marks.get(number.0 as usize) {
        None => false,
        Some(mark) => *mark,
    }
}

fn lists_keys(case: &CaseDecl) -> bool
    ensures { result ≡ t.is_filled (view.case_of case.now).keys }
{
    !case.keys.as_slice().is_empty()
}

fn has_keys(cases: &[CaseDecl]) -> bool
    ensures { result ≡ list_any (λ c. t.is_filled c.keys) (map view.case_of cases.now) }
{
    for case in cases {
        if lists_keys(case) {
            return true;
        }
    }
    false
}

impl Declared<'_> {
    fn decl(&self, number: TypeId) -> Option<&TypeDecl>
        ensures is { option_map (λ d. view.type_of d.now) result
            ≡ t.decl_of (declared_seen self.now) number.0 }
        ensures known { IfSome result (λ d. HasKnownSet (length self.now.sets.now) d.now) }
    {
        let decl = self.types.get(number.0 as usize)?;
        Some(decl)
    }

    pub fn is_struct(&self, number: TypeId) -> bool
        ensures { result ≡ t.is_struct (t.decl_of (declared_seen self.now) number.0) }
    {
        matches!(self.decl(number), Some(TypeDecl::Struct { .. }))
    }

    pub fn is_variant(&self, number: TypeId) -> bool
        ensures { result ≡ t.is_variant (t.decl_of (declared_seen self.now) number.0) }
    {
        matches!(self.decl(number), Some(TypeDecl::Variant { .. }))
    }

    pub fn is_keyed(&self, number: TypeId) -> bool
        ensures { result ≡ t.is_keyed (declared_seen self.now) number.0 }
    {
        match self.decl(number) {
            Some(TypeDecl::Variant { cases, .. }) => has_keys(cases.as_slice()),
            _ => false,
        }
    }

    /// How many states an object of a type can have; of a type without a set one.
    fn state_count(&self, number: TypeId) -> u8
        ensures count { result ≡ l.state_count (declared_seen self.now) number.0 }
        ensures some { 1 ≤ result }
        ensures few { result ≤ 32 }
    {
        match self.decl(number) {
            Some(TypeDecl::Abstract { set: Some(set), .. }) => self.set_size(*set),
            Some(TypeDecl::Struct { set: Some(set), .. }) => self.set_size(*set),
            _ => 1,
        }
    }

    /// All states of a type; the first one alone where it has no set.
    pub fn all_states(&self, number: TypeId) -> StateSet
        ensures { has_state result ≡ l.all_states (declared_seen self.now) number.0 }
    {
        StateSet::first(self.state_count(number))
    }

    /// The states in which an object of a type may be released.
    pub fn release_set(&self, number: TypeId) -> StateSet
        ensures { has_state result ≡ l.release_set (declared_seen self.now) number.0 }
    {
        match self.decl(number) {
            Some(TypeDecl::Struct { release, .. }) => *release,
            _ => self.all_states(number),
        }
    }

    /// The states in which a field of a struct may be touched.
    pub fn permitted(&self, number: TypeId, field: u32) -> StateSet
        requires { is_some (slice_get (l.fields_of (declared_seen self.now) number.0) field)
            ≡ true }
        ensures { has_state result ≡ l.permitted_in (declared_seen self.now) number.0 field }
    {
        match self.field(number, field) {
            None => StateSet::first(1),
            Some(decl) => decl.states,
        }
    }

    fn field(&self, number: TypeId, field: u32) -> Option<&FieldDecl>
        ensures { option_map (λ d. view.field_of d.now) result
            ≡ slice_get (l.fields_of (declared_seen self.now) number.0) field }
    {
        match self.decl(number) {
            Some(TypeDecl::Struct { fields, .. }) => fields.get(field as usize),
            _ => None,
        }
    }

    fn set_size(&self, set: SetId) -> u8
        requires { set.0 < length self.now.sets.now }
        ensures count { result ≡ l.count_in (slice_get (declared_seen self.now).sets set.0) }
        ensures some { 1 ≤ result }
        ensures few { result ≤ 32 }
    {
        self.sets[set.0 as usize].states.len() as u8
    }

    fn is_undroppable_part(&self, ty: &Ty) -> bool
        ensures { result ≡ t.is_undroppable_part (declared_seen self.now) (view.ty_of ty.now) }
    {
        match ty {
            Ty::Own(states, number, _) => {
                !(self.is_struct(*number) && lies_within(*states, self.release_set(*number)))
            }
            Ty::OwnVar(number, _) => !self.is_variant(*number) || self.is_keyed(*number),
            _ => false,
        }
    }

    fn is_part_marked(&self, marks: &[bool], ty: &Ty) -> bool
        ensures { result ≡ r.part_marked (declared_seen self.now) marks.now (view.ty_of ty.now) }
    {
        is_owning(ty) && (self.is_undroppable_part(ty) || is_marked(marks, part_type(ty)))
    }

    fn is_field_marked(&self, marks: &[bool], fields: &[FieldDecl]) -> bool
        ensures { result ≡ list_any (λ f. r.part_marked (declared_seen self.now) marks.now f.ty)
            (map view.field_of fields.now) }
    {
        for field in fields {
            if self.is_part_marked(marks, &field.ty) {
                return true;
            }
        }
        false
    }

    fn is_payload_marked(&self, marks: &[bool], payload: &[Ty]) -> bool
        ensures { result ≡ list_any (r.part_marked (declared_seen self.now) marks.now)
            (map view.ty_of payload.now) }
    {
        for ty in payload {
            if self.is_part_marked(marks, ty) {
                return true;
            }
        }
        false
    }

    fn is_case_marked(&self, marks: &[bool], cases: &[CaseDecl]) -> bool
        ensures { result ≡ list_any (λ c. list_any
            (r.part_marked (declared_seen self.now) marks.now) c.payload)
            (map view.case_of cases.now) }
    {
        for case in cases {
            if self.is_payload_marked(marks, case.payload.as_slice()) {
                return true;
            }
        }
        false
    }

    fn is_decl_marked(&self, marks: &[bool], decl: &TypeDecl) -> bool
        ensures { result ≡ r.decl_marked (declared_seen self.now) marks.now
            (view.type_of decl.now) }
    {
        match decl {
            TypeDecl::Abstract { .. } => false,
            TypeDecl::Struct { fields, .. } => self.is_field_marked(marks, fields.as_slice()),
            TypeDecl::Variant { cases, .. } => self.is_case_marked(marks, cases.as_slice()),
        }
    }

    fn marked_more(&self, alloc: Global, marks: &[bool]) -> Result<Items<bool>, AllocError>
        ensures { IfOk result (λ more. more ≡ r.marked_more (declared_seen self.now) marks.now) }
    {
        let mut more = Items::new(alloc);
        for decl in self.types {
            more.push(self.is_decl_marked(marks, decl))?;
        }
        Ok(more)
    }

    /// For each type whether a part is reached from it that no release may reach.
    #[tactic(auto, using(crate::proofs::Marks::are_marks))]
    pub fn marks(&self, alloc: Global) -> Result<Items<bool>, AllocError>
        ensures { IfOk result (λ marks. m.AreMarks (declared_seen self.now) marks) }
    {
        let marks = self.last_marks(alloc)?;
        Ok(marks)
    }

    /// The rounds end where one changes nothing.
    fn last_marks(&self, alloc: Global) -> Result<Items<bool>, AllocError>
        ensures { IfOk result (λ marks. marks
            ≡ r.marks_after (declared_seen self.now)
            (suc (length (declared_seen self.now).types))) }
    {
        let mut marks = self.marked_more(alloc, &[])?;
        for round in 0..self.types.len() {
            let _ = round;
            let more = self.marked_more(alloc, marks.as_slice())?;
            if more.as_slice() == marks.as_slice() {
                return Ok(marks);
            }
            marks = more;
        }
        Ok(marks)
    }
}
