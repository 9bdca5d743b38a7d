//! What the numbers of a program stand for.

ghost use Rattle.std.specs.Prelude.{◌≡◌, ◌==◌, ◌||◌, ◌&&◌, ◌<◌, ◌≤◌, ℕ, map, nat_lt, Some, slice_get};
ghost use Rattle.std.specs.List.{list_any};
ghost use Rattle.std.specs.Option.{option_map, option_copied};
ghost use Rattle.vlt_base.specs.States.{has_state};
ghost use Rattle.vlt_core.specs.View.{program_of, func_of, ty_of, type_of, field_of, case_of, states_of, link_of, entry_of};
ghost use Rattle.vlt_core.specs.Core.{kept};
ghost use Rattle.vlt_core.specs.Instances.{bound_in, entry_in, IsWithinBound};
ghost use Rattle.vlt_core.specs.HeldView.{IsSetOf, IsSetOrNone};
ghost use Rattle.vlt_core.specs.LookupViews.{reference_view, bound_view, variant_view};
ghost use Rattle.vlt_core.specs.Lookups.{var_type, reference_of, guarded_of, is_owning, is_owning_var, owning_states, variant_of, key_type, count_in, fields_of, case_at, state_count, all_states, links_in, leads_up, links_of_type, states_up_to, key_states_up_to, release_set, permitted_in, states_of_key, states_or_all};

use crate::program::{CaseDecl, Entry, FieldDecl, Func, Link, Mode, Program, Ty, TypeDecl};
use vlt_base::{KeyId, SetId, StateSet, TypeId, VarId};

/// A key, and the type of its object.
#[derive(Clone, Copy, Debug, PartialEq, Eq)]
pub struct Reference {
    pub key: KeyId,
    pub type_id: TypeId,
}

/// A variable's variant, with the keys that stand for its header.
#[derive(Clone, Copy)]
pub struct VariantOf<'a> {
    pub type_id: TypeId,
    pub args: &'a [KeyId],
}

/// The key of a clause's bound entry, and the state that bounds it.
#[derive(Clone, Copy, Debug, PartialEq, Eq)]
pub struct Bound {
    pub key: KeyId,
    pub state: u8,
}

impl Ty {
    /// Whether a value of the type owns objects.
    pub fn is_owning(&self) -> bool
        ensures { result ≡ is_owning (ty_of self.now) }
    {
        match self {
            Ty::Own(_, _, _) => true,
            Ty::OwnVar(_, _) => true,
            _ => false,
        }
    }
}

impl Func {
    pub fn var_type(&self, v: VarId) -> Option<&Ty>
        ensures { option_map ty_of (option_copied result) ≡ var_type (func_of self.now) v.0 }
    {
        match self.vars.get(v.0 as usize) {
            None => None,
            Some(d) => Some(&d.ty),
        }
    }

    /// What a tracked variable refers to; none for any other.
    pub fn reference(&self, x: VarId) -> Option<Reference>
        ensures { option_map reference_view result ≡ reference_of (func_of self.now) x.0 }
    {
        match self.var_type(x)? {
            Ty::Key(key, type_id, _) => Some(Reference {
                key: *key,
                type_id: *type_id,
            }),
            _ => None,
        }
    }

    /// The guard of a guarded variable, and the type of its own object; none for any other.
    pub fn guarded(&self, y: VarId) -> Option<Reference>
        ensures { option_map reference_view result ≡ guarded_of (func_of self.now) y.0 }
    {
        match self.var_type(y)? {
            Ty::Guard(key, type_id, _) => Some(Reference {
                key: *key,
                type_id: *type_id,
            }),
            _ => None,
        }
    }

    pub fn is_owning_var(&self, v: VarId) -> bool
        ensures { result ≡ is_owning_var (func_of self.now) v.0 }
    {
        match self.var_type(v) {
            None => false,
            Some(t) => t.is_owning(),
        }
    }

    /// The states that a variable of type `tracked@S T` says; none for any other.
    pub fn owning_states(&self, v: VarId) -> Option<StateSet>
        ensures { option_map has_state result ≡ owning_states (func_of self.now) v.0 }
    {
        match self.var_type(v)? {
            Ty::Own(states, _, _) => Some(*states),
            _ => None,
        }
    }

    pub fn variant(&self, v: VarId) -> Option<VariantOf<'_>>
        ensures { option_map variant_view result ≡ variant_of (func_of self.now) v.0 }
    {
        match self.var_type(v)? {
            Ty::Var(type_id, args) => Some(VariantOf {
                type_id: *type_id,
                args: args.as_slice(),
            }),
            Ty::OwnVar(type_id, args) => Some(VariantOf {
                type_id: *type_id,
                args: args.as_slice(),
            }),
            _ => None,
        }
    }

    /// The clause's bound entry, if it has one.
    pub fn bound(&self) -> Option<Bound>
        ensures { option_map bound_view result ≡ bound_in (func_of self.now).clause }
    {
        for e in self.clause.as_slice() {
            if let Mode::Bound(state) = e.mode {
                return Some(Bound { key: e.key, state });
            }
        }
        None
    }

    /// The type of a key's object, where one is given.
    pub fn key_type(&self, k: KeyId) -> Option<TypeId>
        ensures { option_map (λ t. t.0) result ≡ key_type (func_of self.now) k.0 }
    {
        self.keys.get(k.0 as usize)?.key_type
    }
}

impl Program {
    fn type_decl(&self, t: TypeId) -> Option<&TypeDecl>
        ensures { option_map type_of (option_copied result)
            ≡ slice_get (program_of self.now).types t.0 }
    {
        self.types.get(t.0 as usize)
    }

    /// How many states a set has.
    fn set_size(&self, set: SetId) -> usize
        ensures { result ≡ count_in (slice_get (program_of self.now).sets set.0) }
    {
        match self.sets.get(set.0 as usize) {
            None => 0,
            Some(d) => d.states.len(),
        }
    }

    /// How many states an object of the type can have; a type without a set has one.
    pub fn state_count(&self, t: TypeId) -> usize
        ensures { result ≡ state_count (program_of self.now) t.0 }
    {
        match self.type_decl(t) {
            Some(TypeDecl::Abstract { set: Some(set), .. }) => self.set_size(*set),
            Some(TypeDecl::Struct { set: Some(set), .. }) => self.set_size(*set),
            _ => 1,
        }
    }

    /// All states of the type's objects.
    pub fn all_states(&self, t: TypeId) -> Option<StateSet>
        ensures { IsSetOf (all_states (program_of self.now) t.0) result }
    {
        first_states(self.state_count(t))
    }

    /// The links of a set.
    fn set_links(&self, set: SetId) -> &[Link]
        ensures { map link_of result.now ≡ links_in (slice_get (program_of self.now).sets set.0) }
    {
        match self.sets.get(set.0 as usize) {
            None => &[],
            Some(d) => d.links.as_slice(),
        }
    }

    /// The links of the type's set.
    fn links(&self, t: TypeId) -> &[Link]
        ensures { map link_of result.now ≡ links_of_type (program_of self.now) t.0 }
    {
        match self.type_decl(t) {
            Some(TypeDecl::Abstract { set: Some(set), .. }) => self.set_links(*set),
            Some(TypeDecl::Struct { set: Some(set), .. }) => self.set_links(*set),
            _ => &[],
        }
    }

    /// The states of the type up to this one; of a type without order that one alone.
    pub fn states_up_to(&self, t: TypeId, state: u8) -> Option<StateSet>
        ensures { IsSetOrNone (states_up_to (program_of self.now) t.0 state) result }
    {
        let count = self.state_count(t);
        if count == 0 || state >= 32 {
            return None;
        }
        let up = leading_up(self.links(t), state);
        both(first_up_to_32(count), up)
    }

    /// The states of a key's object up to this one; none of a key without a type.
    pub fn key_states_up_to(&self, f: &Func, k: KeyId, state: u8) -> Option<StateSet>
        ensures { IsSetOrNone
            (key_states_up_to (program_of self.now) (func_of f.now) k.0 state) result }
    {
        match f.key_type(k) {
            None => None,
            Some(t) => self.states_up_to(t, state),
        }
    }

    /// The entry as it stands in the instance of this origin: a bound one's key is kept in that state alone.
    pub fn entry_in(&self, f: &Func, origin: Option<u8>, e: Entry) -> Entry
        requires { IsWithinBound (program_of self.now) (func_of f.now) origin (entry_of e) }
        ensures { entry_of result
            ≡ entry_in (program_of self.now) (func_of f.now) origin (entry_of e) }
    {
        match (origin, e.mode) {
            (Some(o), Mode::Bound(_)) => kept_in(e.key, o),
            _ => e,
        }
    }

    /// The states in which an object of the type may be released.
    pub fn release_set(&self, t: TypeId) -> Option<StateSet>
        ensures { IsSetOf (release_set (program_of self.now) t.0) result }
    {
        match self.type_decl(t) {
            Some(TypeDecl::Struct { release, .. }) => Some(*release),
            Some(TypeDecl::Abstract { .. }) => self.all_states(t),
            Some(TypeDecl::Variant { .. }) => self.all_states(t),
            None => self.all_states(t),
        }
    }

    fn field(&self, t: TypeId, position: u32) -> Option<&FieldDecl>
        ensures { option_map field_of (option_copied result)
            ≡ slice_get (fields_of (program_of self.now) t.0) position }
    {
        match self.type_decl(t)? {
            TypeDecl::Struct { fields, .. } => fields.get(position as usize),
            _ => None,
        }
    }

    /// The states in which a field of the type may be touched.
    pub fn permitted(&self, t: TypeId, position: u32) -> Option<StateSet>
        ensures { IsSetOf (permitted_in (program_of self.now) t.0 position) result }
    {
        match self.field(t, position) {
            None => None,
            Some(d) => Some(d.states),
        }
    }

    /// A case of a variant.
    pub fn case_at(&self, t: TypeId, case: u8) -> Option<&CaseDecl>
        ensures { option_map case_of (option_copied result)
            ≡ case_at (program_of self.now) t.0 case }
    {
        match self.type_decl(t)? {
            TypeDecl::Variant { cases, .. } => cases.get(case as usize),
            _ => None,
        }
    }

    /// All states of a key's object; of a key without a type every state.
    pub fn states_of_key(&self, f: &Func, k: KeyId) -> Option<StateSet>
        ensures { IsSetOf (states_of_key (program_of self.now) (func_of f.now) k.0) result }
    {
        match f.key_type(k) {
            None => first_states(32),
            Some(t) => self.all_states(t),
        }
    }

    /// The states that an entry names, or all of the key.
    pub fn states_or_all(&self, f: &Func, k: KeyId, named: Option<StateSet>) -> Option<StateSet>
        ensures { IsSetOf (states_or_all (program_of self.now) (func_of f.now) k.0
            (states_of named)) result }
    {
        match named {
            None => self.states_of_key(f, k),
            Some(states) => Some(states),
        }
    }
}

/// The numbers below n, if there are any and all are below 32.
pub fn first_states(n: usize) -> Option<StateSet>
    ensures { IsSetOf (λ s. nat_lt s n) result }
{
    if 1 <= n && n <= 32 {
        Some(StateSet::first(n as u8))
    } else {
        None
    }
}

/// An entry that keeps its key in this state.
fn kept_in(key: KeyId, state: u8) -> Entry
    requires { state < 32 }
    ensures { entry_of result ≡ record {
      mode = kept;
      key = key.0;
      before = Some (λ s. s == state);
      after = Some (λ s. s == state);
    } }
{
    let only = Some(StateSet::only(state));
    Entry {
        mode: Mode::Kept,
        key,
        before: only,
        after: only,
    }
}

/// The numbers below n and below 32.
fn first_up_to_32(n: usize) -> StateSet
    requires { 1 ≤ n }
    ensures { (s : ℕ) → has_state result s ≡ (nat_lt s 32 && nat_lt s n) }
{
    if n < 32 {
        StateSet::first(n as u8)
    } else {
        StateSet::first(32)
    }
}

/// The numbers that are in both sets, if there are any.
fn both(a: StateSet, b: StateSet) -> Option<StateSet>
    ensures { IsSetOrNone (λ s. has_state a s && has_state b s) result }
{
    StateSet::of(a.mask() & b.mask())
}

/// The state, and each one from which a link leads into the set.
fn with_lower(links: &[Link], set: StateSet, state: u8) -> StateSet
    requires { state < 32 }
    ensures { (s : ℕ) → s < 32 → has_state result s
        ≡ (s == state || list_any (λ l. l.lower == s && has_state set l.upper) links.now) }
{
    let mut all = StateSet::only(state);
    for l in links {
        if l.lower < 32 && set.has(l.upper) {
            all = all.join(StateSet::only(l.lower));
        }
    }
    all
}

/// The states from which at most 31 links lead to this one.
fn leading_up(links: &[Link], state: u8) -> StateSet
    requires { state < 32 }
    ensures { (s : ℕ) → s < 32 → has_state result s
        ≡ leads_up (map link_of links.now) 31 s state }
{
    let mut set = StateSet::only(state);
    for n in 0..31_usize {
        set = with_lower(links, set, state);
    }
    set
}
