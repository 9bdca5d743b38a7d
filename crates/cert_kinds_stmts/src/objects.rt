//! What variables refer to, and which types are asked of them.

ghost use Rattle.std.specs.Prelude.{◌≡◌, ◌&&◌, Some, option_map, slice_get};
ghost use Rattle.std.specs.Option.{option_copied};
ghost use Rattle.vlt_core.specs.View.{program_of, func_of, ty_of, keys_of, case_of};
ghost use Rattle.vlt_core.specs.Lookups as lookups;
ghost use Rattle.vlt_core.specs.Types as types;
ghost use Rattle.vlt_core.specs.KindedStatements as s;
ghost use Rattle.vlt_kinds_queries.specs.Marks as m;
ghost use Rattle.cert_kinds_types.specs.Least.{least};
ghost use Rattle.cert_kinds_exprs.specs.Scopes.{ids_of};
ghost use Rattle.cert_kinds_stmts.specs.Objects as z;
ghost use Rattle.cert_kinds_exprs.specs.Wanted.{wanted_types};

use cert_kinds_exprs::{Ids, Wanted, own_key, plain_keys, same_object, use_broken};
use cert_kinds_types::{
    cases, fields, is_declared, is_droppable, is_droppable_struct, is_variant, lesser, unless,
};
use vlt_base::{Items, KeyId, TypeId, VarId};
use vlt_core::{CaseDecl, Func, Program, Ty, rules};

/// A declared type, with the keys in place of its header's.
#[derive(Clone, Copy)]
pub struct Object<'a> {
    pub type_id: TypeId,
    pub args: &'a [KeyId],
}

/// The object of a variable that is a reference.
pub fn tracked_object(f: &Func, x: VarId) -> Option<Object<'_>>
    ensures { z.object_some result ≡ s.tracked_type (lookups.var_type (func_of f.now) x.0) }
{
    match f.var_type(x) {
        Some(Ty::Key(_, t, args)) => Some(Object {
            type_id: *t,
            args: args.as_slice(),
        }),
        _ => None,
    }
}

/// The object of an owning variable.
pub fn owning_object(f: &Func, v: VarId) -> Option<Object<'_>>
    ensures { z.object_some result ≡ s.owning_object (lookups.var_type (func_of f.now) v.0) }
{
    match f.var_type(v) {
        Some(Ty::Own(_, t, args)) => Some(Object {
            type_id: *t,
            args: args.as_slice(),
        }),
        _ => None,
    }
}

/// The object of a guarded variable.
pub fn guarded_object(f: &Func, y: VarId) -> Option<Object<'_>>
    ensures { z.object_some result ≡ s.guarded_object (lookups.var_type (func_of f.now) y.0) }
{
    match f.var_type(y) {
        Some(Ty::Guard(_, t, args)) => Some(Object {
            type_id: *t,
            args: args.as_slice(),
        }),
        _ => None,
    }
}

/// The variant of a variable.
pub fn variant_object(f: &Func, v: VarId) -> Option<Object<'_>>
    ensures { z.object_some result ≡ s.variant_args (lookups.var_type (func_of f.now) v.0) }
{
    match f.var_type(v) {
        Some(Ty::Var(t, args) | Ty::OwnVar(t, args)) => Some(Object {
            type_id: *t,
            args: args.as_slice(),
        }),
        _ => None,
    }
}

/// What two objects break that are known and aren't of one declared type under the same keys.
pub fn objects_apart(a: Option<Object>, b: Option<Object>) -> Option<u8>
    ensures { result ≡ least (s.objects_apart (z.object_some a.entry)
        (z.object_some b.entry)) }
{
    match (a, b) {
        (Some(o), Some(q)) => unless(
            same_object(o.type_id, plain_keys(o.args), q.type_id, plain_keys(q.args)),
            rules::WRONG_TYPE,
        ),
        _ => None,
    }
}

fn not_tracked(f: &Func, rule: u8, x: VarId) -> Option<u8>
    ensures { result ≡ least (z.not_tracked rule (lookups.var_type (func_of f.now) x.0)) }
{
    match f.var_type(x) {
        None => None,
        Some(Ty::Key(_, _, _)) => None,
        Some(_) => Some(rule),
    }
}

/// What a variable breaks that isn't a reference in scope.
#[tactic(auto, using(cert_kinds_types::proofs::Smallest::joined))]
pub fn tracked_broken(f: &Func, ids: &Ids, rule: u8, x: VarId) -> Option<u8>
    ensures { result ≡ least (s.tracked_broken (func_of f.now) (ids_of ids.now) rule x.0) }
{
    lesser(use_broken(f, ids, x), not_tracked(f, rule, x))
}

/// What a variable breaks whose type is known and isn't an owning one.
pub fn wants_owning(f: &Func, v: VarId) -> Option<u8>
    ensures { result ≡ least (s.wanted_of (lookups.var_type (func_of f.now) v.0)
        lookups.is_owning) }
{
    match f.var_type(v) {
        None => None,
        Some(ty) => unless(ty.is_owning(), rules::WRONG_TYPE),
    }
}

fn is_owning_object(ty: &Ty) -> bool
    ensures { result ≡ s.is_owning_object (ty_of ty.now) }
{
    matches!(ty, Ty::Own(..))
}

/// What a variable breaks whose type is known and isn't an owning object.
pub fn wants_owning_object(f: &Func, v: VarId) -> Option<u8>
    ensures { result ≡ least (s.wanted_of (lookups.var_type (func_of f.now) v.0)
        s.is_owning_object) }
{
    match f.var_type(v) {
        None => None,
        Some(ty) => unless(is_owning_object(ty), rules::WRONG_TYPE),
    }
}

fn is_tracked_type(ty: &Ty) -> bool
    ensures { result ≡ s.is_tracked_type (ty_of ty.now) }
{
    matches!(ty, Ty::Key(..))
}

/// What a variable breaks whose type is known and isn't a reference.
pub fn wants_tracked(f: &Func, v: VarId) -> Option<u8>
    ensures { result ≡ least (s.wanted_of (lookups.var_type (func_of f.now) v.0)
        s.is_tracked_type) }
{
    match f.var_type(v) {
        None => None,
        Some(ty) => unless(is_tracked_type(ty), rules::WRONG_TYPE),
    }
}

fn is_guarded_type(ty: &Ty) -> bool
    ensures { result ≡ s.is_guarded_type (ty_of ty.now) }
{
    matches!(ty, Ty::Guard(..))
}

/// What a variable breaks whose type is known and isn't guarded.
pub fn wants_guarded(f: &Func, v: VarId) -> Option<u8>
    ensures { result ≡ least (s.wanted_of (lookups.var_type (func_of f.now) v.0)
        s.is_guarded_type) }
{
    match f.var_type(v) {
        None => None,
        Some(ty) => unless(is_guarded_type(ty), rules::WRONG_TYPE),
    }
}

/// Whether the type is a variant's.
pub fn is_variant_type(ty: &Ty) -> bool
    ensures { result ≡ s.is_variant_type (ty_of ty.now) }
{
    matches!(ty, Ty::Var(..) | Ty::OwnVar(..))
}

/// What a variable breaks whose type is known and isn't a variant.
pub fn wants_variant(f: &Func, v: VarId) -> Option<u8>
    ensures { result ≡ least (s.wanted_of (lookups.var_type (func_of f.now) v.0)
        s.is_variant_type) }
{
    match f.var_type(v) {
        None => None,
        Some(ty) => unless(is_variant_type(ty), rules::WRONG_TYPE),
    }
}

/// What the release of a reference's object breaks. The marks are those of `cert_kinds_types::marks`.
pub fn droppable_broken(p: &Program, marks: &[bool], f: &Func, x: VarId) -> Option<u8>
    requires { m.AreMarks (program_of p.now) marks.now }
    ensures { result ≡ least (s.droppable_broken (program_of p.now) (func_of f.now) x.0) }
{
    match tracked_object(f, x) {
        None => None,
        Some(o) => {
            if is_declared(p, o.type_id) {
                unless(
                    is_droppable_struct(p, marks, o.type_id),
                    rules::WRONG_RELEASE,
                )
            } else {
                None
            }
        }
    }
}

/// What the drop of a value breaks. The marks are those of `cert_kinds_types::marks`.
pub fn drop_broken(p: &Program, marks: &[bool], f: &Func, v: VarId) -> Option<u8>
    requires { m.AreMarks (program_of p.now) marks.now }
    ensures { result ≡ least (z.drop_broken (program_of p.now)
        (lookups.var_type (func_of f.now) v.0)) }
{
    match f.var_type(v) {
        None => None,
        Some(ty) => unless(
            ty.is_owning() && is_droppable(p, marks, ty),
            rules::WRONG_RELEASE,
        ),
    }
}

fn guard_key(f: &Func, y: VarId) -> Option<KeyId>
    ensures { option_map (λ k. k.0) result
        ≡ s.guard_key (lookups.var_type (func_of f.now) y.0) }
{
    match f.var_type(y) {
        Some(Ty::Guard(k, _, _)) => Some(*k),
        _ => None,
    }
}

fn keys_differ(a: Option<KeyId>, b: Option<KeyId>) -> Option<u8>
    ensures { result ≡ least (s.keys_differ (option_map (λ k. k.0) a)
        (option_map (λ k. k.0) b)) }
{
    match (a, b) {
        (Some(k), Some(j)) => unless(k.0 == j.0, rules::WRONG_TYPE),
        _ => None,
    }
}

/// What the guard of a variable breaks that isn't the key of a reference.
pub fn guard_differs(f: &Func, y: VarId, r: VarId) -> Option<u8>
    ensures { result ≡ least (s.keys_differ (s.guard_key (lookups.var_type (func_of f.now) y.0))
        (z.own_key (func_of f.now) r.0)) }
{
    keys_differ(guard_key(f, y), own_key(f, r))
}

fn case_at(p: &Program, t: TypeId, case: u8) -> Option<&CaseDecl>
    ensures { option_map case_of (option_copied result)
        ≡ slice_get (lookups.cases_of (program_of p.now) t.0) case }
{
    cases(p, t).get(case as usize)
}

fn payload_broken(p: &Program, t: TypeId, case: u8, count: usize) -> Option<u8>
    ensures { result ≡ least (z.payload_broken count
        (slice_get (lookups.cases_of (program_of p.now) t.0) case)) }
{
    match case_at(p, t, case) {
        None => Some(rules::UNKNOWN_NAME),
        Some(d) => unless(count == d.payload.len(), rules::WRONG_COUNT),
    }
}

/// What so many payloads for a case of a variable's variant break.
pub fn case_broken(p: &Program, f: &Func, v: VarId, case: u8, count: usize) -> Option<u8>
    ensures { result ≡ least (s.case_broken (program_of p.now) case count
        (s.variant_args (lookups.var_type (func_of f.now) v.0))) }
{
    match variant_object(f, v) {
        None => None,
        Some(o) => {
            if is_variant(p, o.type_id) {
                payload_broken(p, o.type_id, case, count)
            } else {
                None
            }
        }
    }
}

fn payload_in<'a>(args: &'a [KeyId], d: Option<&'a CaseDecl>) -> Wanted<'a>
    ensures { wanted_types result ≡ s.payload_types_in (keys_of args.now)
        (option_map case_of (option_copied d.entry)) }
{
    match d {
        None => Wanted::Nothing,
        Some(d) => Wanted::Payload(d.payload.as_slice(), args),
    }
}

/// The types of the payloads of a case of a variable's variant.
pub fn payload_wanted<'a>(p: &'a Program, f: &'a Func, v: VarId, case: u8) -> Wanted<'a>
    ensures { wanted_types result ≡ s.payload_types (program_of p.now)
        (s.variant_args (lookups.var_type (func_of f.now) v.0)) case }
{
    match variant_object(f, v) {
        None => Wanted::Nothing,
        Some(o) => payload_in(o.args, case_at(p, o.type_id, case)),
    }
}

/// The types of the fields of a new object.
pub fn made_wanted<'a>(p: &'a Program, f: &'a Func, x: VarId) -> Wanted<'a>
    ensures { wanted_types result ≡ s.made_types (program_of p.now)
        (lookups.var_type (func_of f.now) x.0) }
{
    match f.var_type(x) {
        Some(Ty::Key(_, t, args)) => Wanted::Fields(fields(p, *t), args.as_slice()),
        _ => Wanted::Nothing,
    }
}
