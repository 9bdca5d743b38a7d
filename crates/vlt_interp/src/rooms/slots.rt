//! How many value slots frames and objects take.

ghost use Rattle.std.specs.Prelude.{◌≡◌, ◌<◌, ◌+◌, ◌↔◌, IsTrue, map};
ghost use Rattle.std.specs.List.{count_by, sum_by};
ghost use Rattle.vlt_base.specs.Limits.{limit_of};
ghost use Rattle.vlt_base.specs.declared.limits.TheConstants as limits;
ghost use Rattle.vlt_core.specs.View.{program_of, field_of, case_of, var_of, ty_of};
ghost use Rattle.vlt_core.specs.Widths as widths;
ghost use Rattle.vlt_core.specs.Widths.{greatest, slots_needed};
ghost use Rattle.vlt_interp.specs.Rooms.Sorts.{is_of, capped_count};

use crate::rooms::parts::{cases_of, fields_in};
use vlt_base::{TypeId, VALUE_SLOTS, limit};
use vlt_core::{CaseDecl, FieldDecl, Func, Program, Ty, TypeDecl, VarDecl};

/// What a payload is, where it takes a slot of a variant.
#[derive(Clone, Copy)]
enum Sort {
    Number,
    Guarded,
    Owning,
}

/// Whether a payload is of the sort.
fn is_of(sort: Sort, t: &Ty) -> bool
    ensures { result ≡ is_of sort (ty_of t.now) }
{
    match sort {
        Sort::Number => matches!(t, Ty::Int | Ty::Bool),
        Sort::Guarded => matches!(t, Ty::Guard(..)),
        Sort::Owning => t.is_owning(),
    }
}

/// How many payloads of a sort there are.
fn count(sort: Sort, payload: &[Ty]) -> u64
    ensures { result ≡ count_by (is_of sort) (map ty_of payload.now) }
{
    let mut n = 0;
    for t in payload {
        if is_of(sort, t) {
            n += 1;
        }
    }
    n
}

/// The most payloads of a sort that a case has.
fn most_of(sort: Sort, cases: &[CaseDecl]) -> u64
    ensures { result ≡ greatest (λ c. count_by (is_of sort) c.payload) (map case_of cases.now) }
{
    let mut most = 0;
    for c in cases {
        most = most.max(count(sort, c.payload.as_slice()));
    }
    most
}

/// The slots of a value of a variant.
fn variant_slots(p: &Program, t: TypeId) -> u128
    ensures { result ≡ widths.variant_slots (program_of p.now) t.0 }
{
    let cases = cases_of(p, t);
    let numbers = u128::from(most_of(Sort::Number, cases));
    let guarded = u128::from(most_of(Sort::Guarded, cases));
    1 + numbers + guarded + u128::from(most_of(Sort::Owning, cases))
}

/// The slots of a value.
fn slots_of(p: &Program, t: &Ty) -> u128
    ensures { result ≡ widths.slots_of (program_of p.now) (ty_of t.now) }
{
    match t {
        Ty::Var(t, _) => variant_slots(p, *t),
        Ty::OwnVar(t, _) => variant_slots(p, *t),
        _ => 1,
    }
}

/// The slots of variables, as many as can be counted.
fn var_slots(p: &Program, vars: &[VarDecl]) -> u128
    ensures { result ≡ capped_count (sum_by (λ d. widths.slots_of (program_of p.now) d.ty)
        (map var_of vars.now)) }
{
    let mut n: u128 = 0;
    for d in vars {
        n = n.saturating_add(slots_of(p, &d.ty));
    }
    n
}

/// The slots of fields, as many as can be counted.
fn field_slots(p: &Program, fields: &[FieldDecl]) -> u128
    ensures { result ≡ capped_count (sum_by (λ d. widths.slots_of (program_of p.now) d.ty)
        (map field_of fields.now)) }
{
    let mut n: u128 = 0;
    for d in fields {
        n = n.saturating_add(slots_of(p, &d.ty));
    }
    n
}

/// The slots of the variables and keys of the function that has most of them.
fn widest_function(p: &Program) -> u128
    ensures { result ≡ capped_count (widths.widest_function (program_of p.now)) }
{
    let mut most = 0;
    for f in p.fns.as_slice() {
        let slots = var_slots(p, f.vars.as_slice()).saturating_add(f.keys.len() as u128);
        most = most.max(slots);
    }
    most
}

/// The cells of an object of the type that has most of them.
fn widest_type(p: &Program) -> u128
    ensures { result ≡ capped_count (widths.widest_type (program_of p.now)) }
{
    let mut most = 0;
    for t in p.types.as_slice() {
        most = most.max(field_slots(p, fields_in(t)));
    }
    most
}

/// Whether so many frames and objects could have more slots than limit 13 allows.
pub fn is_too_wide(p: &Program, depth: u32, heap: u32) -> bool
    ensures { IsTrue result ↔
        (limit_of limits.VALUE_SLOTS < slots_needed (program_of p.now) depth heap) }
{
    let frames = u128::from(depth).saturating_mul(widest_function(p));
    let objects = u128::from(heap).saturating_mul(widest_type(p));
    frames.saturating_add(objects) > u128::from(limit(VALUE_SLOTS))
}

/// The same with one slot more for each object.
pub fn is_too_wide_for_host(p: &Program, depth: u32, heap: u32) -> bool
    ensures { IsTrue result ↔
        (limit_of limits.VALUE_SLOTS < slots_needed (program_of p.now) depth heap + heap) }
{
    let frames = u128::from(depth).saturating_mul(widest_function(p));
    let objects = u128::from(heap).saturating_mul(widest_type(p));
    let all = frames.saturating_add(objects);
    all.saturating_add(u128::from(heap)) > u128::from(limit(VALUE_SLOTS))
}
