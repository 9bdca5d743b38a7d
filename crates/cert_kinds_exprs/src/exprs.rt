//! What expressions and operands break.

ghost use Rattle.std.specs.Prelude.{◌≡◌, ◌==◌, ◌||◌, not, nat_lt, Some, option_map, slice_get};
ghost use Rattle.std.specs.Option.{option_copied};
ghost use Rattle.std.specs.List.{list_all};
ghost use Rattle.vlt_base.specs.States.{has_state};
ghost use Rattle.vlt_ops.specs.Operator.{row_of};
ghost use Rattle.vlt_core.specs.View.{program_of, func_of, ty_of, keys_of, field_of, expr_of};
ghost use Rattle.vlt_core.specs.Lookups as lookups;
ghost use Rattle.vlt_core.specs.Types as types;
ghost use Rattle.vlt_core.specs.KindedHeads as heads;
ghost use Rattle.vlt_core.specs.KindedOperands as s;
ghost use Rattle.cert_kinds_types.specs.Least.{least};
ghost use Rattle.cert_kinds_exprs.specs.Scopes.{ids_of};
ghost use Rattle.cert_kinds_exprs.specs.Seen.{seen_of, seen_some};
ghost use Rattle.cert_kinds_exprs.specs.Touched as z;

use crate::scopes::{Ids, use_broken};
use crate::seen::{Keys, Seen, below, is_owning, plain, same_object, same_ty};
use cert_kinds_types::{are_below, decl, fields, is_declared, lesser, states_broken, unless};
use vlt_base::{Boxed, Items, KeyId, StateSet, TypeId, VarId};
use vlt_core::{Expr, FieldDecl, Func, Operand, Program, Ty, TypeDecl, rules};
use vlt_kinds_queries::lies_within;
use vlt_ops::{Op, Takes, row};

/// The type of a variable, none where it is out of range.
pub fn var_type(f: &Func, v: VarId) -> Option<Seen<'_>>
    ensures { seen_some result ≡ lookups.var_type (func_of f.now) v.0 }
{
    match f.var_type(v) {
        None => None,
        Some(ty) => Some(plain(ty)),
    }
}

/// What a given type breaks that isn't the wanted one, where both are known.
pub fn misfit(wanted: Option<Seen>, given: Option<Seen>) -> Option<u8>
    ensures { result ≡ least (s.misfit (seen_some wanted.entry) (seen_some given.entry)) }
{
    match (wanted, given) {
        (Some(w), Some(t)) => unless(same_ty(w, t), rules::WRONG_TYPE),
        _ => None,
    }
}

fn type_below<'a>(args: &'a [KeyId], d: Option<&'a FieldDecl>) -> Option<Seen<'a>>
    ensures { seen_some result ≡ z.type_below (keys_of args.now)
        (option_map field_of (option_copied d.entry)) }
{
    match d {
        None => None,
        Some(d) => Some(below(args, &d.ty)),
    }
}

/// The field of a struct at a position, none where there is none.
pub fn field_at(p: &Program, t: TypeId, i: u32) -> Option<&FieldDecl>
    ensures { option_map field_of (option_copied result)
        ≡ slice_get (lookups.fields_of (program_of p.now) t.0) i }
{
    fields(p, t).get(i as usize)
}

/// The type of a field of a variable's object.
pub fn field_type<'a>(p: &'a Program, f: &'a Func, x: VarId, i: u32) -> Option<Seen<'a>>
    ensures { seen_some result ≡ s.field_type (program_of p.now) (func_of f.now) x.0 i }
{
    match f.var_type(x)? {
        Ty::Key(_, t, args) | Ty::Guard(_, t, args) => {
            type_below(args.as_slice(), field_at(p, *t, i))
        }
        _ => None,
    }
}

/// The type, where it is known and owns nothing.
pub fn unless_owning(ty: Option<Seen<'_>>) -> Option<Seen<'_>>
    ensures { seen_some result ≡ s.unless_owning (seen_some ty.entry) }
{
    match ty {
        None => None,
        Some(ty) => { if is_owning(ty) { None } else { Some(ty) } }
    }
}

fn given_by(op: Op) -> Seen<'static>
    ensures { seen_of result ≡ s.given_by op }
{
    if row(op).gives_int {
        Seen::Int
    } else {
        Seen::Bool
    }
}

/// The type of an expression's value, where it is known.
pub fn type_of_expr<'a>(p: &'a Program, f: &'a Func, e: &Expr) -> Option<Seen<'a>>
    ensures { seen_some result ≡ s.type_of_expr (program_of p.now) (func_of f.now)
        (expr_of e.now) }
{
    match e {
        Expr::Number(_) => Some(Seen::Int),
        Expr::Bool(_) => Some(Seen::Bool),
        Expr::Var(v) => unless_owning(var_type(f, *v)),
        Expr::Field(x, i) => unless_owning(field_type(p, f, *x, *i)),
        Expr::Un(op, _) => Some(given_by(*op)),
        Expr::Bin(op, _, _) => Some(given_by(*op)),
    }
}

fn is_basic(ty: Seen) -> bool
    ensures { result ≡ s.is_basic (seen_of ty.entry) }
{
    matches!(ty, Seen::Int | Seen::Bool)
}

fn basic_broken(ty: Option<Seen>) -> Option<u8>
    ensures { result ≡ least (s.basic_broken (seen_some ty.entry)) }
{
    match ty {
        None => None,
        Some(ty) => unless(is_basic(ty), rules::WRONG_TYPE),
    }
}

fn basic_only(ty: Option<Seen<'_>>) -> Option<Seen<'_>>
    ensures { seen_some result ≡ s.basic_only (seen_some ty.entry) }
{
    match ty {
        None => None,
        Some(ty) => { if is_basic(ty) { Some(ty) } else { None } }
    }
}

fn left_broken(takes: Takes, ty: Option<Seen>) -> Option<u8>
    ensures { result ≡ least (s.left_broken takes (seen_some ty.entry)) }
{
    match takes {
        Takes::Int => misfit(Some(Seen::Int), ty),
        Takes::Bool => misfit(Some(Seen::Bool), ty),
        Takes::Either => basic_broken(ty),
    }
}

fn right_wanted(takes: Takes, left: Option<Seen<'_>>) -> Option<Seen<'_>>
    ensures { seen_some result ≡ s.right_wanted takes (seen_some left.entry) }
{
    match takes {
        Takes::Int => Some(Seen::Int),
        Takes::Bool => Some(Seen::Bool),
        Takes::Either => basic_only(left),
    }
}

fn is_had_below(count: usize, states: StateSet, state: u8) -> bool
    ensures { result ≡ (not (nat_lt state count) || has_state states state) }
{
    !((state as usize) < count) || states.has(state)
}

fn are_had_below(count: usize, states: StateSet, numbers: &[u8]) -> bool
    ensures { result ≡ list_all (λ s. not (nat_lt s count) || has_state states s) numbers.now }
{
    for state in numbers {
        if !is_had_below(count, states, *state) {
            return false;
        }
    }
    true
}

fn has_all_below(count: usize, states: StateSet) -> bool
    ensures { result ≡ types.lies_within (λ s. nat_lt s count) (has_state states) }
{
    are_had_below(
        count,
        states,
        &[
            0, 1, 2, 3, 4, 5, 6, 7, 8, 9, 10, 11, 12, 13, 14, 15, 16, 17, 18, 19, 20, 21, 22, 23,
            24, 25, 26, 27, 28, 29, 30, 31,
        ],
    )
}

/// Whether a field is permitted in each state in which an object of the type may be released.
fn is_permitted(p: &Program, t: TypeId, states: StateSet) -> bool
    ensures { result ≡ types.lies_within (lookups.release_set (program_of p.now) t.0)
        (has_state states) }
{
    match decl(p, t) {
        Some(TypeDecl::Struct { release, .. }) => lies_within(*release, states),
        _ => has_all_below(p.state_count(t), states),
    }
}

fn tracked_touched(p: &Program, t: TypeId, i: u32) -> Option<u8>
    ensures { result ≡ least (z.tracked_touched (program_of p.now) t.0 i) }
{
    if is_declared(p, t) {
        unless(field_at(p, t, i).is_some(), rules::UNKNOWN_NAME)
    } else {
        None
    }
}

fn guarded_field(p: &Program, t: TypeId, i: u32) -> Option<u8>
    ensures { result ≡ least (z.guarded_field (program_of p.now) t.0
        (slice_get (lookups.fields_of (program_of p.now) t.0) i)) }
{
    match field_at(p, t, i) {
        None => Some(rules::UNKNOWN_NAME),
        Some(d) => unless(is_permitted(p, t, d.states), rules::GUARDED_FIELD),
    }
}

fn guarded_touched(p: &Program, t: TypeId, i: u32) -> Option<u8>
    ensures { result ≡ least (z.guarded_touched (program_of p.now) t.0 i) }
{
    if is_declared(p, t) {
        guarded_field(p, t, i)
    } else {
        None
    }
}

#[tactic(auto, using(crate::proofs::Parts::touched_tracked, crate::proofs::Parts::touched_guarded))]
fn type_touched(p: &Program, ty: &Ty, i: u32) -> Option<u8>
    ensures { result ≡ least (z.type_touched (program_of p.now) (ty_of ty.now) i) }
{
    match ty {
        Ty::Key(_, t, _) => tracked_touched(p, *t, i),
        Ty::Guard(_, t, _) => guarded_touched(p, *t, i),
        _ => Some(rules::WRONG_TYPE),
    }
}

fn object_touched(p: &Program, f: &Func, x: VarId, i: u32) -> Option<u8>
    ensures { result ≡ least (z.var_touched (program_of p.now)
        (lookups.var_type (func_of f.now) x.0) i) }
{
    match f.var_type(x) {
        None => None,
        Some(ty) => type_touched(p, ty, i),
    }
}

/// What a touch of a field of a variable's object breaks.
#[tactic(auto, using(cert_kinds_types::proofs::Smallest::joined, crate::proofs::Parts::touches))]
pub fn touch_broken(p: &Program, f: &Func, ids: &Ids, x: VarId, i: u32) -> Option<u8>
    ensures { result ≡ least (s.touch_broken (program_of p.now) (func_of f.now)
        (ids_of ids.now) x.0 i) }
{
    lesser(use_broken(f, ids, x), object_touched(p, f, x, i))
}

/// The rule, where the type is known and owns.
pub fn not_owning_broken(rule: u8, ty: Option<Seen>) -> Option<u8>
    ensures { result ≡ least (s.not_owning_broken rule (seen_some ty.entry)) }
{
    match ty {
        None => None,
        Some(ty) => unless(!is_owning(ty), rule),
    }
}

#[tactic(auto, using(cert_kinds_types::proofs::Smallest::joined))]
fn var_broken(f: &Func, ids: &Ids, v: VarId) -> Option<u8>
    ensures { result ≡ least (z.var_broken (func_of f.now) (ids_of ids.now) v.0) }
{
    lesser(
        use_broken(f, ids, v),
        not_owning_broken(rules::WRONG_TYPE, var_type(f, v)),
    )
}

#[tactic(auto, using(cert_kinds_types::proofs::Smallest::joined))]
fn field_broken(p: &Program, f: &Func, ids: &Ids, x: VarId, i: u32) -> Option<u8>
    ensures { result ≡ least (z.field_broken (program_of p.now) (func_of f.now)
        (ids_of ids.now) x.0 i) }
{
    lesser(
        touch_broken(p, f, ids, x, i),
        not_owning_broken(rules::WRONG_SWAP, field_type(p, f, x, i)),
    )
}

fn operands_broken(p: &Program, f: &Func, op: Op, a: &Expr) -> Option<u8>
    ensures { result ≡ least (s.left_broken (row_of op).takes
        (s.type_of_expr (program_of p.now) (func_of f.now) (expr_of a.now))) }
{
    left_broken(row(op).takes, type_of_expr(p, f, a))
}

fn right_broken(p: &Program, f: &Func, op: Op, a: &Expr, b: &Expr) -> Option<u8>
    ensures { result ≡ least (z.right_broken (program_of p.now) (func_of f.now) op
        (expr_of a.now) (expr_of b.now)) }
{
    misfit(
        right_wanted(row(op).takes, type_of_expr(p, f, a)),
        type_of_expr(p, f, b),
    )
}

/// What an expression breaks.
#[tactic(auto, using(cert_kinds_types::proofs::Smallest::joined))]
pub fn expr_broken(p: &Program, f: &Func, ids: &Ids, e: &Expr) -> Option<u8>
    ensures { result ≡ least (s.expr_broken (program_of p.now) (func_of f.now)
        (ids_of ids.now) (expr_of e.now)) }
{
    match e {
        Expr::Number(_) => None,
        Expr::Bool(_) => None,
        Expr::Var(v) => var_broken(f, ids, *v),
        Expr::Field(x, i) => field_broken(p, f, ids, *x, *i),
        Expr::Un(op, a) => lesser(
            expr_broken(p, f, ids, a.get()),
            operands_broken(p, f, *op, a.get()),
        ),
        Expr::Bin(op, a, b) => lesser(
            lesser(
                lesser(
                    expr_broken(p, f, ids, a.get()),
                    expr_broken(p, f, ids, b.get()),
                ),
                operands_broken(p, f, *op, a.get()),
            ),
            right_broken(p, f, *op, a.get(), b.get()),
        ),
    }
}

/// What an expression for a place of this type breaks.
#[tactic(auto, using(cert_kinds_types::proofs::Smallest::joined))]
pub fn value_broken(p: &Program, f: &Func, ids: &Ids, wanted: Option<Seen>, e: &Expr) -> Option<u8>
    ensures { result ≡ least (s.value_broken (program_of p.now) (func_of f.now)
        (ids_of ids.now) (seen_some wanted.entry) (expr_of e.now)) }
{
    lesser(
        expr_broken(p, f, ids, e),
        misfit(wanted, type_of_expr(p, f, e)),
    )
}
