//! What the rows of statements without blocks break, calls aside.

ghost use Rattle.std.specs.Prelude.{◌≡◌, ◌==◌, map, length, Some, None, option_map, if◌then◌else◌};
ghost use Rattle.std.specs.Option.{option_copied};
ghost use Rattle.vlt_core.specs.View.{program_of, func_of, ty_of, keys_of, field_of, expr_of, operand_of};
ghost use Rattle.vlt_core.specs.Core as core;
ghost use Rattle.vlt_core.specs.Lookups as lookups;
ghost use Rattle.vlt_core.specs.Types as types;
ghost use Rattle.vlt_core.specs.KindedHeads as heads;
ghost use Rattle.vlt_core.specs.KindedStatements as s;
ghost use Rattle.vlt_core.specs.KindedOperands as operands;
ghost use Rattle.vlt_core.specs.declared.rules.TheConstants as rule;
ghost use Rattle.vlt_kinds_queries.specs.Marks as m;
ghost use Rattle.cert_kinds_types.specs.Least.{least};
ghost use Rattle.cert_kinds_exprs.specs.Scopes.{ids_of};
ghost use Rattle.cert_kinds_exprs.specs.Seen.{seen_some};
ghost use Rattle.cert_kinds_stmts.specs.Statements as z;

use crate::objects::{
    case_broken, drop_broken, droppable_broken, guard_differs, guarded_object, made_wanted,
    objects_apart, owning_object, payload_wanted, tracked_broken, tracked_object, wants_guarded,
    wants_owning, wants_owning_object, wants_tracked, wants_variant,
};
use cert_kinds_exprs::{
    Ids, Seen, below, binding_broken, expr_broken, field_at, field_type, misfit, not_owning_broken,
    operand_broken, operands_broken, own_key, plain, target_broken, touch_broken, type_of_expr,
    unless_owning, use_broken, value_broken, var_type,
};
use cert_kinds_types::{decl, fields, lesser, state_broken, unless};
use vlt_base::{Items, KeyId, TypeId, VarId};
use vlt_core::{Expr, FieldDecl, Func, Operand, Program, Ty, TypeDecl, rules};

fn by_var(e: &Expr) -> Option<u8>
    ensures { result ≡ least (z.by_var (expr_of e.now)) }
{
    match e {
        Expr::Var(_) => None,
        _ => Some(rules::WRONG_TYPE),
    }
}

fn reference_set(ty: &Ty, e: &Expr) -> Option<u8>
    ensures { result ≡ least (z.reference_set (ty_of ty.now) (expr_of e.now)) }
{
    match ty {
        Ty::Key(_, _, _) => by_var(e),
        _ => None,
    }
}

#[tactic(auto, using(cert_kinds_types::proofs::Smallest::joined))]
fn set_type_broken(p: &Program, f: &Func, ty: &Ty, e: &Expr) -> Option<u8>
    ensures { result ≡ least (s.set_broken (program_of p.now) (func_of f.now)
        (Some (ty_of ty.now)) (expr_of e.now)) }
{
    if ty.is_owning() {
        Some(rules::WRONG_TYPE)
    } else {
        lesser(
            reference_set(ty, e),
            misfit(Some(plain(ty)), type_of_expr(p, f, e)),
        )
    }
}

fn set_value_broken(p: &Program, f: &Func, v: VarId, e: &Expr) -> Option<u8>
    ensures { result ≡ least (s.set_broken (program_of p.now) (func_of f.now)
        (lookups.var_type (func_of f.now) v.0) (expr_of e.now)) }
{
    match f.var_type(v) {
        None => None,
        Some(ty) => set_type_broken(p, f, ty, e),
    }
}

/// What `v = e;` breaks.
#[tactic(auto, using(cert_kinds_types::proofs::Smallest::joined))]
pub fn set_broken(p: &Program, f: &Func, ids: &Ids, v: VarId, e: &Expr) -> Option<u8>
    ensures { result ≡ least (s.simple_broken (program_of p.now) (func_of f.now)
        (ids_of ids.now) (core.set v.0 (expr_of e.now))) }
{
    lesser(
        lesser(expr_broken(p, f, ids, e), set_value_broken(p, f, v, e)),
        target_broken(f, ids, v),
    )
}

fn input_type(more: bool) -> Seen<'static>
    ensures { seen_some (Some result) ≡ Some (if more then core.bool else core.int) }
{
    if more { Seen::Bool } else { Seen::Int }
}

/// What `v = input();` or `v = more();` breaks.
#[tactic(auto, using(cert_kinds_types::proofs::Smallest::joined))]
pub fn input_broken(p: &Program, f: &Func, ids: &Ids, v: VarId, more: bool) -> Option<u8>
    ensures { result ≡ least (s.simple_broken (program_of p.now) (func_of f.now)
        (ids_of ids.now) (core.input v.0 more)) }
{
    lesser(
        misfit(Some(input_type(more)), var_type(f, v)),
        target_broken(f, ids, v),
    )
}

/// What `print(e);` breaks.
pub fn print_broken(p: &Program, f: &Func, ids: &Ids, e: &Expr) -> Option<u8>
    ensures { result ≡ least (s.simple_broken (program_of p.now) (func_of f.now)
        (ids_of ids.now) (core.print (expr_of e.now))) }
{
    value_broken(p, f, ids, Some(Seen::Int), e)
}

/// What `x.f = e;` breaks.
#[tactic(auto, using(cert_kinds_types::proofs::Smallest::joined))]
pub fn put_broken(p: &Program, f: &Func, ids: &Ids, x: VarId, i: u32, e: &Expr) -> Option<u8>
    ensures { result ≡ least (s.simple_broken (program_of p.now) (func_of f.now)
        (ids_of ids.now) (core.put x.0 i (expr_of e.now))) }
{
    lesser(
        lesser(
            lesser(expr_broken(p, f, ids, e), touch_broken(p, f, ids, x, i)),
            not_owning_broken(rules::WRONG_SWAP, field_type(p, f, x, i)),
        ),
        misfit(unless_owning(field_type(p, f, x, i)), type_of_expr(p, f, e)),
    )
}

fn made_struct_broken(p: &Program, t: TypeId, count: usize) -> Option<u8>
    ensures { result ≡ least (z.made_struct_broken (program_of p.now) count t.0) }
{
    match decl(p, t) {
        None => None,
        Some(TypeDecl::Struct { .. }) => unless(count == fields(p, t).len(), rules::WRONG_COUNT),
        Some(_) => Some(rules::WRONG_NEW),
    }
}

fn made_broken(p: &Program, f: &Func, x: VarId, count: usize) -> Option<u8>
    ensures { result ≡ least (s.made_broken (program_of p.now) count
        (lookups.var_type (func_of f.now) x.0)) }
{
    match f.var_type(x) {
        None => None,
        Some(Ty::Key(_, t, _)) => made_struct_broken(p, *t, count),
        Some(_) => Some(rules::WRONG_TYPE),
    }
}

#[tactic(auto, using(crate::proofs::Counts::as_many))]
fn made_count_broken(p: &Program, f: &Func, x: VarId, args: &[Operand]) -> Option<u8>
    ensures { result ≡ least (s.made_broken (program_of p.now)
        (length (map operand_of args.now)) (lookups.var_type (func_of f.now) x.0)) }
{
    made_broken(p, f, x, args.len())
}

fn made_operands_broken(p: &Program, f: &Func, ids: &Ids, x: VarId, args: &[Operand]) -> Option<u8>
    ensures { result ≡ least (operands.operands_broken (program_of p.now) (func_of f.now)
        (ids_of ids.now) (s.made_types (program_of p.now) (lookups.var_type (func_of f.now) x.0))
        (map operand_of args.now)) }
{
    operands_broken(p, f, ids, made_wanted(p, f, x), args)
}

/// What `tracked(K) T x = new T { .. };` breaks.
#[tactic(auto, using(cert_kinds_types::proofs::Smallest::joined))]
pub fn make_broken(p: &Program, f: &Func, ids: &Ids, x: VarId, args: &[Operand]) -> Option<u8>
    ensures { result ≡ least (s.simple_broken (program_of p.now) (func_of f.now)
        (ids_of ids.now) (core.make x.0 (map operand_of args.now))) }
{
    lesser(
        lesser(
            made_count_broken(p, f, x, args),
            made_operands_broken(p, f, ids, x, args),
        ),
        binding_broken(f, ids, own_key(f, x), x),
    )
}

fn become_at(p: &Program, t: TypeId, state: u8) -> Option<u8>
    ensures { result ≡ least (z.become_at (program_of p.now) t.0 state) }
{
    match decl(p, t) {
        None => None,
        Some(TypeDecl::Struct { .. }) => state_broken(p, t, state),
        Some(_) => Some(rules::WRONG_BECOME),
    }
}

fn become_object(p: &Program, f: &Func, x: VarId, state: u8) -> Option<u8>
    ensures { result ≡ least (z.become_object (program_of p.now) (func_of f.now) x.0 state) }
{
    match tracked_object(f, x) {
        None => None,
        Some(o) => become_at(p, o.type_id, state),
    }
}

/// What `become x@s;` breaks.
#[tactic(auto, using(cert_kinds_types::proofs::Smallest::joined))]
pub fn become_broken(p: &Program, f: &Func, ids: &Ids, x: VarId, state: u8) -> Option<u8>
    ensures { result ≡ least (s.simple_broken (program_of p.now) (func_of f.now)
        (ids_of ids.now) (core.become x.0 state)) }
{
    lesser(
        tracked_broken(f, ids, rules::WRONG_BECOME, x),
        become_object(p, f, x, state),
    )
}

/// What `release x;` of a reference breaks.
#[tactic(auto, using(cert_kinds_types::proofs::Smallest::joined))]
pub fn release_broken(p: &Program, marks: &[bool], f: &Func, ids: &Ids, x: VarId) -> Option<u8>
    requires { m.AreMarks (program_of p.now) marks.now }
    ensures { result ≡ least (s.simple_broken (program_of p.now) (func_of f.now)
        (ids_of ids.now) (core.release x.0)) }
{
    lesser(
        tracked_broken(f, ids, rules::WRONG_RELEASE, x),
        droppable_broken(p, marks, f, x),
    )
}

/// What `release v;` of an owning variable breaks.
#[tactic(auto, using(cert_kinds_types::proofs::Smallest::joined))]
pub fn dropped_broken(p: &Program, marks: &[bool], f: &Func, ids: &Ids, v: VarId) -> Option<u8>
    requires { m.AreMarks (program_of p.now) marks.now }
    ensures { result ≡ least (s.simple_broken (program_of p.now) (func_of f.now)
        (ids_of ids.now) (core.drop v.0)) }
{
    lesser(use_broken(f, ids, v), drop_broken(p, marks, f, v))
}

fn own_wanted(f: &Func, v: VarId) -> Option<Seen<'_>>
    ensures { seen_some result ≡ z.own_wanted (func_of f.now) v.0 }
{
    if f.is_owning_var(v) {
        var_type(f, v)
    } else {
        None
    }
}

/// What `tracked@S T v = ..;` breaks.
#[tactic(auto, using(cert_kinds_types::proofs::Smallest::joined))]
pub fn own_broken(p: &Program, f: &Func, ids: &Ids, v: VarId, value: &Operand) -> Option<u8>
    ensures { result ≡ least (s.simple_broken (program_of p.now) (func_of f.now)
        (ids_of ids.now) (core.own v.0 (operand_of value.now))) }
{
    lesser(
        lesser(
            wants_owning(f, v),
            operand_broken(p, f, ids, own_wanted(f, v), value),
        ),
        target_broken(f, ids, v),
    )
}

#[tactic(auto, using(cert_kinds_types::proofs::Smallest::joined))]
fn unpacked_types(f: &Func, ids: &Ids, x: VarId, v: VarId) -> Option<u8>
    ensures { result ≡ least (z.unpacked_types (func_of f.now) (ids_of ids.now) x.0 v.0) }
{
    lesser(
        lesser(use_broken(f, ids, v), wants_owning_object(f, v)),
        wants_tracked(f, x),
    )
}

/// What `tracked(K) T x = v;` breaks.
#[tactic(auto, using(cert_kinds_types::proofs::Smallest::joined))]
pub fn unpack_broken(p: &Program, f: &Func, ids: &Ids, x: VarId, v: VarId) -> Option<u8>
    ensures { result ≡ least (s.simple_broken (program_of p.now) (func_of f.now)
        (ids_of ids.now) (core.unpack x.0 v.0)) }
{
    lesser(
        lesser(
            unpacked_types(f, ids, x, v),
            objects_apart(owning_object(f, v), tracked_object(f, x)),
        ),
        binding_broken(f, ids, own_key(f, x), x),
    )
}

#[tactic(auto, using(crate::proofs::Counts::as_many))]
fn case_count_broken(p: &Program, f: &Func, v: VarId, case: u8, args: &[Operand]) -> Option<u8>
    ensures { result ≡ least (s.case_broken (program_of p.now) case
        (length (map operand_of args.now))
        (s.variant_args (lookups.var_type (func_of f.now) v.0))) }
{
    case_broken(p, f, v, case, args.len())
}

fn case_operands_broken(
    p: &Program,
    f: &Func,
    ids: &Ids,
    v: VarId,
    case: u8,
    args: &[Operand],
) -> Option<u8>
    ensures { result ≡ least (operands.operands_broken (program_of p.now) (func_of f.now)
        (ids_of ids.now) (s.payload_types (program_of p.now)
        (s.variant_args (lookups.var_type (func_of f.now) v.0)) case)
        (map operand_of args.now)) }
{
    operands_broken(p, f, ids, payload_wanted(p, f, v, case), args)
}

/// What `v = 'Case(..);` breaks.
#[tactic(auto, using(cert_kinds_types::proofs::Smallest::joined))]
pub fn build_broken(
    p: &Program,
    f: &Func,
    ids: &Ids,
    v: VarId,
    case: u8,
    args: &[Operand],
) -> Option<u8>
    ensures { result ≡ least (s.simple_broken (program_of p.now) (func_of f.now)
        (ids_of ids.now) (core.build v.0 case (map operand_of args.now))) }
{
    lesser(
        lesser(
            lesser(wants_variant(f, v), case_count_broken(p, f, v, case, args)),
            case_operands_broken(p, f, ids, v, case, args),
        ),
        target_broken(f, ids, v),
    )
}

fn swapped_field(f: &Func, args: &[KeyId], d: Option<&FieldDecl>, v: VarId) -> Option<u8>
    ensures { result ≡ least (z.swapped_field (func_of f.now) v.0
        (option_map field_of (option_copied d.entry)) (keys_of args.now)) }
{
    match d {
        None => Some(rules::UNKNOWN_NAME),
        Some(d) => {
            if d.ty.is_owning() {
                misfit(Some(below(args, &d.ty)), var_type(f, v))
            } else {
                Some(rules::WRONG_SWAP)
            }
        }
    }
}

fn swap_at(p: &Program, f: &Func, t: TypeId, args: &[KeyId], i: u32, v: VarId) -> Option<u8>
    ensures { result ≡ least (z.swap_at (program_of p.now) (func_of f.now) i v.0 t.0
        (keys_of args.now)) }
{
    match decl(p, t) {
        None => None,
        Some(TypeDecl::Struct { .. }) => swapped_field(f, args, field_at(p, t, i), v),
        Some(_) => Some(rules::WRONG_SWAP),
    }
}

fn swap_object(p: &Program, f: &Func, x: VarId, i: u32, v: VarId) -> Option<u8>
    ensures { result ≡ least (s.swap_broken (program_of p.now) (func_of f.now) x.0 i v.0) }
{
    match tracked_object(f, x) {
        None => None,
        Some(o) => swap_at(p, f, o.type_id, o.args, i, v),
    }
}

/// What `swap x.f, v;` breaks.
#[tactic(auto, using(cert_kinds_types::proofs::Smallest::joined))]
pub fn swap_broken(p: &Program, f: &Func, ids: &Ids, x: VarId, i: u32, v: VarId) -> Option<u8>
    ensures { result ≡ least (s.simple_broken (program_of p.now) (func_of f.now)
        (ids_of ids.now) (core.swap x.0 i v.0)) }
{
    lesser(
        lesser(
            tracked_broken(f, ids, rules::WRONG_SWAP, x),
            use_broken(f, ids, v),
        ),
        swap_object(p, f, x, i, v),
    )
}

#[tactic(auto, using(cert_kinds_types::proofs::Smallest::joined))]
fn adopted_broken(
    p: &Program,
    marks: &[bool],
    f: &Func,
    ids: &Ids,
    x: VarId,
    r: VarId,
) -> Option<u8>
    requires { m.AreMarks (program_of p.now) marks.now }
    ensures { result ≡ least (z.adopted_broken (program_of p.now) (func_of f.now)
        (ids_of ids.now) x.0 r.0) }
{
    lesser(
        lesser(
            tracked_broken(f, ids, rules::WRONG_TYPE, x),
            tracked_broken(f, ids, rules::WRONG_TYPE, r),
        ),
        droppable_broken(p, marks, f, x),
    )
}

/// What `G:T y = adopt x into r;` breaks.
#[tactic(auto, using(cert_kinds_types::proofs::Smallest::joined))]
pub fn adopt_broken(
    p: &Program,
    marks: &[bool],
    f: &Func,
    ids: &Ids,
    y: VarId,
    x: VarId,
    r: VarId,
) -> Option<u8>
    requires { m.AreMarks (program_of p.now) marks.now }
    ensures { result ≡ least (s.simple_broken (program_of p.now) (func_of f.now)
        (ids_of ids.now) (core.adopt y.0 x.0 r.0)) }
{
    lesser(
        lesser(
            lesser(
                lesser(adopted_broken(p, marks, f, ids, x, r), wants_guarded(f, y)),
                objects_apart(guarded_object(f, y), tracked_object(f, x)),
            ),
            guard_differs(f, y, r),
        ),
        target_broken(f, ids, y),
    )
}
