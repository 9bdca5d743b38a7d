//! What `open x into ..;` breaks, whose variables are bound one after another.

ghost use Rattle.std.specs.Prelude.{◌≡◌, ◌==◌, map, filter, length, Some, slice_get, IfOk, OnOk};
ghost use Rattle.vlt_core.specs.View.{program_of, func_of, keys_of, vars_of, field_of};
ghost use Rattle.vlt_core.specs.Core as core;
ghost use Rattle.vlt_core.specs.Lookups as lookups;
ghost use Rattle.vlt_core.specs.Types as types;
ghost use Rattle.vlt_core.specs.KindedStatements as s;
ghost use Rattle.cert_kinds_types.specs.Least.{least};
ghost use Rattle.cert_kinds_exprs.specs.Scopes.{ids_of};
ghost use Rattle.cert_kinds_exprs.specs.Seen.{seen_some};
ghost use Rattle.cert_kinds_stmts.specs.Objects.{object_some};
ghost use Rattle.cert_kinds_stmts.specs.Opened as z;

use crate::objects::{Object, tracked_broken, tracked_object};
use cert_kinds_exprs::{Ids, Seen, below, binding_broken, misfit, var_type};
use cert_kinds_types::{decl, fields, lesser, unless};
use std::alloc::AllocError;
use vlt_base::{KeyId, TypeId, VarId};
use vlt_core::{FieldDecl, Func, Program, TypeDecl, rules};

/// Whether so many of the fields own.
fn has_owning(fields: &[FieldDecl], count: usize) -> bool
    ensures { result ≡ (length (filter (λ d. lookups.is_owning d.ty)
        (map field_of fields.now)) == count) }
{
    match fields {
        [] => count == 0,
        [d, rest @ ..] => {
            if d.ty.is_owning() {
                if count == 0 {
                    false
                } else {
                    has_owning(rest, count - 1)
                }
            } else {
                has_owning(rest, count)
            }
        }
    }
}

#[tactic(auto, using(crate::proofs::Owned::as_many))]
fn has_owning_types(p: &Program, t: TypeId, args: &[KeyId], count: usize) -> bool
    ensures { result ≡ (length (s.owning_field_types (program_of p.now) t.0
        (keys_of args.now)) == count) }
{
    let _ = args;
    has_owning(fields(p, t), count)
}

fn opened_at(p: &Program, t: TypeId, args: &[KeyId], count: usize) -> Option<u8>
    ensures { result ≡ least (z.opened_at (program_of p.now) count t.0 (keys_of args.now)) }
{
    match decl(p, t) {
        None => None,
        Some(TypeDecl::Struct { .. }) => unless(
            has_owning_types(p, t, args, count),
            rules::WRONG_COUNT,
        ),
        Some(_) => Some(rules::WRONG_RELEASE),
    }
}

fn opened_object(p: &Program, f: &Func, x: VarId, count: usize) -> Option<u8>
    ensures { result ≡ least (z.opened_object (program_of p.now) (func_of f.now) count x.0) }
{
    match tracked_object(f, x) {
        None => None,
        Some(o) => opened_at(p, o.type_id, o.args, count),
    }
}

/// The type of the field at a place among those that own.
fn owning_at<'a>(fields: &'a [FieldDecl], args: &'a [KeyId], place: usize) -> Option<Seen<'a>>
    ensures { seen_some result ≡ slice_get (filter lookups.is_owning
        (map (λ d. types.with_keys (keys_of args.now) d.ty) (map field_of fields.now))) place }
{
    match fields {
        [] => None,
        [d, rest @ ..] => {
            if d.ty.is_owning() {
                if place == 0 {
                    Some(below(args, &d.ty))
                } else {
                    owning_at(rest, args, place - 1)
                }
            } else {
                owning_at(rest, args, place)
            }
        }
    }
}

fn opened_type<'a>(p: &'a Program, object: Option<Object<'a>>, place: usize) -> Option<Seen<'a>>
    ensures { seen_some result ≡ slice_get
        (s.opened_types (program_of p.now) (object_some object.entry)) place }
{
    match object {
        None => None,
        Some(o) => owning_at(fields(p, o.type_id), o.args, place),
    }
}

/// What a variable breaks that takes a part of the wanted type, where that is known, and is bound.
#[tactic(auto, using(cert_kinds_types::proofs::Smallest::joined))]
pub fn opened_var_broken(f: &Func, ids: &Ids, wanted: Option<Seen>, v: VarId) -> Option<u8>
    ensures { result ≡ least (z.opened_var_broken (func_of f.now) (ids_of ids.now)
        (seen_some wanted.entry) v.0) }
{
    lesser(
        misfit(wanted, var_type(f, v)),
        binding_broken(f, ids, None, v),
    )
}

fn open_vars(
    p: &Program,
    f: &Func,
    ids: &mut Ids,
    object: Option<Object>,
    vars: &[VarId],
) -> Result<Option<u8>, AllocError>
    ensures broken { IfOk result (λ found. found ≡ least (s.opened_broken (program_of p.now)
        (func_of f.now) (ids_of ids.old)
        (s.opened_types (program_of p.now) (object_some object.entry)) (vars_of vars.now))) }
    ensures ids { OnOk result (ids_of ids.new ≡ s.with_bindings (func_of f.now)
        (vars_of vars.now) (ids_of ids.old)) }
{
    let mut found = None;
    for i in 0..vars.len() {
        let v = vars[i];
        found = lesser(
            found,
            opened_var_broken(f, ids, opened_type(p, object, i), v),
        );
        ids.bind(f, None, v)?;
    }
    Ok(found)
}

#[tactic(auto, using(cert_kinds_types::proofs::Smallest::joined, crate::proofs::Counts::as_many_vars))]
fn opened_broken(p: &Program, f: &Func, ids: &Ids, x: VarId, vars: &[VarId]) -> Option<u8>
    ensures { result ≡ least (z.open_broken (program_of p.now) (func_of f.now) (ids_of ids.now)
        x.0 (vars_of vars.now)) }
{
    lesser(
        tracked_broken(f, ids, rules::WRONG_RELEASE, x),
        opened_object(p, f, x, vars.len()),
    )
}

/// What `open x into ..;` breaks, whose variables are bound in the block at hand. An error is a
/// refused allocation.
#[tactic(auto, using(cert_kinds_types::proofs::Smallest::joined))]
pub fn open_broken(
    p: &Program,
    f: &Func,
    ids: &mut Ids,
    x: VarId,
    vars: &[VarId],
) -> Result<Option<u8>, AllocError>
    ensures broken { IfOk result (λ found. found ≡ least (s.simple_broken (program_of p.now)
        (func_of f.now) (ids_of ids.old) (core.open_into x.0 (vars_of vars.now)))) }
    ensures ids { OnOk result (ids_of ids.new ≡ s.ids_after (func_of f.now)
        (core.open_into x.0 (vars_of vars.now)) (ids_of ids.old)) }
{
    let first = opened_broken(p, f, ids, x, vars);
    let others = open_vars(p, f, ids, tracked_object(f, x), vars)?;
    Ok(lesser(first, others))
}
