//! Types.

ghost use Rattle.std.specs.Prelude.{◌≡◌, ◌≤◌, ℕ, map, option_map, IfOk, [], ◌∷◌, Some, None};
ghost use Rattle.serde_json.specs.View.{view};
ghost use Rattle.vlt_core.specs.Core as core;
ghost use Rattle.vlt_core.specs.View.{ty_of};
ghost use Rattle.cert_rows.specs.Values.{key_fields, own_fields, var_fields, if_empty, ty_of_tag, ty};
ghost use Rattle.cert_rows.specs.Rows.{result_of_tag};
ghost use Rattle.cert_read_decls.specs.Rows.{last_ty_of_tag};
ghost use Rattle.cert_rows.specs.Rows as rows;

use cert_read_parts::{array, id, key_list, mask, text, three, two};
use serde_json::Value;
use std::alloc::{AllocError, Global};
use vlt_base::{KeyId, TypeId};
use vlt_core::Ty;

fn key_type(alloc: Global, items: &[Value]) -> Result<Option<Ty>, AllocError>
    ensures { IfOk result (λ r. option_map ty_of r
        ≡ option_map (λ x. core.tracked x.0 x.1 x.2)
        (key_fields.of_items (map view items.now))) }
{
    let Some((k, t, args)) = three(items) else {
        return Ok(None);
    };
    let Some(k) = id(k) else {
        return Ok(None);
    };
    let Some(t) = id(t) else {
        return Ok(None);
    };
    let Some(args) = key_list(alloc, args)? else {
        return Ok(None);
    };
    Ok(Some(Ty::Key(KeyId(k), TypeId(t), args)))
}

fn own_type(alloc: Global, items: &[Value]) -> Result<Option<Ty>, AllocError>
    ensures { IfOk result (λ r. option_map ty_of r
        ≡ option_map (λ x. core.owning x.0 x.1 x.2) (own_fields.of_items (map view items.now))) }
{
    let Some((states, t, args)) = three(items) else {
        return Ok(None);
    };
    let Some(states) = mask(states) else {
        return Ok(None);
    };
    let Some(t) = id(t) else {
        return Ok(None);
    };
    let Some(args) = key_list(alloc, args)? else {
        return Ok(None);
    };
    Ok(Some(Ty::Own(states, TypeId(t), args)))
}

fn guard_type(alloc: Global, items: &[Value]) -> Result<Option<Ty>, AllocError>
    ensures { IfOk result (λ r. option_map ty_of r
        ≡ option_map (λ x. core.guarded x.0 x.1 x.2)
        (key_fields.of_items (map view items.now))) }
{
    let Some((k, t, args)) = three(items) else {
        return Ok(None);
    };
    let Some(k) = id(k) else {
        return Ok(None);
    };
    let Some(t) = id(t) else {
        return Ok(None);
    };
    let Some(args) = key_list(alloc, args)? else {
        return Ok(None);
    };
    Ok(Some(Ty::Guard(KeyId(k), TypeId(t), args)))
}

fn var_type(alloc: Global, items: &[Value]) -> Result<Option<Ty>, AllocError>
    ensures { IfOk result (λ r. option_map ty_of r
        ≡ option_map (λ x. core.variant x.0 x.1) (var_fields.of_items (map view items.now))) }
{
    let Some((t, args)) = two(items) else {
        return Ok(None);
    };
    let Some(t) = id(t) else {
        return Ok(None);
    };
    let Some(args) = key_list(alloc, args)? else {
        return Ok(None);
    };
    Ok(Some(Ty::Var(TypeId(t), args)))
}

fn own_var_type(alloc: Global, items: &[Value]) -> Result<Option<Ty>, AllocError>
    ensures { IfOk result (λ r. option_map ty_of r
        ≡ option_map (λ x. core.owning_variant x.0 x.1)
        (var_fields.of_items (map view items.now))) }
{
    let Some((t, args)) = two(items) else {
        return Ok(None);
    };
    let Some(t) = id(t) else {
        return Ok(None);
    };
    let Some(args) = key_list(alloc, args)? else {
        return Ok(None);
    };
    Ok(Some(Ty::OwnVar(TypeId(t), args)))
}

fn int_type(items: &[Value]) -> Option<Ty>
    ensures { option_map ty_of result ≡ if_empty core.int (map view items.now) }
{
    match items {
        [] => Some(Ty::Int),
        _ => None,
    }
}

fn bool_type(items: &[Value]) -> Option<Ty>
    ensures { option_map ty_of result ≡ if_empty core.bool (map view items.now) }
{
    match items {
        [] => Some(Ty::Bool),
        _ => None,
    }
}

fn last_ty_of_tag(alloc: Global, tag: &str, items: &[Value]) -> Result<Option<Ty>, AllocError>
    ensures { IfOk result (λ r. option_map ty_of r
        ≡ last_ty_of_tag tag.now (map view items.now)) }
{
    if tag == "guard" {
        return guard_type(alloc, items);
    }
    if tag == "var" {
        return var_type(alloc, items);
    }
    if tag == "ownvar" {
        return own_var_type(alloc, items);
    }
    Ok(None)
}

fn ty_of_tag(alloc: Global, tag: &str, items: &[Value]) -> Result<Option<Ty>, AllocError>
    ensures { IfOk result (λ r. option_map ty_of r ≡ ty_of_tag tag.now (map view items.now)) }
{
    if tag == "int" {
        return Ok(int_type(items));
    }
    if tag == "bool" {
        return Ok(bool_type(items));
    }
    if tag == "key" {
        return key_type(alloc, items);
    }
    if tag == "own" {
        return own_type(alloc, items);
    }
    last_ty_of_tag(alloc, tag, items)
}

pub(crate) fn ty(alloc: Global, v: &Value) -> Result<Option<Ty>, AllocError>
    ensures { IfOk result (λ r. option_map ty_of r ≡ ty.of_data (view v.now)) }
{
    let Some(items) = array(v) else {
        return Ok(None);
    };
    match items {
        [] => Ok(None),
        [t, rest @ ..] => match text(t) {
            Some(tag) => ty_of_tag(alloc, tag, rest),
            None => Ok(None),
        },
    }
}

fn no_result(items: &[Value]) -> Option<Option<Ty>>
    ensures { option_map (option_map ty_of) result ≡ if_empty None (map view items.now) }
{
    match items {
        [] => Some(None),
        _ => None,
    }
}

fn result_tag(alloc: Global, tag: &str, items: &[Value]) -> Result<Option<Option<Ty>>, AllocError>
    ensures { IfOk result (λ r. option_map (option_map ty_of) r
        ≡ result_of_tag tag.now (map view items.now)) }
{
    if tag == "void" {
        return Ok(no_result(items));
    }
    match ty_of_tag(alloc, tag, items)? {
        Some(t) => Ok(Some(Some(t))),
        None => Ok(None),
    }
}

/// What a function gives back; nothing where it is `void`.
pub(crate) fn result_type(alloc: Global, v: &Value) -> Result<Option<Option<Ty>>, AllocError>
    ensures { IfOk result (λ r. option_map (option_map ty_of) r
        ≡ rows.result.of_data (view v.now)) }
{
    let Some(items) = array(v) else {
        return Ok(None);
    };
    match items {
        [] => Ok(None),
        [t, rest @ ..] => match text(t) {
            Some(tag) => result_tag(alloc, tag, rest),
            None => Ok(None),
        },
    }
}
