//! Lists of parts.

ghost use Rattle.std.specs.Prelude.{◌≡◌, ◌≤◌, ℕ, map, option_map, IfOk, [], ◌∷◌, Some, None};
ghost use Rattle.serde_json.specs.View.{view};
ghost use Rattle.vlt_core.specs.View.{ty_of, link_of, field_of, case_key_of, key_of, var_of, entry_of, header_of};
ghost use Rattle.cert_rows.specs.Parts.{text, each_in, several, few, minus_or};
ghost use Rattle.cert_rows.specs.Values as s;
ghost use Rattle.cert_rows.specs.Values.{id};
ghost use Rattle.cert_rows.specs.Rows as rows;

use crate::names::name;
use crate::types::ty;
use crate::values::{case_key, entry, field, key_decl, link, type_or_none, var_decl};
use cert_read_parts::array;
use serde_json::Value;
use std::alloc::{AllocError, Global};
use vlt_base::{Items, StateSet, TypeId};
use vlt_core::{Entry, FieldDecl, KeyDecl, Link, Ty, VarDecl};

fn each_header(alloc: Global, items: &[Value]) -> Result<Option<Items<Option<TypeId>>>, AllocError>
    ensures { IfOk result (λ r. option_map header_of r
        ≡ each_in (minus_or id).of_data (map view items.now)) }
{
    let mut out = Items::new(alloc);
    for v in items {
        let Some(x) = type_or_none(v) else {
            return Ok(None);
        };
        out.push(x)?;
    }
    Ok(Some(out))
}

pub(crate) fn header(alloc: Global, v: &Value) -> Result<Option<Items<Option<TypeId>>>, AllocError>
    ensures { IfOk result (λ r. option_map header_of r
        ≡ (few 16 (minus_or id)).of_data (view v.now)) }
{
    let Some(items) = array(v) else {
        return Ok(None);
    };
    let Some(list) = each_header(alloc, items)? else {
        return Ok(None);
    };
    if list.len() <= 16 {
        Ok(Some(list))
    } else {
        Ok(None)
    }
}

fn each_fields(alloc: Global, items: &[Value]) -> Result<Option<Items<FieldDecl>>, AllocError>
    ensures { IfOk result (λ r. option_map (map field_of) r
        ≡ each_in s.field.of_data (map view items.now)) }
{
    let mut out = Items::new(alloc);
    for v in items {
        let Some(x) = field(alloc, v)? else {
            return Ok(None);
        };
        out.push(x)?;
    }
    Ok(Some(out))
}

pub(crate) fn fields(alloc: Global, v: &Value) -> Result<Option<Items<FieldDecl>>, AllocError>
    ensures { IfOk result (λ r. option_map (map field_of) r
        ≡ (few 32 s.field).of_data (view v.now)) }
{
    let Some(items) = array(v) else {
        return Ok(None);
    };
    let Some(list) = each_fields(alloc, items)? else {
        return Ok(None);
    };
    if list.len() <= 32 {
        Ok(Some(list))
    } else {
        Ok(None)
    }
}

fn each_payload(alloc: Global, items: &[Value]) -> Result<Option<Items<Ty>>, AllocError>
    ensures { IfOk result (λ r. option_map (map ty_of) r
        ≡ each_in s.ty.of_data (map view items.now)) }
{
    let mut out = Items::new(alloc);
    for v in items {
        let Some(x) = ty(alloc, v)? else {
            return Ok(None);
        };
        out.push(x)?;
    }
    Ok(Some(out))
}

pub(crate) fn payload(alloc: Global, v: &Value) -> Result<Option<Items<Ty>>, AllocError>
    ensures { IfOk result (λ r. option_map (map ty_of) r
        ≡ (few 8 s.ty).of_data (view v.now)) }
{
    let Some(items) = array(v) else {
        return Ok(None);
    };
    let Some(list) = each_payload(alloc, items)? else {
        return Ok(None);
    };
    if list.len() <= 8 {
        Ok(Some(list))
    } else {
        Ok(None)
    }
}

fn each_case_keys(
    alloc: Global,
    items: &[Value],
) -> Result<Option<Items<(u32, StateSet)>>, AllocError>
    ensures { IfOk result (λ r. option_map (map case_key_of) r
        ≡ each_in s.case_key.of_data (map view items.now)) }
{
    let mut out = Items::new(alloc);
    for v in items {
        let Some(x) = case_key(v) else {
            return Ok(None);
        };
        out.push(x)?;
    }
    Ok(Some(out))
}

pub(crate) fn case_keys(
    alloc: Global,
    v: &Value,
) -> Result<Option<Items<(u32, StateSet)>>, AllocError>
    ensures { IfOk result (λ r. option_map (map case_key_of) r
        ≡ (several s.case_key).of_data (view v.now)) }
{
    let Some(items) = array(v) else {
        return Ok(None);
    };
    each_case_keys(alloc, items)
}

fn each_key_decls(alloc: Global, items: &[Value]) -> Result<Option<Items<KeyDecl>>, AllocError>
    ensures { IfOk result (λ r. option_map (map key_of) r
        ≡ each_in s.key_decl.of_data (map view items.now)) }
{
    let mut out = Items::new(alloc);
    for v in items {
        let Some(x) = key_decl(alloc, v)? else {
            return Ok(None);
        };
        out.push(x)?;
    }
    Ok(Some(out))
}

pub(crate) fn key_decls(alloc: Global, v: &Value) -> Result<Option<Items<KeyDecl>>, AllocError>
    ensures { IfOk result (λ r. option_map (map key_of) r
        ≡ (few 256 s.key_decl).of_data (view v.now)) }
{
    let Some(items) = array(v) else {
        return Ok(None);
    };
    let Some(list) = each_key_decls(alloc, items)? else {
        return Ok(None);
    };
    if list.len() <= 256 {
        Ok(Some(list))
    } else {
        Ok(None)
    }
}

fn each_var_decls(alloc: Global, items: &[Value]) -> Result<Option<Items<VarDecl>>, AllocError>
    ensures { IfOk result (λ r. option_map (map var_of) r
        ≡ each_in s.var_decl.of_data (map view items.now)) }
{
    let mut out = Items::new(alloc);
    for v in items {
        let Some(x) = var_decl(alloc, v)? else {
            return Ok(None);
        };
        out.push(x)?;
    }
    Ok(Some(out))
}

pub(crate) fn var_decls(alloc: Global, v: &Value) -> Result<Option<Items<VarDecl>>, AllocError>
    ensures { IfOk result (λ r. option_map (map var_of) r
        ≡ (few 256 s.var_decl).of_data (view v.now)) }
{
    let Some(items) = array(v) else {
        return Ok(None);
    };
    let Some(list) = each_var_decls(alloc, items)? else {
        return Ok(None);
    };
    if list.len() <= 256 {
        Ok(Some(list))
    } else {
        Ok(None)
    }
}

fn each_clause(
    alloc: Global,
    ordered: bool,
    items: &[Value],
) -> Result<Option<Items<Entry>>, AllocError>
    ensures { IfOk result (λ r. option_map (map entry_of) r
        ≡ each_in (s.entry ordered).of_data (map view items.now)) }
{
    let mut out = Items::new(alloc);
    for v in items {
        let Some(x) = entry(v, ordered) else {
            return Ok(None);
        };
        out.push(x)?;
    }
    Ok(Some(out))
}

pub(crate) fn clause(
    alloc: Global,
    ordered: bool,
    v: &Value,
) -> Result<Option<Items<Entry>>, AllocError>
    ensures { IfOk result (λ r. option_map (map entry_of) r
        ≡ (several (s.entry ordered)).of_data (view v.now)) }
{
    let Some(items) = array(v) else {
        return Ok(None);
    };
    each_clause(alloc, ordered, items)
}

fn each_links(alloc: Global, items: &[Value]) -> Result<Option<Items<Link>>, AllocError>
    ensures { IfOk result (λ r. option_map (map link_of) r
        ≡ each_in rows.link.of_data (map view items.now)) }
{
    let mut out = Items::new(alloc);
    for v in items {
        let Some(x) = link(v) else {
            return Ok(None);
        };
        out.push(x)?;
    }
    Ok(Some(out))
}

pub(crate) fn links(alloc: Global, v: &Value) -> Result<Option<Items<Link>>, AllocError>
    ensures { IfOk result (λ r. option_map (map link_of) r
        ≡ (few 31 rows.link).of_data (view v.now)) }
{
    let Some(items) = array(v) else {
        return Ok(None);
    };
    let Some(list) = each_links(alloc, items)? else {
        return Ok(None);
    };
    if list.len() <= 31 {
        Ok(Some(list))
    } else {
        Ok(None)
    }
}

fn each_texts(alloc: Global, items: &[Value]) -> Result<Option<Items<Items<u8>>>, AllocError>
    ensures { IfOk result (λ r. option_map (map (λ n. n)) r
        ≡ each_in text.of_data (map view items.now)) }
{
    let mut out = Items::new(alloc);
    for v in items {
        let Some(x) = name(alloc, v)? else {
            return Ok(None);
        };
        out.push(x)?;
    }
    Ok(Some(out))
}

pub(crate) fn texts(alloc: Global, v: &Value) -> Result<Option<Items<Items<u8>>>, AllocError>
    ensures { IfOk result (λ r. option_map (map (λ n. n)) r
        ≡ (few 32 text).of_data (view v.now)) }
{
    let Some(items) = array(v) else {
        return Ok(None);
    };
    let Some(list) = each_texts(alloc, items)? else {
        return Ok(None);
    };
    if list.len() <= 32 {
        Ok(Some(list))
    } else {
        Ok(None)
    }
}
