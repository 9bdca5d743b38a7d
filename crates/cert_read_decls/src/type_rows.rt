//! Rows of types and of cases.

ghost use Rattle.std.specs.Prelude.{◌≡◌, ◌≤◌, ℕ, map, option_map, IfOk, [], ◌∷◌, Some, None};
ghost use Rattle.serde_json.specs.View.{view};
ghost use Rattle.cert_rows.specs.Parts.{minus_or, five_in};
ghost use Rattle.cert_rows.specs.Values as s;
ghost use Rattle.cert_rows.specs.Rows.{abstract_fields, struct_fields, variant_fields, case_fields};
ghost use Rattle.cert_read_decls.specs.Rows.{count_of_cases, struct_fields_of, variant_fields_of, abstract_fields_of, case_fields_of};

use crate::lists::{case_keys, fields, header, payload};
use crate::names::name;
use cert_read_parts::{id_or_none, mask, number_u32, three, two};
use serde_json::Value;
use std::alloc::{AllocError, Global};
use vlt_base::{Items, SetId, StateSet, TypeId};
use vlt_core::{CaseDecl, FieldDecl};

/// A type without a body.
#[derive(Drop)]
pub struct AbstractRow {
    pub name: Items<u8>,
    pub set: Option<SetId>,
}

#[derive(Drop)]
pub struct StructRow {
    pub name: Items<u8>,
    pub header: Items<Option<TypeId>>,
    pub set: Option<SetId>,
    pub release: StateSet,
    pub fields: Items<FieldDecl>,
}

/// A variant, and how many cases follow it.
#[derive(Drop)]
pub struct VariantRow {
    pub name: Items<u8>,
    pub header: Items<Option<TypeId>>,
    pub cases: u32,
}

fn five<'a>(items: &'a [Value]) -> Option<(&'a Value, &'a Value, &'a Value, &'a Value, &'a Value)>
    ensures { option_map (λ p. (
      view p.0.now,
      view p.1.now,
      view p.2.now,
      view p.3.now,
      view p.4.now,
    )) result
        ≡ five_in (map view items.now) }
{
    match items {
        [a, b, c, d, e] => Some((a, b, c, d, e)),
        _ => None,
    }
}

/// The number of a set, or -1.
fn set_or_none(v: &Value) -> Option<Option<SetId>>
    ensures { option_map (option_map (λ i. i.0)) result ≡ (minus_or s.id).of_data (view v.now) }
{
    match id_or_none(v)? {
        Some(i) => Some(Some(SetId(i))),
        None => Some(None),
    }
}

pub(crate) fn abstract_row(
    alloc: Global,
    items: &[Value],
) -> Result<Option<AbstractRow>, AllocError>
    ensures { IfOk result (λ r. option_map abstract_fields_of r
        ≡ abstract_fields.of_items (map view items.now)) }
{
    let Some((n, set)) = two(items) else {
        return Ok(None);
    };
    let Some(name) = name(alloc, n)? else {
        return Ok(None);
    };
    let Some(set) = set_or_none(set) else {
        return Ok(None);
    };
    Ok(Some(AbstractRow { name, set }))
}

pub(crate) fn struct_row(alloc: Global, items: &[Value]) -> Result<Option<StructRow>, AllocError>
    ensures { IfOk result (λ r. option_map struct_fields_of r
        ≡ struct_fields.of_items (map view items.now)) }
{
    let Some((n, h, set, release, fields_at)) = five(items) else {
        return Ok(None);
    };
    let Some(name) = name(alloc, n)? else {
        return Ok(None);
    };
    let Some(header) = header(alloc, h)? else {
        return Ok(None);
    };
    let Some(set) = set_or_none(set) else {
        return Ok(None);
    };
    let Some(release) = mask(release) else {
        return Ok(None);
    };
    let Some(fields) = fields(alloc, fields_at)? else {
        return Ok(None);
    };
    Ok(Some(StructRow {
        name,
        header,
        set,
        release,
        fields,
    }))
}

fn case_count(v: &Value) -> Option<u32>
    ensures { result ≡ count_of_cases.of_data (view v.now) }
{
    let n = number_u32(v, 32)?;
    if n == 0 { None } else { Some(n) }
}

pub(crate) fn variant_row(alloc: Global, items: &[Value]) -> Result<Option<VariantRow>, AllocError>
    ensures { IfOk result (λ r. option_map variant_fields_of r
        ≡ variant_fields.of_items (map view items.now)) }
{
    let Some((n, h, cases)) = three(items) else {
        return Ok(None);
    };
    let Some(name) = name(alloc, n)? else {
        return Ok(None);
    };
    let Some(header) = header(alloc, h)? else {
        return Ok(None);
    };
    let Some(cases) = case_count(cases) else {
        return Ok(None);
    };
    Ok(Some(VariantRow {
        name,
        header,
        cases,
    }))
}

pub(crate) fn case_row(alloc: Global, items: &[Value]) -> Result<Option<CaseDecl>, AllocError>
    ensures { IfOk result (λ r. option_map case_fields_of r
        ≡ case_fields.of_items (map view items.now)) }
{
    let Some((n, p, k)) = three(items) else {
        return Ok(None);
    };
    let Some(name) = name(alloc, n)? else {
        return Ok(None);
    };
    let Some(payload) = payload(alloc, p)? else {
        return Ok(None);
    };
    let Some(keys) = case_keys(alloc, k)? else {
        return Ok(None);
    };
    Ok(Some(CaseDecl {
        name,
        payload,
        keys,
    }))
}
