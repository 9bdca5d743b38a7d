//! Rows of declarations, and of the version.

ghost use Rattle.std.specs.Prelude.{◌≡◌, ◌≤◌, ℕ, map, option_map, IfOk, [], ◌∷◌, Some, None};
ghost use Rattle.serde_json.specs.View.{view};
ghost use Rattle.vlt_core.specs.View.{case_of};
ghost use Rattle.cert_rows.specs.Rows as rows;
ghost use Rattle.cert_rows.specs.Rows.{set_fields, version_fields, abstract_fields, struct_fields, variant_fields, case_fields, fn_fields, extern_fields};
ghost use Rattle.cert_read_decls.specs.Rows.{row_of, type_row_of_tag, decl_of_tag, decl_of_data};

use crate::fn_rows::{FnRow, function_row};
use crate::sets::set_row;
use crate::type_rows::{
    AbstractRow, StructRow, VariantRow, abstract_row, case_row, struct_row, variant_row,
};
use cert_read_parts::{array, number_u32, one, text};
use serde_json::Value;
use std::alloc::{AllocError, Global};
use vlt_base::Boxed;
use vlt_core::{CaseDecl, SetDecl};

/// A row of a declaration, or of the version.
#[derive(Drop)]
pub enum DeclRow {
    Version(bool),
    States(SetDecl),
    Abstract(AbstractRow),
    Struct(StructRow),
    Variant(VariantRow),
    Case(CaseDecl),
    Fn(Boxed<FnRow>),
    Extern(Boxed<FnRow>),
}

/// The version, true where sets have links and entries can be bound.
fn version_row(items: &[Value]) -> Option<bool>
    ensures { result ≡ version_fields.of_items (map view items.now) }
{
    let v = one(items)?;
    let n = number_u32(v, 2)?;
    if n == 0 { None } else { Some(n == 2) }
}

fn states_decl(alloc: Global, ordered: bool, items: &[Value]) -> Result<Option<DeclRow>, AllocError>
    ensures { IfOk result (λ r. option_map row_of r
        ≡ option_map rows.states ((set_fields ordered).of_items (map view items.now))) }
{
    match set_row(alloc, ordered, items)? {
        Some(row) => Ok(Some(DeclRow::States(row))),
        None => Ok(None),
    }
}

fn abstract_decl(alloc: Global, items: &[Value]) -> Result<Option<DeclRow>, AllocError>
    ensures { IfOk result (λ r. option_map row_of r
        ≡ option_map (λ x. rows.abstract_type x.0 x.1)
        (abstract_fields.of_items (map view items.now))) }
{
    match abstract_row(alloc, items)? {
        Some(row) => Ok(Some(DeclRow::Abstract(row))),
        None => Ok(None),
    }
}

fn struct_decl(alloc: Global, items: &[Value]) -> Result<Option<DeclRow>, AllocError>
    ensures { IfOk result (λ r. option_map row_of r
        ≡ option_map (λ x. rows.struct_type (record {
          name = x.0;
          header = x.1;
          set = x.2;
          release = x.3;
          fields = x.4;
        }))
        (struct_fields.of_items (map view items.now))) }
{
    match struct_row(alloc, items)? {
        Some(row) => Ok(Some(DeclRow::Struct(row))),
        None => Ok(None),
    }
}

fn variant_decl(alloc: Global, items: &[Value]) -> Result<Option<DeclRow>, AllocError>
    ensures { IfOk result (λ r. option_map row_of r
        ≡ option_map (λ x. rows.variant_type x.0 x.1 x.2)
        (variant_fields.of_items (map view items.now))) }
{
    match variant_row(alloc, items)? {
        Some(row) => Ok(Some(DeclRow::Variant(row))),
        None => Ok(None),
    }
}

fn case_decl(alloc: Global, items: &[Value]) -> Result<Option<DeclRow>, AllocError>
    ensures { IfOk result (λ r. option_map row_of r
        ≡ option_map (λ x. rows.case_of (record { name = x.0; payload = x.1; keys = x.2 }))
        (case_fields.of_items (map view items.now))) }
{
    match case_row(alloc, items)? {
        Some(row) => Ok(Some(DeclRow::Case(row))),
        None => Ok(None),
    }
}

#[tactic(auto, using(crate::proofs::Orders::fn_row_is))]
fn fn_decl(alloc: Global, ordered: bool, items: &[Value]) -> Result<Option<DeclRow>, AllocError>
    ensures { IfOk result (λ r. option_map row_of r
        ≡ option_map rows.function ((fn_fields ordered).of_items (map view items.now))) }
{
    match function_row(alloc, ordered, false, items)? {
        Some(row) => Ok(Some(DeclRow::Fn(Boxed::new(alloc, row)?))),
        None => Ok(None),
    }
}

#[tactic(auto, using(crate::proofs::Orders::extern_row_is))]
fn extern_decl(alloc: Global, ordered: bool, items: &[Value]) -> Result<Option<DeclRow>, AllocError>
    ensures { IfOk result (λ r. option_map row_of r
        ≡ option_map rows.external ((extern_fields ordered).of_items (map view items.now))) }
{
    match function_row(alloc, ordered, true, items)? {
        Some(row) => Ok(Some(DeclRow::Extern(Boxed::new(alloc, row)?))),
        None => Ok(None),
    }
}

fn type_row_of_tag(alloc: Global, tag: &str, items: &[Value]) -> Result<Option<DeclRow>, AllocError>
    ensures { IfOk result (λ r. option_map row_of r
        ≡ type_row_of_tag tag.now (map view items.now)) }
{
    if tag == "abstract" {
        return abstract_decl(alloc, items);
    }
    if tag == "struct" {
        return struct_decl(alloc, items);
    }
    if tag == "variant" {
        return variant_decl(alloc, items);
    }
    if tag == "case" {
        return case_decl(alloc, items);
    }
    Ok(None)
}

fn version_decl(items: &[Value]) -> Option<DeclRow>
    ensures { option_map row_of result
        ≡ option_map rows.version (version_fields.of_items (map view items.now)) }
{
    let ordered = version_row(items)?;
    Some(DeclRow::Version(ordered))
}

fn decl_of_tag(
    alloc: Global,
    ordered: bool,
    tag: &str,
    items: &[Value],
) -> Result<Option<DeclRow>, AllocError>
    ensures { IfOk result (λ r. option_map row_of r
        ≡ decl_of_tag ordered tag.now (map view items.now)) }
{
    if tag == "vault" {
        return Ok(version_decl(items));
    }
    if tag == "states" {
        return states_decl(alloc, ordered, items);
    }
    if tag == "fn" {
        return fn_decl(alloc, ordered, items);
    }
    if tag == "extern" {
        return extern_decl(alloc, ordered, items);
    }
    type_row_of_tag(alloc, tag, items)
}

/// The row of a declaration or of the version, if the value is one.
pub fn decl_row(alloc: Global, ordered: bool, v: &Value) -> Result<Option<DeclRow>, AllocError>
    ensures { IfOk result (λ r. option_map row_of r ≡ decl_of_data ordered (view v.now)) }
{
    let Some(items) = array(v) else {
        return Ok(None);
    };
    match items {
        [] => Ok(None),
        [t, rest @ ..] => match text(t) {
            Some(tag) => decl_of_tag(alloc, ordered, tag, rest),
            None => Ok(None),
        },
    }
}
