//! Rows of declared types and of the cases of variants.

ghost use Rattle.std.specs.Prelude.{◌≡◌, ◌∷◌, [], map, option_map, OnOk};
ghost use Rattle.std.specs.Str.{IsUtf8};
ghost use Rattle.vlt_base.specs.States.{has_state};
ghost use Rattle.vlt_core.specs.View.{ty_of, field_of, case_key_of, case_of, header_of, type_of};
ghost use Rattle.cert_rows.specs.Parts.{list, All};
ghost use Rattle.cert_rows.specs.Values.{ty as ty_part, field as field_part, case_key, header as header_part};
ghost use Rattle.cert_rows.specs.Rows as row;
ghost use Rattle.cert_format.specs.Certificate.{type_rows};
ghost use Rattle.cert_values.specs.Heads.{plain_data};
ghost use Rattle.cert_values.specs.Laid.{laid, each_laid};
ghost use Rattle.cert_values.specs.Declarations.Names.{HasTextType, IsNamed};

use crate::declarations::names::{Unwritten, put_name};
use crate::{CertText, put_mask, put_number_or_minus, put_ty};
use std::alloc::AllocError;
use vlt_base::{SetId, StateSet, TypeId};
use vlt_core::{CaseDecl, FieldDecl, Ty, TypeDecl};

/// The number of a type, where there is one.
pub fn type_number(id: Option<TypeId>) -> Option<u32>
    ensures { result ≡ option_map (λ t. t.0) id }
{
    Some(id?.0)
}

fn set_number(id: Option<SetId>) -> Option<u32>
    ensures { result ≡ option_map (λ i. i.0) id }
{
    Some(id?.0)
}

fn put_header(out: &mut CertText, header: &[Option<TypeId>]) -> Result<(), AllocError>
    ensures { OnOk result (out.new ≡ laid (header_part.data_of (header_of header.now)) out.old) }
{
    out.begin()?;
    for id in header {
        put_number_or_minus(out, type_number(*id))?;
    }
    out.end()
}

fn put_field(out: &mut CertText, field: &FieldDecl) -> Result<(), Unwritten>
    ensures value { OnOk result (out.new
        ≡ laid (field_part.data_of (field_of field.now)) out.old) }
    ensures named { IsUtf8 field.now.name → IsNamed result }
{
    out.begin()?;
    put_name(out, field.name.as_slice())?;
    put_ty(out, &field.ty)?;
    put_mask(out, field.states)?;
    out.end()?;
    Ok(())
}

fn put_fields(out: &mut CertText, fields: &[FieldDecl]) -> Result<(), Unwritten>
    ensures value { OnOk result (out.new ≡ laid (list (map field_part.data_of
        (map field_of fields.now))) out.old) }
    ensures named { All (λ f. IsUtf8 f.name) (map field_of fields.now) → IsNamed result }
{
    out.begin()?;
    for field in fields {
        put_field(out, field)?;
    }
    out.end()?;
    Ok(())
}

fn put_tys(out: &mut CertText, tys: &[Ty]) -> Result<(), AllocError>
    ensures { OnOk result (out.new
        ≡ laid (list (map ty_part.data_of (map ty_of tys.now))) out.old) }
{
    out.begin()?;
    for ty in tys {
        put_ty(out, ty)?;
    }
    out.end()
}

fn put_case_key(out: &mut CertText, position: u32, states: StateSet) -> Result<(), AllocError>
    ensures { OnOk result (out.new
        ≡ laid (case_key.data_of (case_key_of (position, states))) out.old) }
{
    out.begin()?;
    out.number(position as u64)?;
    put_mask(out, states)?;
    out.end()
}

fn put_case_keys(out: &mut CertText, keys: &[(u32, StateSet)]) -> Result<(), AllocError>
    ensures { OnOk result (out.new
        ≡ laid (list (map case_key.data_of (map case_key_of keys.now))) out.old) }
{
    out.begin()?;
    for key in keys {
        put_case_key(out, key.0, key.1)?;
    }
    out.end()
}

fn put_case(out: &mut CertText, case: &CaseDecl) -> Result<(), Unwritten>
    ensures value { OnOk result (out.new
        ≡ laid (plain_data (row.case_of (case_of case.now))) out.old) }
    ensures named { IsUtf8 case.now.name → IsNamed result }
{
    out.tag("case")?;
    put_name(out, case.name.as_slice())?;
    put_tys(out, case.payload.as_slice())?;
    put_case_keys(out, case.keys.as_slice())?;
    out.end()?;
    Ok(())
}

fn put_abstract(out: &mut CertText, name: &[u8], set: Option<SetId>) -> Result<(), Unwritten>
    ensures value { OnOk result (out.new ≡ laid (plain_data (row.abstract_type name.now
        (option_map (λ i. i.0) set))) out.old) }
    ensures named { IsUtf8 name.now → IsNamed result }
{
    out.tag("abstract")?;
    put_name(out, name)?;
    put_number_or_minus(out, set_number(set))?;
    out.end()?;
    Ok(())
}

fn put_struct(
    out: &mut CertText,
    name: &[u8],
    header: &[Option<TypeId>],
    set: Option<SetId>,
    release: StateSet,
    fields: &[FieldDecl],
) -> Result<(), Unwritten>
    ensures value { OnOk result (out.new ≡ laid (plain_data (row.struct_type (record {
      name = name.now;
      header = header_of header.now;
      set = option_map (λ i. i.0) set;
      release = has_state release;
      fields = map field_of fields.now;
    }))) out.old) }
    ensures named { IsUtf8 name.now × All (λ f. IsUtf8 f.name) (map field_of fields.now) →
        IsNamed result }
{
    out.tag("struct")?;
    put_name(out, name)?;
    put_header(out, header)?;
    put_number_or_minus(out, set_number(set))?;
    put_mask(out, release)?;
    put_fields(out, fields)?;
    out.end()?;
    Ok(())
}

fn put_variant(
    out: &mut CertText,
    name: &[u8],
    header: &[Option<TypeId>],
    cases: usize,
) -> Result<(), Unwritten>
    ensures value { OnOk result (out.new ≡ laid (plain_data (row.variant_type name.now
        (header_of header.now) cases)) out.old) }
    ensures named { IsUtf8 name.now → IsNamed result }
{
    out.tag("variant")?;
    put_name(out, name)?;
    put_header(out, header)?;
    out.number(cases as u64)?;
    out.end()?;
    Ok(())
}

/// Writes the rows of a variant's cases.
fn put_cases(out: &mut CertText, cases: &[CaseDecl]) -> Result<(), Unwritten>
    ensures rows { OnOk result (out.new
        ≡ each_laid (map plain_data (map row.case_of (map case_of cases.now))) out.old) }
    ensures named { All (λ c. IsUtf8 c.name) (map case_of cases.now) → IsNamed result }
{
    for case in cases {
        put_case(out, case)?;
    }
    Ok(())
}

/// Writes the rows of a type: of a variant its own, and those of its cases.
pub fn put_type(out: &mut CertText, declared: &TypeDecl) -> Result<(), Unwritten>
    ensures rows { OnOk result (out.new
        ≡ each_laid (map plain_data (type_rows (type_of declared.now))) out.old) }
    ensures named { HasTextType (type_of declared.now) → IsNamed result }
{
    match declared {
        TypeDecl::Abstract { name, set } => put_abstract(out, name.as_slice(), *set),
        TypeDecl::Struct {
            name,
            header,
            set,
            release,
            fields,
        } => {
            let (header, fields) = (header.as_slice(), fields.as_slice());
            put_struct(out, name.as_slice(), header, *set, *release, fields)
        }
        TypeDecl::Variant {
            name,
            header,
            cases,
        } => {
            put_variant(out, name.as_slice(), header.as_slice(), cases.len())?;
            put_cases(out, cases.as_slice())
        }
    }
}
