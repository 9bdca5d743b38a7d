//! What declared types become.

ghost use Rattle.std.specs.Prelude.{◌≡◌, ◌<◌, ◌≤◌, ◌++◌, ℕ, All, map, option_map, length, drop, IfOk, OnOk};
ghost use Rattle.vlt_syntax.specs.View as view;
ghost use Rattle.vlt_syntax.specs.Lists.{Each};
ghost use Rattle.vlt_syntax.specs.Grammar.{IsDecl, language};
ghost use Rattle.vlt_core.specs.View as core_view;
ghost use Rattle.vlt_core.specs.Core as core;
ghost use Rattle.vlt_kinds_types.specs.Names.Globals.{names_seen};
ghost use Rattle.vlt_kinds_types.specs.Seen.{file_seen, states_seen};
ghost use Rattle.vlt_kinds_types.specs.Types as t;
ghost use Rattle.vlt_kinds_types.specs.Files as f;
ghost use Rattle.vlt_kinds_decls.specs.Made as m;
ghost use Rattle.vlt_kinds_queries.specs.Known.{HasKnownSet};
ghost use Rattle.std.specs.Option.{ForSome};

use crate::header::{header_position, wanted_of};
use std::alloc::{AllocError, Global};
use vlt_base::{Items, SetId, StateSet, TypeId};
use vlt_core::{CaseDecl, FieldDecl, Ty, TypeDecl};
use vlt_kinds_types::{
    File, Globals, KeyNumbers, StateNames, Wanted, set_in, states_listed, wanted_in,
};
use vlt_syntax::{self, Case, Decl, Field, HeaderKey, KeyStates, Name, States};

/// The keys of a header, by their positions.
#[derive(Clone, Copy)]
struct HeaderNumbers<'a> {
    params: &'a [HeaderKey],
    ghost few: { length params.now ≤ 32 },
}

impl KeyNumbers for HeaderNumbers<'_> {
    ghost numbers = { λ h. m.header_number (map view.header_key_of h.params.now) };

    fn number(&self, key: &[u8]) -> u32 {
        match header_position(self.params, key) {
            None => 0,
            Some(position) => u32::from(position),
        }
    }
}

fn type_wanted(wanted: Wanted) -> Option<TypeId>
    ensures { option_map (λ t. t.0) result ≡ m.type_wanted wanted }
{
    match wanted {
        Wanted::OfType(number) => Some(TypeId(number)),
        _ => None,
    }
}

fn core_header(
    alloc: Global,
    known: &Globals<'_>,
    params: &[HeaderKey],
) -> Result<Items<Option<TypeId>>, AllocError>
    ensures { IfOk result (λ header. core_view.header_of header
        ≡ m.core_header (names_seen known.now) (map view.header_key_of params.now)) }
{
    let mut header = Items::new(alloc);
    for param in params {
        header.push(type_wanted(wanted_in(known, &param.key_type)))?;
    }
    Ok(header)
}

/// The number of the set of this name. That it is in range is looked at once more, so that it is known of each type.
fn set_named(file: &File<'_>, set: &Option<Name>) -> Result<Option<SetId>, AllocError>
    ensures set { IfOk result (λ found. option_map (λ i. i.0) found
        ≡ f.set_in (names_seen file.now.globals) (option_map view.name_of set.now)) }
    ensures known { IfOk result (λ found. ForSome found (λ i. i.0 < length file.now.sets)) }
{
    match set_in(&file.globals, set) {
        None => Ok(None),
        Some(number) => {
            if number as usize >= file.sets.len() {
                return Err(AllocError);
            }
            Ok(Some(SetId(number)))
        }
    }
}

#[tactic(auto, unfolding(crate::specs::Made::core_field))]
fn core_field(
    alloc: Global,
    file: &File<'_>,
    params: &[HeaderKey],
    known: &StateNames<'_>,
    field: &Field,
) -> Result<FieldDecl, AllocError>
    requires { length params.now ≤ 32 }
    ensures { IfOk result (λ decl. core_view.field_of decl ≡ m.core_field (file_seen file.now)
        (map view.header_key_of params.now) (states_seen known.now) (view.field_of field.now)) }
{
    let name = Items::from_slice(alloc, field.name.text.as_slice())?;
    let numbers = HeaderNumbers { params };
    let states = states_listed(alloc, known, &field.states)?;
    let ty = file.core_type(alloc, &numbers, &field.ty)?;
    Ok(FieldDecl { name, ty, states })
}

fn core_fields(
    alloc: Global,
    file: &File<'_>,
    params: &[HeaderKey],
    known: &StateNames<'_>,
    fields: &[Field],
) -> Result<Items<FieldDecl>, AllocError>
    requires { length params.now ≤ 32 }
    ensures { IfOk result (λ decls. map core_view.field_of decls
        ≡ map (m.core_field (file_seen file.now) (map view.header_key_of params.now)
        (states_seen known.now)) (map view.field_of fields.now)) }
{
    let mut decls = Items::new(alloc);
    for field in fields {
        decls.push(core_field(alloc, file, params, known, field)?)?;
    }
    Ok(decls)
}

#[tactic(auto, unfolding(crate::specs::Made::core_struct))]
fn core_struct(
    alloc: Global,
    file: &File<'_>,
    name: &Name,
    params: &[HeaderKey],
    set: &Option<Name>,
    fields: &[Field],
    release: &Option<States>,
) -> Result<TypeDecl, AllocError>
    requires { length params.now ≤ 32 }
    ensures decl { IfOk result (λ decl. core_view.type_of decl
        ≡ core.a_struct (m.core_struct (file_seen file.now) (view.name_of name.now)
        (map view.header_key_of params.now) (option_map view.name_of set.now)
        (map view.field_of fields.now) (option_map view.states_of release.now))) }
    ensures known { IfOk result (HasKnownSet (length file.now.sets)) }
{
    let known = file.state_names(file.shape_named(name));
    let header = core_header(alloc, &file.globals, params)?;
    let set = set_named(file, set)?;
    let release = states_listed(alloc, &known, release)?;
    let fields = core_fields(alloc, file, params, &known, fields)?;
    let name = Items::from_slice(alloc, name.text.as_slice())?;
    Ok(TypeDecl::Struct {
        name,
        header,
        set,
        release,
        fields,
    })
}

fn object_states<'a>(file: &'a File<'_>, wanted: Option<Wanted>) -> StateNames<'a>
    ensures { states_seen result ≡ m.object_states (file_seen file.now) wanted }
{
    match wanted {
        Some(Wanted::OfType(number)) => file.state_names(file.shape_at(number)),
        _ => StateNames { names: None },
    }
}

#[tactic(auto, unfolding(crate::specs::Made::core_case_key))]
fn core_case_key(
    alloc: Global,
    file: &File<'_>,
    params: &[HeaderKey],
    key: &KeyStates,
) -> Result<(u32, StateSet), AllocError>
    requires { length params.now ≤ 32 }
    ensures { IfOk result (λ made. core_view.case_key_of made
        ≡ m.core_case_key (file_seen file.now) (map view.header_key_of params.now)
        (view.key_states_of key.now)) }
{
    let numbers = HeaderNumbers { params };
    let position = numbers.number(key.key.text.as_slice());
    let wanted = wanted_of(&file.globals, params, key.key.text.as_slice());
    let states = states_listed(alloc, &object_states(file, wanted), &key.states)?;
    Ok((position, states))
}

fn core_case_keys(
    alloc: Global,
    file: &File<'_>,
    params: &[HeaderKey],
    keys: &[KeyStates],
) -> Result<Items<(u32, StateSet)>, AllocError>
    requires { length params.now ≤ 32 }
    ensures { IfOk result (λ made. map core_view.case_key_of made
        ≡ map (m.core_case_key (file_seen file.now) (map view.header_key_of params.now))
        (map view.key_states_of keys.now)) }
{
    let mut made = Items::new(alloc);
    for key in keys {
        made.push(core_case_key(alloc, file, params, key)?)?;
    }
    Ok(made)
}

fn core_payload(
    alloc: Global,
    file: &File<'_>,
    params: &[HeaderKey],
    payload: &[vlt_syntax::Ty],
) -> Result<Items<Ty>, AllocError>
    requires { length params.now ≤ 32 }
    ensures { IfOk result (λ made. map core_view.ty_of made ≡ map (t.core_ty (file_seen file.now)
        (m.header_number (map view.header_key_of params.now))) (map view.ty_of payload.now)) }
{
    let numbers = HeaderNumbers { params };
    let mut made = Items::new(alloc);
    for ty in payload {
        made.push(file.core_type(alloc, &numbers, ty)?)?;
    }
    Ok(made)
}

fn without_tick(text: &[u8]) -> &[u8]
    ensures { result.now ≡ drop 1 text.now }
{
    match text {
        [_tick, name @ ..] => name,
        [] => &[],
    }
}

#[tactic(auto, unfolding(crate::specs::Made::core_case))]
fn core_case(
    alloc: Global,
    file: &File<'_>,
    params: &[HeaderKey],
    case: &Case,
) -> Result<CaseDecl, AllocError>
    requires { length params.now ≤ 32 }
    ensures { IfOk result (λ decl. core_view.case_of decl ≡ m.core_case (file_seen file.now)
        (map view.header_key_of params.now) (view.case_of case.now)) }
{
    let name = Items::from_slice(alloc, without_tick(case.name.text.as_slice()))?;
    let payload = core_payload(alloc, file, params, case.payload.as_slice())?;
    let keys = core_case_keys(alloc, file, params, case.keys.as_slice())?;
    Ok(CaseDecl {
        name,
        payload,
        keys,
    })
}

fn core_cases(
    alloc: Global,
    file: &File<'_>,
    params: &[HeaderKey],
    cases: &[Case],
) -> Result<Items<CaseDecl>, AllocError>
    requires { length params.now ≤ 32 }
    ensures { IfOk result (λ decls. map core_view.case_of decls
        ≡ map (m.core_case (file_seen file.now) (map view.header_key_of params.now))
        (map view.case_of cases.now)) }
{
    let mut decls = Items::new(alloc);
    for case in cases {
        decls.push(core_case(alloc, file, params, case)?)?;
    }
    Ok(decls)
}

#[tactic(auto, unfolding(crate::specs::Made::core_variant))]
fn core_variant(
    alloc: Global,
    file: &File<'_>,
    name: &Name,
    params: &[HeaderKey],
    cases: &[Case],
) -> Result<TypeDecl, AllocError>
    requires { length params.now ≤ 32 }
    ensures decl { IfOk result (λ decl. core_view.type_of decl
        ≡ core.a_variant (m.core_variant (file_seen file.now) (view.name_of name.now)
        (map view.header_key_of params.now) (map view.case_of cases.now))) }
    ensures known { IfOk result (HasKnownSet (length file.now.sets)) }
{
    let name = Items::from_slice(alloc, name.text.as_slice())?;
    let header = core_header(alloc, &file.globals, params)?;
    let cases = core_cases(alloc, file, params, cases)?;
    Ok(TypeDecl::Variant {
        name,
        header,
        cases,
    })
}

fn core_abstract(
    alloc: Global,
    file: &File<'_>,
    name: &Name,
    set: &Option<Name>,
) -> Result<TypeDecl, AllocError>
    ensures decl { IfOk result (λ decl. core_view.type_of decl
        ≡ core.an_abstract (view.name_of name.now).text
        (f.set_in (names_seen file.now.globals) (option_map view.name_of set.now))) }
    ensures known { IfOk result (HasKnownSet (length file.now.sets)) }
{
    let name = Items::from_slice(alloc, name.text.as_slice())?;
    let set = set_named(file, set)?;
    Ok(TypeDecl::Abstract { name, set })
}

fn add_type(
    alloc: Global,
    file: &File<'_>,
    decl: &Decl,
    types: &mut Items<TypeDecl>,
) -> Result<(), AllocError>
    requires right { IsDecl language (view.decl_of decl.now) }
    requires known { All (HasKnownSet (length file.now.sets)) types.old }
    ensures types { OnOk result (map core_view.type_of types.new
        ≡ map core_view.type_of types.old
        ++ m.core_types_in (file_seen file.now) (view.decl_of decl.now)) }
    ensures known { OnOk result (All (HasKnownSet (length file.now.sets)) types.new) }
{
    match decl {
        Decl::Abstract { name, states, .. } => {
            let made = core_abstract(alloc, file, name, states)?;
            types.push(made)?;
        }
        Decl::Struct {
            name,
            params,
            states,
            fields,
            release,
            ..
        } => {
            let params = params.as_slice();
            let made = core_struct(
                alloc,
                file,
                name,
                params,
                states,
                fields.as_slice(),
                release,
            )?;
            types.push(made)?;
        }
        Decl::Variant {
            name,
            params,
            cases,
            ..
        } => {
            let made = core_variant(alloc, file, name, params.as_slice(), cases.as_slice())?;
            types.push(made)?;
        }
        _ => {}
    }
    Ok(())
}

/// The declared types of a file whose types aren't refused, in the order of their declarations.
pub fn core_types(
    alloc: Global,
    file: &File<'_>,
    decls: &[Decl],
) -> Result<Items<TypeDecl>, AllocError>
    requires { Each (IsDecl language) (map view.decl_of decls.now) }
    ensures types { IfOk result (λ types. map core_view.type_of types
        ≡ m.core_types (file_seen file.now) (map view.decl_of decls.now)) }
    ensures known { IfOk result (All (HasKnownSet (length file.now.sets))) }
{
    let mut types = Items::new(alloc);
    for decl in decls {
        add_type(alloc, file, decl, &mut types)?;
    }
    Ok(types)
}
