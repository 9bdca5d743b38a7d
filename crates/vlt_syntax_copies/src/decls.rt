//! Declarations.

ghost use Rattle.std.specs.Prelude.{◌≡◌, IfOk, map, option_map};
ghost use Rattle.vlt_syntax.specs.Tree as t;
ghost use Rattle.vlt_syntax.specs.View.{name_of, states_of, key_states_of, ty_of, block_of, set_state_of, header_key_of, field_of, case_of, head_of, decl_of};
ghost use Rattle.vlt_syntax_copies.specs.Mapped as m;
ghost use Rattle.vlt_syntax_copies.specs.Shifted as s;

use crate::heads::shifted_head;
use crate::names::{shifted_name, shifted_name_if, shifted_span};
use crate::statements::shifted_block;
use crate::types::{shifted_key_states, shifted_states_if, shifted_ty};
use std::alloc::{AllocError, Global};
use vlt_base::{Items, Span};
use vlt_syntax::{
    Block, Case, Decl, Field, Head, HeaderKey, KeyStates, Name, SetState, States, Ty,
};

fn shifted_header_key(alloc: Global, param: &HeaderKey, by: u32) -> Result<HeaderKey, AllocError>
    ensures { IfOk result (λ p. header_key_of p
        ≡ m.mapped_header_key (s.shifted_span by) (header_key_of param.now)) }
{
    Ok(HeaderKey {
        key: shifted_name(alloc, &param.key, by)?,
        key_type: shifted_name_if(alloc, &param.key_type, by)?,
    })
}

fn shifted_header(
    alloc: Global,
    params: &[HeaderKey],
    by: u32,
) -> Result<Items<HeaderKey>, AllocError>
    ensures { IfOk result (λ ps. map header_key_of ps
        ≡ map (m.mapped_header_key (s.shifted_span by)) (map header_key_of params.now)) }
{
    let mut made = Items::new(alloc);
    for param in params {
        made.push(shifted_header_key(alloc, param, by)?)?;
    }
    Ok(made)
}

fn shifted_field(alloc: Global, field: &Field, by: u32) -> Result<Field, AllocError>
    ensures { IfOk result (λ f. field_of f
        ≡ m.mapped_field (s.shifted_span by) (field_of field.now)) }
{
    Ok(Field {
        name: shifted_name(alloc, &field.name, by)?,
        states: shifted_states_if(alloc, &field.states, by)?,
        ty: shifted_ty(alloc, &field.ty, by)?,
        at: shifted_span(field.at, by),
    })
}

fn shifted_fields(alloc: Global, fields: &[Field], by: u32) -> Result<Items<Field>, AllocError>
    ensures { IfOk result (λ fs. map field_of fs
        ≡ map (m.mapped_field (s.shifted_span by)) (map field_of fields.now)) }
{
    let mut made = Items::new(alloc);
    for field in fields {
        made.push(shifted_field(alloc, field, by)?)?;
    }
    Ok(made)
}

fn shifted_payload(alloc: Global, payload: &[Ty], by: u32) -> Result<Items<Ty>, AllocError>
    ensures { IfOk result (λ ts. map ty_of ts
        ≡ map (m.mapped_ty (s.shifted_span by)) (map ty_of payload.now)) }
{
    let mut made = Items::new(alloc);
    for ty in payload {
        made.push(shifted_ty(alloc, ty, by)?)?;
    }
    Ok(made)
}

fn shifted_case_keys(
    alloc: Global,
    keys: &[KeyStates],
    by: u32,
) -> Result<Items<KeyStates>, AllocError>
    ensures { IfOk result (λ ks. map key_states_of ks
        ≡ map (m.mapped_key_states (s.shifted_span by)) (map key_states_of keys.now)) }
{
    let mut made = Items::new(alloc);
    for key in keys {
        made.push(shifted_key_states(alloc, key, by)?)?;
    }
    Ok(made)
}

fn shifted_case(alloc: Global, case: &Case, by: u32) -> Result<Case, AllocError>
    ensures { IfOk result (λ c. case_of c
        ≡ m.mapped_case (s.shifted_span by) (case_of case.now)) }
{
    Ok(Case {
        name: shifted_name(alloc, &case.name, by)?,
        payload: shifted_payload(alloc, case.payload.as_slice(), by)?,
        keys: shifted_case_keys(alloc, case.keys.as_slice(), by)?,
        at: shifted_span(case.at, by),
    })
}

fn shifted_set_states(
    alloc: Global,
    states: &[SetState],
    by: u32,
) -> Result<Items<SetState>, AllocError>
    ensures { IfOk result (λ xs. map set_state_of xs
        ≡ map (m.mapped_set_state (s.shifted_span by)) (map set_state_of states.now)) }
{
    let mut made = Items::new(alloc);
    for state in states {
        made.push(SetState {
            name: shifted_name(alloc, &state.name, by)?,
            above: state.above,
        })?;
    }
    Ok(made)
}

fn shifted_cases(alloc: Global, cases: &[Case], by: u32) -> Result<Items<Case>, AllocError>
    ensures { IfOk result (λ cs. map case_of cs
        ≡ map (m.mapped_case (s.shifted_span by)) (map case_of cases.now)) }
{
    let mut made = Items::new(alloc);
    for case in cases {
        made.push(shifted_case(alloc, case, by)?)?;
    }
    Ok(made)
}

fn shifted_state_set(
    alloc: Global,
    name: &Name,
    states: &[SetState],
    at: Span,
    by: u32,
) -> Result<Decl, AllocError>
    ensures { IfOk result (λ d. decl_of d ≡ s.shifted by
        (t.stateset (name_of name.now) (map set_state_of states.now) at)) }
{
    Ok(Decl::StateSet {
        name: shifted_name(alloc, name, by)?,
        states: shifted_set_states(alloc, states, by)?,
        at: shifted_span(at, by),
    })
}

fn shifted_abstract(
    alloc: Global,
    name: &Name,
    states: &Option<Name>,
    at: Span,
    by: u32,
) -> Result<Decl, AllocError>
    ensures { IfOk result (λ d. decl_of d ≡ s.shifted by
        (t.abstract (name_of name.now) (option_map name_of states.now) at)) }
{
    Ok(Decl::Abstract {
        name: shifted_name(alloc, name, by)?,
        states: shifted_name_if(alloc, states, by)?,
        at: shifted_span(at, by),
    })
}

fn shifted_struct(
    alloc: Global,
    name: &Name,
    params: &[HeaderKey],
    states: &Option<Name>,
    fields: &[Field],
    release: &Option<States>,
    at: Span,
    by: u32,
) -> Result<Decl, AllocError>
    ensures { IfOk result (λ d. decl_of d ≡ s.shifted by
        (t.struct (name_of name.now) (map header_key_of params.now) (option_map name_of states.now)
        (map field_of fields.now) (option_map states_of release.now) at)) }
{
    Ok(Decl::Struct {
        name: shifted_name(alloc, name, by)?,
        params: shifted_header(alloc, params, by)?,
        states: shifted_name_if(alloc, states, by)?,
        fields: shifted_fields(alloc, fields, by)?,
        release: shifted_states_if(alloc, release, by)?,
        at: shifted_span(at, by),
    })
}

fn shifted_variant(
    alloc: Global,
    name: &Name,
    params: &[HeaderKey],
    cases: &[Case],
    at: Span,
    by: u32,
) -> Result<Decl, AllocError>
    ensures { IfOk result (λ d. decl_of d ≡ s.shifted by
        (t.variant (name_of name.now) (map header_key_of params.now) (map case_of cases.now) at)) }
{
    Ok(Decl::Variant {
        name: shifted_name(alloc, name, by)?,
        params: shifted_header(alloc, params, by)?,
        cases: shifted_cases(alloc, cases, by)?,
        at: shifted_span(at, by),
    })
}

fn shifted_extern(alloc: Global, head: &Head, at: Span, by: u32) -> Result<Decl, AllocError>
    ensures { IfOk result (λ d. decl_of d ≡ s.shifted by (t.extern (head_of head.now) at)) }
{
    Ok(Decl::Extern {
        head: shifted_head(alloc, head, by)?,
        at: shifted_span(at, by),
    })
}

fn shifted_function(
    alloc: Global,
    head: &Head,
    body: &Block,
    at: Span,
    by: u32,
) -> Result<Decl, AllocError>
    ensures { IfOk result (λ d. decl_of d ≡ s.shifted by
        (t.function (head_of head.now) (block_of body.now) at)) }
{
    Ok(Decl::Function {
        body: shifted_block(alloc, body, by)?,
        head: shifted_head(alloc, head, by)?,
        at: shifted_span(at, by),
    })
}

/// The declaration with all places so much further on. A place that 32 bits would not hold stays where it is.
///
/// # Errors
///
/// There is too little memory.
pub fn shifted_decl(alloc: Global, decl: &Decl, by: u32) -> Result<Decl, AllocError>
    ensures { IfOk result (λ d. decl_of d ≡ s.shifted by (decl_of decl.now)) }
{
    match decl {
        Decl::StateSet { name, states, at } => {
            shifted_state_set(alloc, name, states.as_slice(), *at, by)
        }
        Decl::Abstract { name, states, at } => shifted_abstract(alloc, name, states, *at, by),
        Decl::Struct {
            name,
            params,
            states,
            fields,
            release,
            at,
        } => shifted_struct(
            alloc,
            name,
            params.as_slice(),
            states,
            fields.as_slice(),
            release,
            *at,
            by,
        ),
        Decl::Variant {
            name,
            params,
            cases,
            at,
        } => shifted_variant(alloc, name, params.as_slice(), cases.as_slice(), *at, by),
        Decl::Extern { head, at } => shifted_extern(alloc, head, *at, by),
        Decl::Function { head, body, at } => shifted_function(alloc, head, body, *at, by),
    }
}
