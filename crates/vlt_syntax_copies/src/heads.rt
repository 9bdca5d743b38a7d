//! Heads of functions.

ghost use Rattle.std.specs.Prelude.{◌≡◌, IfOk, map, option_map};
ghost use Rattle.vlt_syntax.specs.Tree as t;
ghost use Rattle.vlt_syntax.specs.View.{name_of, states_of, entry_of, result_type_of, parameter_of, head_of};
ghost use Rattle.vlt_syntax_copies.specs.Mapped as m;
ghost use Rattle.vlt_syntax_copies.specs.Shifted as s;

use crate::names::{shifted_name, shifted_span};
use crate::types::{shifted_key_states, shifted_states, shifted_ty};
use std::alloc::{AllocError, Global};
use vlt_base::Items;
use vlt_syntax::{Entry, Head, Name, Parameter, ResultType, States};

fn shifted_changed(
    alloc: Global,
    key: &Name,
    before: &States,
    after: &States,
    by: u32,
) -> Result<Entry, AllocError>
    ensures { IfOk result (λ e. entry_of e ≡ m.mapped_entry (s.shifted_span by)
        (t.changed (name_of key.now) (states_of before.now) (states_of after.now))) }
{
    Ok(Entry::Changed {
        key: shifted_name(alloc, key, by)?,
        before: shifted_states(alloc, before, by)?,
        after: shifted_states(alloc, after, by)?,
    })
}

fn shifted_bound(
    alloc: Global,
    key: &Name,
    variable: &Name,
    state: &Name,
    by: u32,
) -> Result<Entry, AllocError>
    ensures { IfOk result (λ e. entry_of e ≡ m.mapped_entry (s.shifted_span by)
        (t.bound (name_of key.now) (name_of variable.now) (name_of state.now))) }
{
    Ok(Entry::Bound {
        key: shifted_name(alloc, key, by)?,
        variable: shifted_name(alloc, variable, by)?,
        state: shifted_name(alloc, state, by)?,
    })
}

fn shifted_entry(alloc: Global, entry: &Entry, by: u32) -> Result<Entry, AllocError>
    ensures { IfOk result (λ e. entry_of e
        ≡ m.mapped_entry (s.shifted_span by) (entry_of entry.now)) }
{
    match entry {
        Entry::Held(key) => Ok(Entry::Held(shifted_key_states(alloc, key, by)?)),
        Entry::Changed { key, before, after } => shifted_changed(alloc, key, before, after, by),
        Entry::Bound {
            key,
            variable,
            state,
        } => shifted_bound(alloc, key, variable, state, by),
        Entry::Taken(key, at) => Ok(Entry::Taken(
            shifted_key_states(alloc, key, by)?,
            shifted_span(*at, by),
        )),
        Entry::Given(key, at) => Ok(Entry::Given(
            shifted_key_states(alloc, key, by)?,
            shifted_span(*at, by),
        )),
        Entry::Fresh(key, at) => Ok(Entry::Fresh(
            shifted_key_states(alloc, key, by)?,
            shifted_span(*at, by),
        )),
    }
}

fn shifted_entries(alloc: Global, entries: &[Entry], by: u32) -> Result<Items<Entry>, AllocError>
    ensures { IfOk result (λ es. map entry_of es
        ≡ map (m.mapped_entry (s.shifted_span by)) (map entry_of entries.now)) }
{
    let mut made = Items::new(alloc);
    for entry in entries {
        made.push(shifted_entry(alloc, entry, by)?)?;
    }
    Ok(made)
}

fn shifted_clause(
    alloc: Global,
    clause: &Option<Items<Entry>>,
    by: u32,
) -> Result<Option<Items<Entry>>, AllocError>
    ensures { IfOk result (λ c. option_map (map entry_of) c
        ≡ option_map (map (m.mapped_entry (s.shifted_span by)))
        (option_map (map entry_of) clause.now)) }
{
    match clause {
        None => Ok(None),
        Some(entries) => Ok(Some(shifted_entries(alloc, entries.as_slice(), by)?)),
    }
}

fn shifted_result(
    alloc: Global,
    result_type: &ResultType,
    by: u32,
) -> Result<ResultType, AllocError>
    ensures { IfOk result (λ t. result_type_of t
        ≡ m.mapped_result (s.shifted_span by) (result_type_of result_type.now)) }
{
    match result_type {
        ResultType::Void(at) => Ok(ResultType::Void(shifted_span(*at, by))),
        ResultType::Value(ty) => Ok(ResultType::Value(shifted_ty(alloc, ty, by)?)),
    }
}

fn shifted_parameter(alloc: Global, parameter: &Parameter, by: u32) -> Result<Parameter, AllocError>
    ensures { IfOk result (λ p. parameter_of p
        ≡ m.mapped_parameter (s.shifted_span by) (parameter_of parameter.now)) }
{
    Ok(Parameter {
        name: shifted_name(alloc, &parameter.name, by)?,
        ty: shifted_ty(alloc, &parameter.ty, by)?,
    })
}

fn shifted_parameters(
    alloc: Global,
    parameters: &[Parameter],
    by: u32,
) -> Result<Items<Parameter>, AllocError>
    ensures { IfOk result (λ ps. map parameter_of ps
        ≡ map (m.mapped_parameter (s.shifted_span by)) (map parameter_of parameters.now)) }
{
    let mut made = Items::new(alloc);
    for parameter in parameters {
        made.push(shifted_parameter(alloc, parameter, by)?)?;
    }
    Ok(made)
}

pub fn shifted_head(alloc: Global, head: &Head, by: u32) -> Result<Head, AllocError>
    ensures { IfOk result (λ h. head_of h
        ≡ m.mapped_head (s.shifted_span by) (head_of head.now)) }
{
    Ok(Head {
        name: shifted_name(alloc, &head.name, by)?,
        parameters: shifted_parameters(alloc, head.parameters.as_slice(), by)?,
        clause: shifted_clause(alloc, &head.clause, by)?,
        result_type: shifted_result(alloc, &head.result_type, by)?,
        at: shifted_span(head.at, by),
    })
}
