//! The places of a head: the keys in its types, and the names that it binds.

ghost use Rattle.std.specs.Prelude.{◌≡◌, ◌++◌, ◌∷◌, [], map, option_map, IfOk, OnOk};
ghost use Rattle.vlt_syntax.specs.View as view;
ghost use Rattle.vlt_kinds_types.specs.Seen.{file_seen, use_seen};
ghost use Rattle.vlt_kinds_heads.specs.Places as p;
ghost use Rattle.vlt_kinds_heads.specs.Seen.{name_seen};

use crate::names::HeadName;
use std::alloc::{AllocError, Global};
use vlt_base::Items;
use vlt_kinds_types::{File, KeyUse};
use vlt_syntax::{Entry, Head, KeyStates, Name, Parameter, ResultType, States};

/// The keys in a result's type, in the order of the text.
pub fn result_uses<'a>(
    alloc: Global,
    file: &File<'_>,
    result_type: &'a ResultType,
) -> Result<Items<KeyUse<'a>>, AllocError>
    ensures { IfOk result (λ uses. map use_seen uses
        ≡ p.result_uses (file_seen file.now) (view.result_type_of result_type.now)) }
{
    let mut uses = Items::new(alloc);
    if let ResultType::Value(ty) = result_type {
        file.add_uses(ty, &mut uses)?;
    }
    Ok(uses)
}

/// The keys in the types of parameters, in the order of the text.
pub fn parameter_uses<'a>(
    alloc: Global,
    file: &File<'_>,
    parameters: &'a [Parameter],
) -> Result<Items<KeyUse<'a>>, AllocError>
    ensures { IfOk result (λ uses. map use_seen uses
        ≡ p.parameter_uses (file_seen file.now) (map view.parameter_of parameters.now)) }
{
    let mut uses = Items::new(alloc);
    for parameter in parameters {
        file.add_uses(&parameter.ty, &mut uses)?;
    }
    Ok(uses)
}

/// The entries of a clause.
pub fn clause_in(clause: &Option<Items<Entry>>) -> &[Entry]
    ensures { map view.entry_of result.now ≡ p.clause_in
        (option_map (map view.entry_of) clause.now) }
{
    match clause {
        None => &[],
        Some(entries) => entries.as_slice(),
    }
}

/// The key of an entry.
pub fn entry_key(entry: &Entry) -> &Name
    ensures { view.name_of result.now ≡ p.entry_key (view.entry_of entry.now) }
{
    match entry {
        Entry::Held(states) => &states.key,
        Entry::Changed { key, .. } | Entry::Bound { key, .. } => key,
        Entry::Taken(states, _) | Entry::Given(states, _) | Entry::Fresh(states, _) => &states.key,
    }
}

/// Whether an entry is that of a `new` key.
pub fn is_fresh(entry: &Entry) -> bool
    ensures { result ≡ p.is_fresh (view.entry_of entry.now) }
{
    matches!(entry, Entry::Fresh(..))
}

/// The states that are said of a key, if any are.
pub fn states_said(key: &KeyStates) -> Option<&States>
    ensures { option_map (λ ss. view.states_of ss.now) result
        ≡ (view.key_states_of key.now).states }
{
    key.states.as_ref()
}

/// The states after the call, of an entry that changes them.
pub fn second_states(entry: &Entry) -> Option<&States>
    ensures { option_map (λ ss. view.states_of ss.now) result
        ≡ p.second_states (view.entry_of entry.now) }
{
    match entry {
        Entry::Changed { after, .. } => Some(after),
        _ => None,
    }
}

// ---- names

fn add_used<'a>(uses: &[KeyUse<'a>], names: &mut Items<HeadName<'a>>) -> Result<(), AllocError>
    ensures { OnOk result (map name_seen names.new
        ≡ map name_seen names.old ++ map p.used_name (map use_seen uses.now)) }
{
    for place in uses {
        names.push(HeadName {
            text: place.key,
            at: place.at,
            is_key: true,
        })?;
    }
    Ok(())
}

fn parameter_name(parameter: &Parameter) -> HeadName<'_>
    ensures { name_seen result ≡ p.parameter_name (view.parameter_of parameter.now) }
{
    let name = &parameter.name;
    HeadName {
        text: name.text.as_slice(),
        at: name.at.from,
        is_key: false,
    }
}

fn entry_name(entry: &Entry) -> HeadName<'_>
    ensures { name_seen result ≡ p.entry_name (view.entry_of entry.now) }
{
    let key = entry_key(entry);
    HeadName {
        text: key.text.as_slice(),
        at: key.at.from,
        is_key: true,
    }
}

fn add_parameter<'a>(
    alloc: Global,
    file: &File<'_>,
    parameter: &'a Parameter,
    names: &mut Items<HeadName<'a>>,
) -> Result<(), AllocError>
    ensures { OnOk result (map name_seen names.new ≡ map name_seen names.old
        ++ p.parameter_names (file_seen file.now) (view.parameter_of parameter.now ∷ [])) }
{
    let mut uses = Items::new(alloc);
    file.add_uses(&parameter.ty, &mut uses)?;
    add_used(uses.as_slice(), names)?;
    names.push(parameter_name(parameter))
}

fn add_parameters<'a>(
    alloc: Global,
    file: &File<'_>,
    parameters: &'a [Parameter],
    names: &mut Items<HeadName<'a>>,
) -> Result<(), AllocError>
    ensures { OnOk result (map name_seen names.new ≡ map name_seen names.old
        ++ p.parameter_names (file_seen file.now) (map view.parameter_of parameters.now)) }
{
    for parameter in parameters {
        add_parameter(alloc, file, parameter, names)?;
    }
    Ok(())
}

fn add_clause<'a>(clause: &'a [Entry], names: &mut Items<HeadName<'a>>) -> Result<(), AllocError>
    ensures { OnOk result (map name_seen names.new
        ≡ map name_seen names.old ++ map p.entry_name (map view.entry_of clause.now)) }
{
    for entry in clause {
        names.push(entry_name(entry))?;
    }
    Ok(())
}

fn add_result<'a>(
    alloc: Global,
    file: &File<'_>,
    result_type: &'a ResultType,
    names: &mut Items<HeadName<'a>>,
) -> Result<(), AllocError>
    ensures { OnOk result (map name_seen names.new ≡ map name_seen names.old
        ++ map p.used_name
        (p.result_uses (file_seen file.now) (view.result_type_of result_type.now))) }
{
    let uses = result_uses(alloc, file, result_type)?;
    add_used(uses.as_slice(), names)
}

/// The names that stand in a head, in the order of the text.
#[tactic(auto, unfolding(crate::specs::Places::head_names))]
pub fn head_names<'a>(
    alloc: Global,
    file: &File<'_>,
    head: &'a Head,
) -> Result<Items<HeadName<'a>>, AllocError>
    ensures { IfOk result (λ names. map name_seen names
        ≡ p.head_names (file_seen file.now) (view.head_of head.now)) }
{
    let mut names = Items::new(alloc);
    add_result(alloc, file, &head.result_type, &mut names)?;
    add_parameters(alloc, file, head.parameters.as_slice(), &mut names)?;
    add_clause(clause_in(&head.clause), &mut names)?;
    Ok(names)
}
