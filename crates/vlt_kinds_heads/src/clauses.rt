//! The rules on clauses.

ghost use Rattle.std.specs.Prelude.{◌≡◌, ◌&&◌, Some, map, option_map, OnOk};
ghost use Rattle.vlt_syntax.specs.Tree as s;
ghost use Rattle.vlt_syntax.specs.View as view;
ghost use Rattle.vlt_kinds_types.specs.Names.Refusals.{least_from, found_each};
ghost use Rattle.vlt_kinds_types.specs.Seen.{file_seen};
ghost use Rattle.vlt_kinds_heads.specs.Places as p;
ghost use Rattle.vlt_kinds_heads.specs.Heads as h;
ghost use Rattle.vlt_kinds_heads.specs.Seen.{keys_seen};

use crate::facts::Facts;
use crate::keys::HeadKeys;
use crate::places::{clause_in, entry_key, is_fresh, second_states, states_said};
use std::alloc::{AllocError, Global};
use vlt_core::rules;
use vlt_kinds_types::{File, LeastRefusal};
use vlt_syntax::{Entry, Head, Name, ResultType, States, Ty};

/// The name of the function that a program begins with.
const MAIN: &[u8] = b"main";

fn is_fresh_result(facts: &Facts) -> bool
    ensures { result ≡ h.is_fresh_result facts.now }
{
    facts.is_result_key && !facts.in_result_again && !facts.in_parameters && !facts.in_clause_again
}

fn check_entry_key(facts: &Facts, is_fresh: bool, at: u32, found: &mut LeastRefusal)
    ensures { found.new.least ≡ least_from found.old.least
        (h.entry_key_refused facts.now is_fresh at) }
{
    if is_fresh {
        found.add_if(!is_fresh_result(facts), rules::RESULT_KEY, at);
    } else {
        found.add_if(!facts.in_parameters, rules::CLAUSE_KEY_UNBOUND, at);
    }
}

fn first_name(states: &States) -> u32
    ensures { result ≡ h.first_name (view.states_of states.now) }
{
    match states {
        States::One(name) => name.at.from,
        States::Several(names, at) => match names.as_slice() {
            [] => at.from,
            [name, ..] => name.at.from,
        },
    }
}

fn check_key_states(
    alloc: Global,
    file: &File<'_>,
    facts: &Facts,
    states: Option<&States>,
    found: &mut LeastRefusal,
) -> Result<(), AllocError>
    ensures { OnOk result (found.new.least ≡ least_from found.old.least
        (h.key_states_refused (file_seen file.now) facts.now facts.now.typing
        (option_map (λ ss. view.states_of ss.now) states.entry))) }
{
    let Some(states) = states else {
        return Ok(());
    };
    match facts.typing {
        None => {
            found.add_if(
                !facts.is_left_open,
                rules::STATES_UNTYPED,
                first_name(states),
            );
            Ok(())
        }
        Some(had) => file.check_object_states(alloc, file.shape_at(had.type_id), states, found),
    }
}

/// The same of the state that bounds an entry.
fn check_key_state(
    alloc: Global,
    file: &File<'_>,
    facts: &Facts,
    state: &Name,
    found: &mut LeastRefusal,
) -> Result<(), AllocError>
    ensures { OnOk result (found.new.least ≡ least_from found.old.least
        (h.key_states_refused (file_seen file.now) facts.now facts.now.typing
        (Some (s.one (view.name_of state.now))))) }
{
    match facts.typing {
        None => {
            found.add_if(!facts.is_left_open, rules::STATES_UNTYPED, state.at.from);
            Ok(())
        }
        Some(had) => file.check_object_state(alloc, file.shape_at(had.type_id), state, found),
    }
}

fn check_first_states(
    alloc: Global,
    file: &File<'_>,
    facts: &Facts,
    entry: &Entry,
    found: &mut LeastRefusal,
) -> Result<(), AllocError>
    ensures { OnOk result (found.new.least ≡ least_from found.old.least
        (h.key_states_refused (file_seen file.now) facts.now facts.now.typing
        (p.first_states (view.entry_of entry.now)))) }
{
    match entry {
        Entry::Held(key) => check_key_states(alloc, file, facts, states_said(key), found),
        Entry::Changed { before, .. } => check_key_states(alloc, file, facts, Some(before), found),
        Entry::Bound { state, .. } => check_key_state(alloc, file, facts, state, found),
        Entry::Taken(key, _) | Entry::Given(key, _) | Entry::Fresh(key, _) => {
            check_key_states(alloc, file, facts, states_said(key), found)
        }
    }
}

#[tactic(auto, using(vlt_kinds_types::proofs::OfNames::Least::least_of_both), unfolding(crate::specs::Heads::entry_states_refused))]
fn check_entry_states(
    alloc: Global,
    file: &File<'_>,
    facts: &Facts,
    entry: &Entry,
    found: &mut LeastRefusal,
) -> Result<(), AllocError>
    ensures { OnOk result (found.new.least ≡ least_from found.old.least
        (h.entry_states_refused (file_seen file.now) facts.now (view.entry_of entry.now))) }
{
    check_first_states(alloc, file, facts, entry, found)?;
    check_key_states(alloc, file, facts, second_states(entry), found)?;
    Ok(())
}

#[tactic(auto, using(vlt_kinds_types::proofs::OfNames::Least::least_of_both), unfolding(crate::specs::Heads::entry_refused))]
fn check_entry(
    alloc: Global,
    file: &File<'_>,
    keys: &HeadKeys<'_>,
    entry: &Entry,
    found: &mut LeastRefusal,
) -> Result<(), AllocError>
    ensures { OnOk result (found.new.least ≡ least_from found.old.least
        (h.entry_refused (file_seen file.now) (keys_seen keys.now) (view.entry_of entry.now))) }
{
    let key = entry_key(entry);
    let facts = keys.facts_of(key.text.as_slice())?;
    check_entry_key(&facts, is_fresh(entry), key.at.from, found);
    check_entry_states(alloc, file, &facts, entry, found)?;
    Ok(())
}

/// Refuses keys and states of a clause.
pub fn check_entries(
    alloc: Global,
    file: &File<'_>,
    keys: &HeadKeys<'_>,
    clause: &[Entry],
    found: &mut LeastRefusal,
) -> Result<(), AllocError>
    ensures { OnOk result (found.new.least ≡ found_each
        (h.entry_refused (file_seen file.now) (keys_seen keys.now))
        (map view.entry_of clause.now) found.old.least) }
{
    for entry in clause {
        check_entry(alloc, file, keys, entry, found)?;
    }
    Ok(())
}

// ---- main

fn is_void(result_type: &ResultType) -> bool
    ensures { result ≡ h.is_void (view.result_type_of result_type.now) }
{
    matches!(result_type, ResultType::Void(_))
}

fn is_tracked_result(result_type: &ResultType, key: &Name) -> bool
    ensures { result ≡ h.is_tracked_result (view.result_type_of result_type.now)
        (view.name_of key.now) }
{
    match result_type {
        ResultType::Value(Ty::Tracked { key: other, .. }) => key.text.as_slice()
            == other.text.as_slice(),
        _ => false,
    }
}

fn is_main_clause(result_type: &ResultType, clause: &[Entry]) -> bool
    ensures { result ≡ h.is_main_clause (view.result_type_of result_type.now)
        (map view.entry_of clause.now) }
{
    match clause {
        [] => is_void(result_type),
        [Entry::Fresh(states, _)] => is_tracked_result(result_type, &states.key),
        _ => false,
    }
}

/// Refuses a `main` that a program can't begin with.
#[tactic(auto, unfolding(crate::specs::Heads::main_refused))]
pub fn check_main(head: &Head, found: &mut LeastRefusal)
    ensures { found.new.least ≡ least_from found.old.least
        (h.main_refused (view.head_of head.now)) }
{
    let name = &head.name;
    let fits = head.parameters.as_slice().is_empty()
        && is_main_clause(&head.result_type, clause_in(&head.clause));
    found.add_if(
        name.text.as_slice() == MAIN && !fits,
        rules::MAIN_HEAD,
        name.at.from,
    );
}
