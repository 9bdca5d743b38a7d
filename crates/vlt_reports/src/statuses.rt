//! Statuses with the states that they name.

ghost use Rattle.std.specs.Prelude.{◌≡◌, ◌++◌, ℕ, List, map, IfOk, codes};
ghost use Rattle.std.specs.List.{flat_map};
ghost use Rattle.vlt_base.specs.States.{has_state};
ghost use Rattle.vlt_core.specs.HeldView.{status_of, wanted_of};
ghost use Rattle.vlt_reports.specs.Reports.{named_in, states_text, in_states, status_text, wanted_text};
ghost use Rattle.vlt_reports.specs.Seen.{names_known};
ghost use Rattle.vlt_reports.specs.Writing.{Adds};

use std::alloc::{AllocError, Global};
use vlt_base::{Items, StateSet};
use vlt_core::{Status, Wanted};

/// Whether the number is in the set, however large it is.
fn has_number(states: StateSet, number: usize) -> bool
    ensures { result ≡ has_state states number }
{
    number < 32 && states.has(number as u8)
}

/// Adds a text.
pub fn add(out: &mut Vec<u8>, text: &[u8]) -> Result<(), AllocError>
    ensures { Adds result out.old.items out.new.items text.now }
{
    out.extend_from_slice(text)
}

/// The names of those states that are in the set, by number.
fn named<'a>(
    alloc: Global,
    names: &'a [Items<u8>],
    states: StateSet,
) -> Result<Vec<&'a [u8]>, AllocError>
    ensures { IfOk result (λ v.
        map (λ n. n.now) v.items ≡ named_in (has_state states) 0 (map (λ n. n) names.now)) }
{
    let mut found = Vec::new(alloc);
    for (number, name) in names.iter().enumerate() {
        if has_number(states, number) {
            found.push(name.as_slice())?;
        }
    }
    Ok(found)
}

/// Adds names, each after a comma.
fn add_further(out: &mut Vec<u8>, names: &[&[u8]]) -> Result<(), AllocError>
    ensures { Adds result out.old.items out.new.items
        (flat_map (λ n. codes "," ++ n) (map (λ n. n.now) names.now)) }
{
    for name in names {
        add(out, b",")?;
        add(out, name)?;
    }
    Ok(())
}

/// Adds one state by its name, more between braces.
fn add_states(out: &mut Vec<u8>, names: &[&[u8]]) -> Result<(), AllocError>
    ensures { Adds result out.old.items out.new.items
        (states_text (map (λ n. n.now) names.now)) }
{
    match names {
        [] => add(out, b"@{}"),
        [name] => {
            add(out, b"@")?;
            add(out, name)
        }
        [name, further @ ..] => {
            add(out, b"@{")?;
            add(out, name)?;
            add_further(out, further)?;
            add(out, b"}")
        }
    }
}

/// Adds the states of a set, or nothing where a token's object has no set of states.
pub fn add_set(
    out: &mut Vec<u8>,
    alloc: Global,
    names: Option<&[Items<u8>]>,
    states: StateSet,
) -> Result<(), AllocError>
    ensures { Adds result out.old.items out.new.items
        (in_states (names_known names.entry) (has_state states)) }
{
    match names {
        None => Ok(()),
        Some(names) => {
            let found = named(alloc, names, states)?;
            add_states(out, &found)
        }
    }
}

/// Adds a status.
pub fn add_status(
    out: &mut Vec<u8>,
    alloc: Global,
    names: Option<&[Items<u8>]>,
    status: Status,
) -> Result<(), AllocError>
    ensures { Adds result out.old.items out.new.items
        (status_text (names_known names.entry) (status_of status)) }
{
    match status {
        Status::Absent => add(out, b"absent"),
        Status::Held(states) => {
            add(out, b"held")?;
            add_set(out, alloc, names, states)
        }
        Status::Lent(states) => {
            add(out, b"lent")?;
            add_set(out, alloc, names, states)
        }
        Status::Full => add(out, b"full"),
    }
}

/// Adds what a row wants.
pub fn add_wanted(
    out: &mut Vec<u8>,
    alloc: Global,
    names: Option<&[Items<u8>]>,
    wanted: Wanted,
) -> Result<(), AllocError>
    ensures { Adds result out.old.items out.new.items
        (wanted_text (names_known names.entry) (wanted_of wanted)) }
{
    match wanted {
        Wanted::Absent => add(out, b"absent"),
        Wanted::Any => add(out, b"held"),
        Wanted::In(states) => {
            add(out, b"held")?;
            add_set(out, alloc, names, states)
        }
        Wanted::Lent => add(out, b"lent"),
        Wanted::Full => add(out, b"full"),
    }
}
