//! States that are listed by name.

ghost use Rattle.std.specs.Prelude.{◌≡◌, ◌<◌, ◌≤◌, ℕ, length, [], ◌∷◌, Some, map, option_map, All, IfSome, IfOk, OnOk};
ghost use Rattle.vlt_base.specs.States.{has_state};
ghost use Rattle.vlt_syntax.specs.Tree as s;
ghost use Rattle.vlt_syntax.specs.View as view;
ghost use Rattle.vlt_kinds_types.specs.Names.Refusals.{least_from};
ghost use Rattle.vlt_kinds_types.specs.Files as f;
ghost use Rattle.vlt_kinds_types.specs.Types as t;
ghost use Rattle.vlt_kinds_types.specs.Seen.{file_seen, states_seen};

use crate::file::File;
use crate::names::{LeastRefusal, rules};
use crate::shapes::Shape;
use crate::states::StateNames;
use std::alloc::{AllocError, Global};
use vlt_base::{Items, StateSet};
use vlt_syntax::{Name, States};

impl File<'_> {
    /// The names of the states of a type of this shape.
    #[tactic(auto, unfolding(crate::specs::Files::state_names))]
    pub fn state_names(&self, shape: Option<&Shape>) -> StateNames<'_>
        ensures { states_seen result ≡ f.state_names (file_seen self.now)
            (option_map (λ s. s.now) shape.entry) }
    {
        let Some(
            Shape {
                set: Some(number),
                ..
            },
        ) = shape
        else {
            return StateNames { names: None };
        };
        match self.sets.get(*number as usize) {
            None => StateNames { names: None },
            Some(decl) => StateNames {
                names: Some(decl.states.as_slice()),
            },
        }
    }
}

/// The position of the name among these.
pub fn position_of(names: &[Items<u8>], name: &Name) -> Option<u8>
    requires { length names.now ≤ 32 }
    ensures number { result ≡ f.state_number (map (λ n. n) names.now) (view.name_of name.now) }
    ensures small { IfSome result (λ i. i < 32) }
{
    for (i, state) in names.iter().enumerate() {
        if name.text.as_slice() == state.as_slice() {
            return Some(i as u8);
        }
    }
    None
}

impl StateNames<'_> {
    /// The number of the state of this name.
    pub fn number(&self, name: &Name) -> Option<u8>
        ensures number { result ≡ f.state_number (t.known_states (states_seen self.now))
            (view.name_of name.now) }
        ensures small { IfSome result (λ i. i < 32) }
    {
        match self.names {
            None => None,
            Some(names) => position_of(names, name),
        }
    }

    /// All states of the type. Without a set it has one.
    pub fn all(&self) -> StateSet
        ensures { has_state result ≡ t.all_states_in (states_seen self.now) }
    {
        match self.names {
            None => StateSet::first(1),
            Some(names) => StateSet::first(names.len() as u8),
        }
    }
}

fn is_listed(seen: &[u8], number: u8) -> bool
    ensures { result ≡ t.is_listed seen.now number }
{
    for other in seen {
        if number == *other {
            return true;
        }
    }
    false
}

/// Adds the number that is listed next, below 32, and says whether it is unknown or was listed before.
pub fn add_listed(seen: &mut Items<u8>, number: Option<u8>) -> Result<bool, AllocError>
    requires seen { All (λ i. i < 32) seen.old }
    requires number { IfSome number (λ i. i < 32) }
    ensures seen { OnOk result (seen.new ≡ t.with_listed seen.old number) }
    ensures again { IfOk result (λ again. again ≡ t.is_unknown_or_listed seen.old number) }
    ensures small { OnOk result (All (λ i. i < 32) seen.new) }
{
    let Some(number) = number else {
        return Ok(true);
    };
    if is_listed(seen.as_slice(), number) {
        return Ok(true);
    }
    seen.push(number)?;
    Ok(false)
}

fn names_in_states(states: &States) -> &[Name]
    ensures { view.names_of result.now ≡ t.names_in_states (view.states_of states.now) }
{
    match states {
        States::One(name) => std::slice::from_ref(name),
        States::Several(names, _) => names.as_slice(),
    }
}

fn check_listed(
    alloc: Global,
    known: &StateNames<'_>,
    names: &[Name],
    found: &mut LeastRefusal,
) -> Result<(), AllocError>
    ensures { OnOk result (found.new.least ≡ least_from found.old.least
        (t.listed_refused (t.known_states (states_seen known.now)) [] (view.names_of names.now))) }
{
    let mut seen = Items::new(alloc);
    for name in names {
        let refused = add_listed(&mut seen, known.number(name))?;
        found.add_if(refused, rules::NOT_A_STATE, name.at.from);
    }
    Ok(())
}

/// Refuses each listed name that is no state of these, or is listed for another time.
#[tactic(auto, unfolding(crate::specs::Types::states_refused))]
pub fn check_some_states(
    alloc: Global,
    known: &StateNames<'_>,
    states: &States,
    found: &mut LeastRefusal,
) -> Result<(), AllocError>
    ensures { OnOk result (found.new.least ≡ least_from found.old.least
        (t.states_refused (states_seen known.now) (Some (view.states_of states.now)))) }
{
    check_listed(alloc, known, names_in_states(states), found)
}

/// The same of one state.
#[tactic(auto, unfolding(crate::specs::Types::states_refused))]
pub fn check_state(
    alloc: Global,
    known: &StateNames<'_>,
    state: &Name,
    found: &mut LeastRefusal,
) -> Result<(), AllocError>
    ensures { OnOk result (found.new.least ≡ least_from found.old.least
        (t.states_refused (states_seen known.now) (Some (s.one (view.name_of state.now))))) }
{
    check_listed(alloc, known, std::slice::from_ref(state), found)
}

/// The same of states that may be left out.
#[tactic(auto, unfolding(crate::specs::Types::states_refused))]
pub fn check_states(
    alloc: Global,
    known: &StateNames<'_>,
    states: &Option<States>,
    found: &mut LeastRefusal,
) -> Result<(), AllocError>
    ensures { OnOk result (found.new.least ≡ least_from found.old.least
        (t.states_refused (states_seen known.now) (option_map view.states_of states.now))) }
{
    match states {
        None => Ok(()),
        Some(states) => check_some_states(alloc, known, states, found),
    }
}

fn listed_numbers(
    alloc: Global,
    known: &StateNames<'_>,
    names: &[Name],
) -> Result<Items<u8>, AllocError>
    ensures numbers { IfOk result (λ numbers.
        numbers ≡ t.listed_numbers (t.known_states (states_seen known.now)) []
        (view.names_of names.now)) }
    ensures small { IfOk result (All (λ i. i < 32)) }
{
    let mut seen = Items::new(alloc);
    for name in names {
        let _refused = add_listed(&mut seen, known.number(name))?;
    }
    Ok(seen)
}

fn set_of_more(first: u8, more: &[u8]) -> StateSet
    requires first { first < 32 }
    requires more { All (λ i. i < 32) more.now }
    ensures { (i : ℕ) → has_state result i ≡ t.is_listed (first ∷ more.now) i }
{
    let mut set = StateSet::only(first);
    for number in more {
        set = set.join(StateSet::only(*number));
    }
    set
}

fn set_of_numbers(numbers: &[u8]) -> StateSet
    requires { All (λ i. i < 32) numbers.now }
    ensures { has_state result ≡ t.set_of_numbers numbers.now }
{
    match numbers {
        [] => StateSet::only(0),
        [first, more @ ..] => set_of_more(*first, more),
    }
}

/// The states that are listed.
pub fn some_states_listed(
    alloc: Global,
    known: &StateNames<'_>,
    states: &States,
) -> Result<StateSet, AllocError>
    ensures { IfOk result (λ set. has_state set
        ≡ t.states_listed (states_seen known.now) (Some (view.states_of states.now))) }
{
    let numbers = listed_numbers(alloc, known, names_in_states(states))?;
    Ok(set_of_numbers(numbers.as_slice()))
}

/// The states that are listed, or all.
pub fn states_listed(
    alloc: Global,
    known: &StateNames<'_>,
    states: &Option<States>,
) -> Result<StateSet, AllocError>
    ensures { IfOk result (λ set. has_state set
        ≡ t.states_listed (states_seen known.now) (option_map view.states_of states.now)) }
{
    match states {
        None => Ok(known.all()),
        Some(states) => some_states_listed(alloc, known, states),
    }
}
