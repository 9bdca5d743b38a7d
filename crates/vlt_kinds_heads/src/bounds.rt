//! The rule on bound entries.

ghost use Rattle.std.specs.Prelude.{◌≡◌, false, map};
ghost use Rattle.vlt_syntax.specs.View as view;
ghost use Rattle.vlt_kinds_types.specs.Names.Refusals.{least_from};
ghost use Rattle.vlt_kinds_types.specs.Names.Along.{found_along};
ghost use Rattle.vlt_kinds_types.specs.Names.Globals.{names_seen};
ghost use Rattle.vlt_kinds_heads.specs.Bounds as b;
ghost use Rattle.vlt_kinds_heads.specs.Seen.{keys_seen};

use crate::keys::HeadKeys;
use vlt_core::rules;
use vlt_kinds_types::{Globals, LeastRefusal};
use vlt_syntax::{Entry, Name, Parameter};

fn is_bound(entry: &Entry) -> bool
    ensures { result ≡ b.is_bound (view.entry_of entry.now) }
{
    matches!(entry, Entry::Bound { .. })
}

fn is_key(keys: &HeadKeys<'_>, name: &Name) -> bool
    ensures { result ≡ b.is_key (keys_seen keys.now) (view.name_of name.now).text }
{
    keys.find(name.text.as_slice()).is_some()
}

fn is_parameter(parameters: &[Parameter], name: &Name) -> bool
    ensures { result ≡ b.is_parameter (map view.parameter_of parameters.now)
        (view.name_of name.now).text }
{
    for parameter in parameters {
        if name.text.as_slice() == parameter.name.text.as_slice() {
            return true;
        }
    }
    false
}

/// Whether something in the file has the name, or a key or a parameter of the head.
#[tactic(auto, unfolding(crate::specs::Bounds::is_taken))]
fn is_taken(known: &Globals<'_>, keys: &HeadKeys<'_>, parameters: &[Parameter], name: &Name) -> bool
    ensures { result ≡ b.is_taken (names_seen known.now) (keys_seen keys.now)
        (map view.parameter_of parameters.now) (view.name_of name.now).text }
{
    known.has(name.text.as_slice()) || is_key(keys, name) || is_parameter(parameters, name)
}

fn check_variable(
    known: &Globals<'_>,
    keys: &HeadKeys<'_>,
    parameters: &[Parameter],
    again: bool,
    entry: &Entry,
    found: &mut LeastRefusal,
)
    ensures { found.new.least ≡ least_from found.old.least
        (b.variable_refused (names_seen known.now) (keys_seen keys.now)
        (map view.parameter_of parameters.now) again (view.entry_of entry.now)) }
{
    if let Entry::Bound { variable, .. } = entry {
        found.add_if(
            again || is_taken(known, keys, parameters, variable),
            rules::SECOND_BOUND,
            variable.at.from,
        );
    }
}

/// Refuses each bound entry but the first, and a state variable that has the name of something else.
pub fn check_variables(
    known: &Globals<'_>,
    keys: &HeadKeys<'_>,
    parameters: &[Parameter],
    clause: &[Entry],
    found: &mut LeastRefusal,
)
    ensures { found.new.least ≡ found_along b.after_bound
        (b.variable_refused (names_seen known.now) (keys_seen keys.now)
        (map view.parameter_of parameters.now)) false (map view.entry_of clause.now)
        found.old.least }
{
    let mut again = false;
    for entry in clause {
        check_variable(known, keys, parameters, again, entry, found);
        again = again || is_bound(entry);
    }
}
