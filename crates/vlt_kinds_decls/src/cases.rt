//! Variants.

ghost use Rattle.std.specs.Prelude.{◌≡◌, ◌<◌, ◌≤◌, ℕ, [], map, option_map, length, All, OnOk};
ghost use Rattle.vlt_syntax.specs.View as view;
ghost use Rattle.vlt_kinds_types.specs.Names.Refusals.{least_from, found_each};
ghost use Rattle.vlt_kinds_types.specs.Names.Along.{found_along};
ghost use Rattle.vlt_kinds_types.specs.Seen.{file_seen};
ghost use Rattle.vlt_kinds_decls.specs.Decls as d;
ghost use Rattle.vlt_kinds_decls.specs.declared.parts.Part.TheVariants as part;

use crate::header::{check_header, check_typed, header_position, wanted_of};
use crate::parts::Part;
use std::alloc::{AllocError, Global};
use vlt_base::Items;
use vlt_kinds_types::{File, LeastRefusal, Wanted, add_listed, rules};
use vlt_syntax::{Case, HeaderKey, KeyStates, States, Ty};

fn is_any(wanted: Option<Wanted>) -> bool
    ensures { result ≡ d.is_any wanted }
{
    matches!(wanted, Some(Wanted::Any))
}

fn check_object_states(
    alloc: Global,
    file: &File<'_>,
    wanted: Option<Wanted>,
    states: &Option<States>,
    found: &mut LeastRefusal,
) -> Result<(), AllocError>
    ensures { OnOk result (found.new.least ≡ least_from found.old.least
        (d.object_states_refused (file_seen file.now) wanted
        (option_map view.states_of states.now))) }
{
    match wanted {
        Some(Wanted::OfType(number)) => file.check_owned_states(
            alloc,
            file.shape_at(number),
            states,
            found,
        ),
        _ => Ok(()),
    }
}

#[tactic(auto, unfolding(crate::specs::Decls::case_key_refused))]
fn check_case_key(
    alloc: Global,
    file: &File<'_>,
    params: &[HeaderKey],
    is_wrong: bool,
    key: &KeyStates,
    found: &mut LeastRefusal,
) -> Result<(), AllocError>
    ensures { OnOk result (found.new.least ≡ least_from found.old.least
        (d.case_key_refused (file_seen file.now) (map view.header_key_of params.now) is_wrong
        (view.key_states_of key.now))) }
{
    let wanted = wanted_of(&file.globals, params, key.key.text.as_slice());
    if is_wrong || is_any(wanted) {
        found.add(rules::CASE_KEY, key.key.at.from);
        return Ok(());
    }
    check_object_states(alloc, file, wanted, &key.states, found)
}

#[tactic(auto, unfolding(crate::specs::Decls::next_key_refused))]
fn check_next_key(
    alloc: Global,
    file: &File<'_>,
    params: &[HeaderKey],
    seen: &mut Items<u8>,
    key: &KeyStates,
    found: &mut LeastRefusal,
) -> Result<(), AllocError>
    requires few { length params.now ≤ 32 }
    requires seen { All (λ i. i < 32) seen.old }
    ensures seen { OnOk result (seen.new
        ≡ d.with_key (map view.header_key_of params.now) seen.old (view.key_states_of key.now)) }
    ensures small { OnOk result (All (λ i. i < 32) seen.new) }
    ensures refused { OnOk result (found.new.least
        ≡ least_from found.old.least (d.next_key_refused (file_seen file.now)
        (map view.header_key_of params.now) seen.old (view.key_states_of key.now))) }
{
    let is_wrong = add_listed(seen, header_position(params, key.key.text.as_slice()))?;
    check_case_key(alloc, file, params, is_wrong, key, found)?;
    Ok(())
}

fn check_case_keys(
    alloc: Global,
    file: &File<'_>,
    params: &[HeaderKey],
    keys: &[KeyStates],
    found: &mut LeastRefusal,
) -> Result<(), AllocError>
    requires { length params.now ≤ 32 }
    ensures { OnOk result (found.new.least ≡ found_along
        (d.with_key (map view.header_key_of params.now))
        (d.next_key_refused (file_seen file.now) (map view.header_key_of params.now)) []
        (map view.key_states_of keys.now) found.old.least) }
{
    let mut seen = Items::new(alloc);
    for key in keys {
        check_next_key(alloc, file, params, &mut seen, key, found)?;
    }
    Ok(())
}

fn check_payload(
    alloc: Global,
    file: &File<'_>,
    params: &[HeaderKey],
    payload: &[Ty],
    found: &mut LeastRefusal,
) -> Result<(), AllocError>
    ensures { OnOk result (found.new.least ≡ found_each (d.typed_refused (file_seen file.now)
        (map view.header_key_of params.now) part.Payload)
        (map view.ty_of payload.now) found.old.least) }
{
    for ty in payload {
        check_typed(alloc, file, params, Part::Payload, ty, found)?;
    }
    Ok(())
}

#[tactic(auto, using(vlt_kinds_types::proofs::OfNames::Least::least_of_both, vlt_kinds_types::proofs::OfNames::Least::each_is, vlt_kinds_types::proofs::OfNames::Along::along_is), unfolding(crate::specs::Decls::case_refused))]
fn check_case(
    alloc: Global,
    file: &File<'_>,
    params: &[HeaderKey],
    case: &Case,
    found: &mut LeastRefusal,
) -> Result<(), AllocError>
    requires { length params.now ≤ 32 }
    ensures { OnOk result (found.new.least ≡ least_from found.old.least
        (d.case_refused (file_seen file.now) (map view.header_key_of params.now)
        (view.case_of case.now))) }
{
    check_payload(alloc, file, params, case.payload.as_slice(), found)?;
    check_case_keys(alloc, file, params, case.keys.as_slice(), found)?;
    Ok(())
}

fn check_cases(
    alloc: Global,
    file: &File<'_>,
    params: &[HeaderKey],
    cases: &[Case],
    found: &mut LeastRefusal,
) -> Result<(), AllocError>
    requires { length params.now ≤ 32 }
    ensures { OnOk result (found.new.least ≡ found_each (d.case_refused (file_seen file.now)
        (map view.header_key_of params.now)) (map view.case_of cases.now) found.old.least) }
{
    for case in cases {
        check_case(alloc, file, params, case, found)?;
    }
    Ok(())
}

/// Refuses what is wrong in a variant.
#[tactic(auto, using(vlt_kinds_types::proofs::OfNames::Least::least_of_both, vlt_kinds_types::proofs::OfNames::Least::each_is), unfolding(crate::specs::Decls::variant_refused))]
pub fn check_variant(
    alloc: Global,
    file: &File<'_>,
    params: &[HeaderKey],
    cases: &[Case],
    found: &mut LeastRefusal,
) -> Result<(), AllocError>
    requires { length params.now ≤ 32 }
    ensures { OnOk result (found.new.least ≡ least_from found.old.least
        (d.variant_refused (file_seen file.now) (map view.header_key_of params.now)
        (map view.case_of cases.now))) }
{
    check_header(file, params, found);
    check_cases(alloc, file, params, cases, found)?;
    Ok(())
}
