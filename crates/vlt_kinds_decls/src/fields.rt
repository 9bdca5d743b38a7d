//! Structs.

ghost use Rattle.std.specs.Prelude.{◌≡◌, map, option_map, OnOk};
ghost use Rattle.vlt_syntax.specs.View as view;
ghost use Rattle.vlt_kinds_types.specs.Names.Refusals.{least_from, found_each};
ghost use Rattle.vlt_kinds_types.specs.Seen.{file_seen, states_seen};
ghost use Rattle.vlt_kinds_decls.specs.Decls as d;

use crate::header::{check_header, check_typed};
use crate::parts::Part;
use std::alloc::{AllocError, Global};
use vlt_kinds_types::{File, LeastRefusal, StateNames, check_states};
use vlt_syntax::{Field, HeaderKey, Name, States};

#[tactic(auto, using(vlt_kinds_types::proofs::OfNames::Least::least_of_both), unfolding(crate::specs::Decls::field_refused))]
fn check_field(
    alloc: Global,
    file: &File<'_>,
    params: &[HeaderKey],
    known: &StateNames<'_>,
    field: &Field,
    found: &mut LeastRefusal,
) -> Result<(), AllocError>
    ensures { OnOk result (found.new.least ≡ least_from found.old.least
        (d.field_refused (file_seen file.now) (map view.header_key_of params.now)
        (states_seen known.now) (view.field_of field.now))) }
{
    check_typed(alloc, file, params, Part::Field, &field.ty, found)?;
    check_states(alloc, known, &field.states, found)?;
    Ok(())
}

fn check_fields(
    alloc: Global,
    file: &File<'_>,
    params: &[HeaderKey],
    known: &StateNames<'_>,
    fields: &[Field],
    found: &mut LeastRefusal,
) -> Result<(), AllocError>
    ensures { OnOk result (found.new.least ≡ found_each (d.field_refused (file_seen file.now)
        (map view.header_key_of params.now) (states_seen known.now))
        (map view.field_of fields.now) found.old.least) }
{
    for field in fields {
        check_field(alloc, file, params, known, field, found)?;
    }
    Ok(())
}

/// Refuses what is wrong in a struct.
#[tactic(auto, using(vlt_kinds_types::proofs::OfNames::Least::least_of_both, vlt_kinds_types::proofs::OfNames::Least::each_is), unfolding(crate::specs::Decls::struct_refused))]
pub fn check_struct(
    alloc: Global,
    file: &File<'_>,
    name: &Name,
    params: &[HeaderKey],
    fields: &[Field],
    release: &Option<States>,
    found: &mut LeastRefusal,
) -> Result<(), AllocError>
    ensures { OnOk result (found.new.least ≡ least_from found.old.least
        (d.struct_refused (file_seen file.now) (view.name_of name.now)
        (map view.header_key_of params.now) (map view.field_of fields.now)
        (option_map view.states_of release.now))) }
{
    check_header(file, params, found);
    let known = file.state_names(file.shape_named(name));
    check_fields(alloc, file, params, &known, fields, found)?;
    check_states(alloc, &known, release, found)?;
    Ok(())
}
