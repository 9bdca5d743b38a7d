//! The rules on declared types and state sets.

ghost use Rattle.std.specs.Prelude.{◌≡◌, ◌≤◌, map, length, OnOk};
ghost use Rattle.vlt_syntax.specs.View as view;
ghost use Rattle.vlt_syntax.specs.Lists.{Each};
ghost use Rattle.vlt_syntax.specs.Grammar.{IsDecl, language};
ghost use Rattle.vlt_kinds_types.specs.Names.Refusals.{least_from, found_each};
ghost use Rattle.vlt_kinds_types.specs.Seen.{file_seen};
ghost use Rattle.vlt_kinds_decls.specs.Decls as d;

use crate::cases::check_variant;
use crate::fields::check_struct;
use crate::order::has_loop;
use std::alloc::{AllocError, Global};
use vlt_core::rules;
use vlt_kinds_types::{File, LeastRefusal, links_of};
use vlt_syntax::{Decl, Name, SetState};

#[tactic(auto, unfolding(crate::specs::Decls::set_refused))]
fn check_set(
    alloc: Global,
    name: &Name,
    states: &[SetState],
    found: &mut LeastRefusal,
) -> Result<(), AllocError>
    requires some { 1 ≤ length states.now }
    requires few { length states.now ≤ 32 }
    ensures { OnOk result (found.new.least ≡ least_from found.old.least
        (d.set_refused (view.name_of name.now) (map view.set_state_of states.now))) }
{
    let links = links_of(alloc, states)?;
    found.add_if(has_loop(links.as_slice()), rules::ORDER_LOOP, name.at.from);
    Ok(())
}

fn check_decl(
    alloc: Global,
    file: &File<'_>,
    decl: &Decl,
    found: &mut LeastRefusal,
) -> Result<(), AllocError>
    requires { IsDecl language (view.decl_of decl.now) }
    ensures { OnOk result (found.new.least ≡ least_from found.old.least
        (d.type_refused (file_seen file.now) (view.decl_of decl.now))) }
{
    match decl {
        Decl::StateSet { name, states, .. } => check_set(alloc, name, states.as_slice(), found),
        Decl::Struct {
            name,
            params,
            fields,
            release,
            ..
        } => {
            check_struct(
                alloc,
                file,
                name,
                params.as_slice(),
                fields.as_slice(),
                release,
                found,
            )
        }
        Decl::Variant { params, cases, .. } => {
            check_variant(alloc, file, params.as_slice(), cases.as_slice(), found)
        }
        _ => Ok(()),
    }
}

fn check_decls(
    alloc: Global,
    file: &File<'_>,
    decls: &[Decl],
    found: &mut LeastRefusal,
) -> Result<(), AllocError>
    requires { Each (IsDecl language) (map view.decl_of decls.now) }
    ensures { OnOk result (found.new.least ≡ found_each (d.type_refused (file_seen file.now))
        (map view.decl_of decls.now) found.old.least) }
{
    for decl in decls {
        check_decl(alloc, file, decl, found)?;
    }
    Ok(())
}

/// Refuses what is wrong in the declared types and state sets of a file.
#[tactic(auto, using(vlt_kinds_types::proofs::OfNames::Least::each_is), unfolding(crate::specs::Decls::types_refused))]
pub fn check_types(
    alloc: Global,
    file: &File<'_>,
    decls: &[Decl],
    found: &mut LeastRefusal,
) -> Result<(), AllocError>
    requires { Each (IsDecl language) (map view.decl_of decls.now) }
    ensures { OnOk result (found.new.least ≡ least_from found.old.least
        (d.types_refused (file_seen file.now) (map view.decl_of decls.now))) }
{
    check_decls(alloc, file, decls, found)?;
    Ok(())
}
