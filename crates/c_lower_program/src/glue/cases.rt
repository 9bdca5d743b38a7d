//! The parts of a variant's cases.

ghost use Rattle.std.specs.Prelude.{◌≡◌, ◌≤◌, ◌++◌, [], ◌∷◌, map, length, OnOk, IfOk};
ghost use Rattle.vlt_core.specs.Lookups.{cases_of};
ghost use Rattle.vlt_core.specs.View.{case_key_of, case_of, keys_of, program_of, ty_of};
ghost use Rattle.c_syntax.specs.View.{stmt_of};
ghost use Rattle.c_lower.specs.Glue as g;
ghost use Rattle.c_lower.specs.Glue.{slot_at, when_case};
ghost use Rattle.c_lower.specs.Slots.{first_slot};
ghost use Rattle.c_lower_exprs.specs.Scopes.{IsScope, func_in, program_in};
ghost use Rattle.c_lower_program.specs.Glue.Parts.{case_code, cases_code, key_code, keys_code, payloads_code, variant_code, case_pick};

use crate::glue::keys::{Way, move_key};
use crate::glue::masks::{cases_mask, push_pick};
use crate::glue::payloads::{Part, push_payload};
use c_lower_calls::value_one;
use c_lower_exprs::{NO_SLOT, Scope};
use c_lower_stmts::push_case;
use c_syntax::{CPrim, CStmt, CVar};
use std::alloc::Global;
use vlt_base::{Items, KeyId, Memory, StateSet, TypeId};
use vlt_core::{CaseDecl, Program, Ty, TypeDecl};

/// A result that is a variant: its type, the keys that stand for its header, and its slots.
#[derive(Clone, Copy)]
pub struct VariantResult<'a> {
    pub type_id: TypeId,
    pub args: &'a [KeyId],
    pub slots: &'a [CVar],
}

/// The cases of a variant, none of any other type.
pub fn cases_of(program: &Program, t: TypeId) -> &[CaseDecl]
    ensures { map case_of result.now ≡ cases_of (program_of program.now) t.0 }
{
    match program.types.get(t.0 as usize) {
        Some(TypeDecl::Variant { cases, .. }) => cases.as_slice(),
        _ => &[],
    }
}

/// The first of the slots.
pub fn first_slot(slots: &[CVar]) -> CVar
    ensures { result ≡ first_slot slots.now }
{
    match slots.first() {
        Some(slot) => *slot,
        None => NO_SLOT,
    }
}

/// The slot at a position.
fn slot_at(slots: &[CVar], position: u64) -> CVar
    ensures { result ≡ slot_at slots.now position }
{
    match usize::try_from(position) {
        Ok(at) => match slots.get(at) {
            Some(slot) => *slot,
            None => NO_SLOT,
        },
        Err(_) => NO_SLOT,
    }
}

/// The key that stands for one of the header.
fn key_in(args: &[KeyId], position: u32) -> KeyId
    ensures { result.0 ≡ g.key_in (keys_of args.now) position }
{
    match args.get(position as usize) {
        Some(key) => *key,
        None => KeyId(0),
    }
}

/// The part of a key that a case lists.
fn push_key(
    alloc: Global,
    scope: &Scope<'_>,
    out: &mut Items<CStmt>,
    part: Part,
    args: &[KeyId],
    key: &(u32, StateSet),
) -> Result<(), Memory>
    requires { IsScope scope.now }
    ensures { OnOk result (map stmt_of out.new ≡ map stmt_of out.old ++ key_code part
        (program_in scope.now) (func_in scope.now) (keys_of args.now) (case_key_of key.now)) }
{
    match part {
        Part::Numbers => push_pick(alloc, out, key.1),
        Part::Backs => move_key(alloc, scope, out, Way::Back, key_in(args, key.0)),
        Part::Objects => Ok(()),
    }
}

/// The part of the keys that a case lists.
fn push_keys(
    alloc: Global,
    scope: &Scope<'_>,
    out: &mut Items<CStmt>,
    part: Part,
    args: &[KeyId],
    keys: &[(u32, StateSet)],
) -> Result<(), Memory>
    requires { IsScope scope.now }
    ensures { OnOk result (map stmt_of out.new ≡ map stmt_of out.old ++ keys_code part
        (program_in scope.now) (func_in scope.now) (keys_of args.now) (map case_key_of keys.now)) }
{
    for key in keys {
        push_key(alloc, scope, out, part, args, key)?;
    }
    Ok(())
}

/// The part of payloads, each of which has the slot at its position.
fn push_payloads(
    alloc: Global,
    out: &mut Items<CStmt>,
    part: Part,
    slots: &[CVar],
    positions: &[u64],
    payload: &[Ty],
) -> Result<(), Memory>
    ensures { OnOk result (map stmt_of out.new ≡ map stmt_of out.old
        ++ payloads_code part slots.now positions.now (map ty_of payload.now)) }
{
    let mut rest = payload;
    for &position in positions {
        match rest.split_first() {
            Some((ty, more)) => {
                push_payload(alloc, out, part, slot_at(slots, position), ty)?;
                rest = more;
            }
            None => return Ok(()),
        }
    }
    Ok(())
}

/// The part of a case: that of its keys, and that of its payloads.
fn case_part(
    alloc: Global,
    scope: &Scope<'_>,
    part: Part,
    variant: &VariantResult<'_>,
    number: u8,
    case: &CaseDecl,
) -> Result<Items<CStmt>, Memory>
    requires { IsScope scope.now }
    ensures { IfOk result (λ xs. map stmt_of xs ≡ case_code part (program_in scope.now)
        (func_in scope.now) variant.now.type_id.0 (keys_of variant.now.args.now)
        variant.now.slots.now (number, case_of case.now)) }
{
    let positions = scope.case_positions(alloc, variant.type_id, number)?;
    let mut body = Items::new(alloc);
    let keys = case.keys.as_slice();
    push_keys(alloc, scope, &mut body, part, variant.args, keys)?;
    push_payloads(
        alloc,
        &mut body,
        part,
        variant.slots,
        positions.as_slice(),
        case.payload.as_slice(),
    )?;
    Ok(body)
}

/// The part of a case, where it has some.
fn push_case_part(
    alloc: Global,
    scope: &Scope<'_>,
    out: &mut Items<CStmt>,
    part: Part,
    variant: &VariantResult<'_>,
    number: u8,
    case: &CaseDecl,
) -> Result<(), Memory>
    requires { IsScope scope.now }
    ensures { OnOk result (map stmt_of out.new ≡ map stmt_of out.old
        ++ when_case (first_slot variant.now.slots.now) number
        (case_code part (program_in scope.now) (func_in scope.now) variant.now.type_id.0
        (keys_of variant.now.args.now) variant.now.slots.now (number, case_of case.now))) }
{
    let body = case_part(alloc, scope, part, variant, number, case)?;
    if body.is_empty() {
        return Ok(());
    }
    push_case(alloc, out, first_slot(variant.slots), number, body)
}

/// The part of each case.
fn push_cases(
    alloc: Global,
    scope: &Scope<'_>,
    out: &mut Items<CStmt>,
    part: Part,
    variant: &VariantResult<'_>,
    cases: &[CaseDecl],
) -> Result<(), Memory>
    requires scope { IsScope scope.now }
    requires few { length cases.now ≤ 63 }
    ensures { OnOk result (map stmt_of out.new ≡ map stmt_of out.old
        ++ cases_code part (program_in scope.now) (func_in scope.now) variant.now.type_id.0
        (keys_of variant.now.args.now) variant.now.slots.now 0 (map case_of cases.now)) }
{
    let mut number = 0;
    for case in cases {
        push_case_part(alloc, scope, out, part, variant, number, case)?;
        number += 1;
    }
    Ok(())
}

/// Asks the host for the case.
fn pick_case(
    alloc: Global,
    out: &mut Items<CStmt>,
    part: Part,
    slot: CVar,
    count: usize,
) -> Result<(), Memory>
    requires { count ≤ 63 }
    ensures { OnOk result (map stmt_of out.new
        ≡ map stmt_of out.old ++ case_pick part slot count) }
{
    match part {
        Part::Numbers => value_one(alloc, out, slot, CPrim::Pick, cases_mask(count)),
        Part::Backs | Part::Objects => Ok(()),
    }
}

/// The part of a variant.
pub fn push_variant(
    alloc: Global,
    scope: &Scope<'_>,
    out: &mut Items<CStmt>,
    part: Part,
    variant: &VariantResult<'_>,
) -> Result<(), Memory>
    requires scope { IsScope scope.now }
    requires few { length (cases_of (program_in scope.now) variant.now.type_id.0) ≤ 63 }
    ensures { OnOk result (map stmt_of out.new ≡ map stmt_of out.old
        ++ variant_code part (program_in scope.now) (func_in scope.now) variant.now.type_id.0
        (keys_of variant.now.args.now) variant.now.slots.now) }
{
    let cases = cases_of(scope.program, variant.type_id);
    pick_case(alloc, out, part, first_slot(variant.slots), cases.len())?;
    push_cases(alloc, scope, out, part, variant, cases)
}
