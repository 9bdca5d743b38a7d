//! The result of an external: its slots, the parts of the code that are made of it, and what goes to the caller.

ghost use Rattle.std.specs.Prelude.{◌≡◌, ◌≤◌, ◌++◌, [], ◌∷◌, map, length, Some, OnOk, IfOk};
ghost use Rattle.vlt_core.specs.View.{ty_of};
ghost use Rattle.c_syntax.specs.View.{stmt_of};
ghost use Rattle.c_lower.specs.Slots as s;
ghost use Rattle.c_lower.specs.Slots.{first_temps, past_all, vars_at};
ghost use Rattle.c_lower.specs.Expressions as e;
ghost use Rattle.c_lower.specs.Glue.{clear, give_back};
ghost use Rattle.c_lower_exprs.specs.Tables.{numbers_of, sort_of};
ghost use Rattle.c_lower_exprs.specs.Scopes.{IsScope, func_in, program_in};
ghost use Rattle.c_lower_exprs.specs.Coded.{atom_of};
ghost use Rattle.c_lower_program.specs.Glue.Parts.{result_clears, result_code};
ghost use Rattle.c_lower_program.specs.Glue.ManyCases.{result_cases};

use crate::glue::cases::{VariantResult, first_slot, push_variant};
use crate::glue::payloads::{Part, push_plain};
use c_lower_calls::{gives_variant, return_atoms};
use c_lower_exprs::{Atom, Numbers, Scope, Sort, set_atom, sorts_of};
use c_syntax::{CStmt, CVar};
use std::alloc::Global;
use vlt_base::{Items, Memory};
use vlt_core::Ty;

/// The slots of a result, and the numbers after them.
#[derive(Drop)]
pub struct ResultSlots {
    pub vars: Items<CVar>,
    pub next: Numbers,
}

/// The sorts of a result's slots.
fn result_sorts(alloc: Global, scope: &Scope<'_>) -> Result<Items<Sort>, Memory>
    requires { IsScope scope.now }
    ensures { IfOk result (λ ss. map sort_of ss
        ≡ s.sorts_of (program_in scope.now) (func_in scope.now).result) }
{
    match &scope.func.result {
        Some(ty) => sorts_of(alloc, scope.program, &scope.tables.variants, ty),
        None => Ok(Items::new(alloc)),
    }
}

/// The temps of these sorts.
fn temps_at(alloc: Global, start: Numbers, sorts: &[Sort]) -> Result<ResultSlots, Memory>
    ensures { IfOk result (λ x. (x.vars ≡ vars_at (numbers_of start) (map sort_of sorts.now))
        × (numbers_of x.next ≡ past_all (numbers_of start) (map sort_of sorts.now))) }
{
    let mut vars = Items::new(alloc);
    let mut next = start;
    for &sort in sorts {
        vars.push(next.variable(sort))?;
        next = next.past(sort)?;
    }
    Ok(ResultSlots { vars, next })
}

/// The slots of an external's result, which are temps.
pub fn result_slots(alloc: Global, scope: &Scope<'_>) -> Result<ResultSlots, Memory>
    requires { IsScope scope.now }
    ensures { IfOk result (λ x. (x.vars
        ≡ vars_at (first_temps (program_in scope.now) (func_in scope.now))
        (s.sorts_of (program_in scope.now) (func_in scope.now).result))
        × (numbers_of x.next ≡ past_all (first_temps (program_in scope.now) (func_in scope.now))
        (s.sorts_of (program_in scope.now) (func_in scope.now).result))) }
{
    let sorts = result_sorts(alloc, scope)?;
    temps_at(alloc, scope.frame.temps, sorts.as_slice())
}

/// A slot without a value.
fn clear(out: &mut Items<CStmt>, slot: CVar) -> Result<(), Memory>
    ensures { OnOk result (map stmt_of out.new ≡ map stmt_of out.old ++ clear slot ∷ []) }
{
    if slot.reference {
        set_atom(out, slot, Atom::Null)
    } else {
        set_atom(out, slot, Atom::Number(0))
    }
}

/// Slots without values.
fn clear_all(out: &mut Items<CStmt>, slots: &[CVar]) -> Result<(), Memory>
    ensures { OnOk result (map stmt_of out.new ≡ map stmt_of out.old ++ map clear slots.now) }
{
    for &slot in slots {
        clear(out, slot)?;
    }
    Ok(())
}

/// The slots of a variant are without values at first.
pub fn push_clears(scope: &Scope<'_>, out: &mut Items<CStmt>, slots: &[CVar]) -> Result<(), Memory>
    ensures { OnOk result (map stmt_of out.new ≡ map stmt_of out.old
        ++ result_clears slots.now (func_in scope.now).result) }
{
    if gives_variant(&scope.func.result) {
        clear_all(out, slots)
    } else {
        Ok(())
    }
}

/// A part of the code that is made of a result of this type.
fn push_part(
    alloc: Global,
    scope: &Scope<'_>,
    out: &mut Items<CStmt>,
    part: Part,
    slots: &[CVar],
    ty: &Ty,
) -> Result<(), Memory>
    requires scope { IsScope scope.now }
    requires few { length (result_cases (program_in scope.now) (Some (ty_of ty.now))) ≤ 63 }
    ensures { OnOk result (map stmt_of out.new ≡ map stmt_of out.old
        ++ result_code part (program_in scope.now) (func_in scope.now) slots.now
        (Some (ty_of ty.now))) }
{
    match ty {
        Ty::Var(type_id, args) => {
            let variant = VariantResult {
                type_id: *type_id,
                args: args.as_slice(),
                slots,
            };
            push_variant(alloc, scope, out, part, &variant)
        }
        Ty::OwnVar(type_id, args) => {
            let variant = VariantResult {
                type_id: *type_id,
                args: args.as_slice(),
                slots,
            };
            push_variant(alloc, scope, out, part, &variant)
        }
        _ => push_plain(alloc, out, part, first_slot(slots), ty),
    }
}

/// A part of the code that is made of the result.
pub fn push_result(
    alloc: Global,
    scope: &Scope<'_>,
    out: &mut Items<CStmt>,
    part: Part,
    slots: &[CVar],
) -> Result<(), Memory>
    requires scope { IsScope scope.now }
    requires few { length (result_cases (program_in scope.now) (func_in scope.now).result) ≤ 63 }
    ensures { OnOk result (map stmt_of out.new ≡ map stmt_of out.old
        ++ result_code part (program_in scope.now) (func_in scope.now) slots.now
        (func_in scope.now).result) }
{
    match &scope.func.result {
        Some(ty) => push_part(alloc, scope, out, part, slots, ty),
        None => Ok(()),
    }
}

/// Slots as atoms.
fn atoms_of(alloc: Global, slots: &[CVar]) -> Result<Items<Atom>, Memory>
    ensures { IfOk result (λ xs. map atom_of xs ≡ map e.variable slots.now) }
{
    let mut atoms = Items::new(alloc);
    for &slot in slots {
        atoms.push(Atom::Var(slot))?;
    }
    Ok(atoms)
}

/// The result goes to the caller.
pub fn give_back(
    alloc: Global,
    scope: &Scope<'_>,
    out: &mut Items<CStmt>,
    slots: &[CVar],
) -> Result<(), Memory>
    ensures { OnOk result (map stmt_of out.new ≡ map stmt_of out.old
        ++ give_back (func_in scope.now).result slots.now) }
{
    match &scope.func.result {
        Some(_) => {
            let atoms = atoms_of(alloc, slots)?;
            return_atoms(alloc, out, &scope.func.result, atoms.as_slice())
        }
        None => {
            out.push(CStmt::Return(None))?;
            Ok(())
        }
    }
}
