//! Objects whose fields are exchanged or taken out.

ghost use Rattle.std.specs.Prelude.{◌≡◌, ◌++◌, [], ◌∷◌, map, OnOk};
ghost use Rattle.vlt_core.specs.View.{field_of, vars_of};
ghost use Rattle.c_syntax.specs.C as c;
ghost use Rattle.c_syntax.specs.View.{stmt_of};
ghost use Rattle.c_lower.specs.Slots as s;
ghost use Rattle.c_lower.specs.Slots.{cells_at, vars_at};
ghost use Rattle.c_lower.specs.Statements.{open_fields, open_slots, owning_positions, swap_slot, swap_slots};
ghost use Rattle.c_lower_exprs.specs.Tables.{numbers_of, slot_view, sort_of};
ghost use Rattle.c_lower_exprs.specs.Scopes.{IsScope, func_in, program_in};
ghost use Rattle.c_lower_stmts.specs.Exchanges.{exchanged, opened};

use c_lower_calls::{call_one, call_two, put_atom};
use c_lower_exprs::{Atom, Numbers, Scope, Slot, Sort, set_atom};
use c_syntax::{CCell, CExpr, CPrim, CStmt, CVar};
use std::alloc::Global;
use vlt_base::{Items, Memory, VarId};
use vlt_core::FieldDecl;

/// Sets a variable to a cell.
fn set_cell(out: &mut Items<CStmt>, variable: CVar, cell: CCell) -> Result<(), Memory>
    ensures { OnOk result (map stmt_of out.new
        ≡ map stmt_of out.old ++ c.set variable (c.cell cell) ∷ []) }
{
    out.push(CStmt::Set(variable, CExpr::Cell(cell)))?;
    Ok(())
}

/// What an owner goes out of its block for, and what goes in.
fn exchange_owners(
    alloc: Global,
    out: &mut Items<CStmt>,
    block: CVar,
    temp: CVar,
    slot: Slot,
) -> Result<(), Memory>
    ensures { OnOk result (map stmt_of out.new
        ≡ map stmt_of out.old ++ exchanged block temp (slot_view slot)) }
{
    if !slot.sort.is_owner() {
        return Ok(());
    }
    call_one(alloc, out, CPrim::Disown, Atom::Var(temp))?;
    call_two(
        alloc,
        out,
        CPrim::Own,
        Atom::Var(slot.var),
        Atom::Var(block),
    )
}

/// One slot is exchanged for a cell by way of a temp.
fn swap_slot(
    alloc: Global,
    out: &mut Items<CStmt>,
    block: CVar,
    temp: CVar,
    cell: CCell,
    slot: Slot,
) -> Result<(), Memory>
    ensures { OnOk result (map stmt_of out.new
        ≡ map stmt_of out.old ++ swap_slot block temp cell (slot_view slot)) }
{
    set_cell(out, temp, cell)?;
    exchange_owners(alloc, out, block, temp, slot)?;
    put_atom(out, cell, Atom::Var(slot.var))?;
    set_atom(out, slot.var, Atom::Var(temp))
}

/// Slots are exchanged for cells.
fn swap_slots(
    alloc: Global,
    out: &mut Items<CStmt>,
    t: Numbers,
    block: CVar,
    start: Numbers,
    sorts: &[Sort],
    slots: &[Slot],
) -> Result<(), Memory>
    ensures { OnOk result (map stmt_of out.new ≡ map stmt_of out.old
        ++ swap_slots block (vars_at (numbers_of t) (map sort_of sorts.now))
        (cells_at block.number (numbers_of start) (map sort_of sorts.now))
        (map slot_view slots.now)) }
{
    let mut temps = t;
    let mut cells = start;
    let mut rest = slots;
    for &sort in sorts {
        match rest.split_first() {
            Some((&slot, more)) => {
                let cell = cells.cell(block.number, sort);
                swap_slot(alloc, out, block, temps.variable(sort), cell, slot)?;
                rest = more;
            }
            None => return Ok(()),
        }
        temps = temps.past(sort)?;
        cells = cells.past(sort)?;
    }
    Ok(())
}

/// A field is exchanged for a variable.
pub fn swap_field(
    alloc: Global,
    scope: &Scope<'_>,
    out: &mut Items<CStmt>,
    t: Numbers,
    x: VarId,
    position: u32,
    v: VarId,
) -> Result<(), Memory>
    requires { IsScope scope.now }
    ensures { OnOk result (map stmt_of out.new ≡ map stmt_of out.old
        ++ swap_slots (s.slot_of (program_in scope.now) (func_in scope.now) x.0)
        (vars_at (numbers_of t) (s.cell_sorts (program_in scope.now) (func_in scope.now) x.0 position))
        (s.touched_cells (program_in scope.now) (func_in scope.now) x.0 position)
        (s.var_slots (program_in scope.now) (func_in scope.now) v.0)) }
{
    match scope.field(scope.object_type(x), position as usize) {
        Some(field) => swap_slots(
            alloc,
            out,
            t,
            scope.slot(x),
            field.start,
            field.sorts.as_slice(),
            scope.slots(v),
        ),
        None => Ok(()),
    }
}

/// A cell's value goes into a slot, and out of the block.
fn open_slot(alloc: Global, out: &mut Items<CStmt>, cell: CCell, slot: Slot) -> Result<(), Memory>
    ensures { OnOk result
        (map stmt_of out.new ≡ map stmt_of out.old ++ opened cell (slot_view slot)) }
{
    set_cell(out, slot.var, cell)?;
    if slot.sort.is_owner() {
        call_one(alloc, out, CPrim::Disown, Atom::Var(slot.var))?;
    }
    Ok(())
}

/// The values of cells go into slots.
fn open_slots(
    alloc: Global,
    out: &mut Items<CStmt>,
    cells: &[CCell],
    slots: &[Slot],
) -> Result<(), Memory>
    ensures { OnOk result (map stmt_of out.new
        ≡ map stmt_of out.old ++ open_slots cells.now (map slot_view slots.now)) }
{
    let mut rest = slots;
    for &cell in cells {
        match rest.split_first() {
            Some((&slot, more)) => {
                open_slot(alloc, out, cell, slot)?;
                rest = more;
            }
            None => return Ok(()),
        }
    }
    Ok(())
}

/// A field of a variable's object goes into a variable.
fn open_field(
    alloc: Global,
    scope: &Scope<'_>,
    out: &mut Items<CStmt>,
    x: VarId,
    position: usize,
    v: VarId,
) -> Result<(), Memory>
    requires { IsScope scope.now }
    ensures { OnOk result (map stmt_of out.new ≡ map stmt_of out.old
        ++ open_slots (s.touched_cells (program_in scope.now) (func_in scope.now) x.0 position)
        (s.var_slots (program_in scope.now) (func_in scope.now) v.0)) }
{
    let cells = scope.cells(alloc, scope.object_type(x), position, scope.slot(x).number)?;
    open_slots(alloc, out, cells.as_slice(), scope.slots(v))
}

/// The fields of a variable's object that own go into variables.
pub fn open_fields(
    alloc: Global,
    scope: &Scope<'_>,
    out: &mut Items<CStmt>,
    x: VarId,
    fields: &[FieldDecl],
    vars: &[VarId],
) -> Result<(), Memory>
    requires { IsScope scope.now }
    ensures { OnOk result (map stmt_of out.new ≡ map stmt_of out.old
        ++ open_fields (program_in scope.now) (func_in scope.now) x.0
        (owning_positions (map field_of fields.now)) (vars_of vars.now)) }
{
    let mut rest = vars;
    let mut position = 0;
    for field in fields {
        if field.ty.is_owning() {
            match rest.split_first() {
                Some((&v, more)) => {
                    open_field(alloc, scope, out, x, position, v)?;
                    rest = more;
                }
                None => return Ok(()),
            }
        }
        position += 1;
    }
    Ok(())
}
