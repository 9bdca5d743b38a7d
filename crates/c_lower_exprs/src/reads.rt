//! Values of variables and fields.

ghost use Rattle.std.specs.Prelude.{◌≡◌, ◌++◌, map, IfOk};
ghost use Rattle.c_syntax.specs.View.{stmt_of};
ghost use Rattle.c_lower.specs.Slots.{cell_sorts, cells_at, past_all, slot_vars, touched_cells, vars_at};
ghost use Rattle.c_lower.specs.Expressions as s;
ghost use Rattle.c_lower.specs.Expressions.{first_atom, reads};
ghost use Rattle.c_lower_exprs.specs.Tables.{numbers_of, slot_view, sort_of};
ghost use Rattle.c_lower_exprs.specs.Scopes.{IsScope, func_in, program_in};
ghost use Rattle.c_lower_exprs.specs.Coded.{atom_of};

use crate::atom::Atom;
use crate::frame::Slot;
use crate::numbers::Numbers;
use crate::scope::Scope;
use crate::sorts::Sort;
use c_syntax::{CExpr, CStmt};
use std::alloc::Global;
use vlt_base::{Items, Memory, VarId};

/// The atoms of slots.
fn slot_atoms(alloc: Global, slots: &[Slot]) -> Result<Items<Atom>, Memory>
    ensures { IfOk result (λ xs. map atom_of xs
        ≡ map s.variable (map (λ x. x.var) (map slot_view slots.now))) }
{
    let mut atoms = Items::new(alloc);
    for slot in slots {
        atoms.push(Atom::Var(slot.var))?;
    }
    Ok(atoms)
}

/// The atoms of a variable.
pub fn var_atoms(alloc: Global, scope: &Scope<'_>, v: VarId) -> Result<Items<Atom>, Memory>
    requires { IsScope scope.now }
    ensures { IfOk result (λ xs. map atom_of xs
        ≡ map s.variable (slot_vars (program_in scope.now) (func_in scope.now) v.0)) }
{
    slot_atoms(alloc, scope.slots(v))
}

/// The first atom of a variable.
#[tactic(auto, using(crate::proofs::Laws::vars_of_slots))]
pub fn var_atom(scope: &Scope<'_>, v: VarId) -> Atom
    requires { IsScope scope.now }
    ensures { atom_of result ≡ first_atom
        (map s.variable (slot_vars (program_in scope.now) (func_in scope.now) v.0)) }
{
    match scope.slots(v).first() {
        Some(slot) => Atom::Var(slot.var),
        None => Atom::Null,
    }
}

/// Cells go into temps.
fn read_cells(
    out: &mut Items<CStmt>,
    t: Numbers,
    base: u64,
    start: Numbers,
    sorts: &[Sort],
) -> Result<Numbers, Memory>
    ensures { IfOk result (λ u. (map stmt_of out.new ≡ map stmt_of out.old
        ++ reads (vars_at (numbers_of t) (map sort_of sorts.now))
        (cells_at base (numbers_of start) (map sort_of sorts.now)))
        × (numbers_of u ≡ past_all (numbers_of t) (map sort_of sorts.now))) }
{
    let mut temps = t;
    let mut cells = start;
    for &sort in sorts {
        out.push(CStmt::Set(temps.variable(sort), CExpr::Cell(cells.cell(base, sort))))?;
        temps = temps.past(sort)?;
        cells = cells.past(sort)?;
    }
    Ok(temps)
}

/// A field of a variable's object goes into temps.
pub fn read_field(
    scope: &Scope<'_>,
    out: &mut Items<CStmt>,
    t: Numbers,
    x: VarId,
    position: u32,
) -> Result<Numbers, Memory>
    requires { IsScope scope.now }
    ensures { IfOk result (λ u. (map stmt_of out.new ≡ map stmt_of out.old
        ++ reads (vars_at (numbers_of t)
        (cell_sorts (program_in scope.now) (func_in scope.now) x.0 position))
        (touched_cells (program_in scope.now) (func_in scope.now) x.0 position))
        × (numbers_of u ≡ past_all (numbers_of t)
        (cell_sorts (program_in scope.now) (func_in scope.now) x.0 position))) }
{
    match scope.field(scope.object_type(x), position as usize) {
        Some(field) => read_cells(
            out,
            t,
            scope.slot(x).number,
            field.start,
            field.sorts.as_slice(),
        ),
        None => Ok(t),
    }
}

/// The temps of these sorts, from some numbers on.
fn temps_at(alloc: Global, t: Numbers, sorts: &[Sort]) -> Result<Items<Atom>, Memory>
    ensures { IfOk result (λ xs. map atom_of xs
        ≡ map s.variable (vars_at (numbers_of t) (map sort_of sorts.now))) }
{
    let mut atoms = Items::new(alloc);
    let mut next = t;
    for &sort in sorts {
        atoms.push(Atom::Var(next.variable(sort)))?;
        next = next.past(sort)?;
    }
    Ok(atoms)
}

/// The temps that a field goes into.
pub fn field_atoms(
    alloc: Global,
    scope: &Scope<'_>,
    t: Numbers,
    x: VarId,
    position: u32,
) -> Result<Items<Atom>, Memory>
    requires { IsScope scope.now }
    ensures { IfOk result (λ xs. map atom_of xs ≡ map s.variable (vars_at (numbers_of t)
        (cell_sorts (program_in scope.now) (func_in scope.now) x.0 position))) }
{
    temps_at(
        alloc,
        t,
        scope.field_sorts(scope.object_type(x), position as usize),
    )
}

/// The first of the temps that a field goes into.
pub fn field_atom(scope: &Scope<'_>, t: Numbers, x: VarId, position: u32) -> Atom
    requires { IsScope scope.now }
    ensures { atom_of result ≡ first_atom (map s.variable (vars_at (numbers_of t)
        (cell_sorts (program_in scope.now) (func_in scope.now) x.0 position))) }
{
    match scope
        .field_sorts(scope.object_type(x), position as usize)
        .first()
    {
        Some(&sort) => Atom::Var(t.variable(sort)),
        None => Atom::Null,
    }
}
