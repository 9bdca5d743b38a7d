//! Atoms that go into slots and cells, one by one.

ghost use Rattle.std.specs.Prelude.{◌≡◌, ◌++◌, [], ◌∷◌, map, OnOk};
ghost use Rattle.c_syntax.specs.C as c;
ghost use Rattle.c_syntax.specs.View.{stmt_of};
ghost use Rattle.c_lower.specs.Slots.{field_cells, slot_vars};
ghost use Rattle.c_lower.specs.Expressions.{atom_expr, copies};
ghost use Rattle.c_lower.specs.Statements.{puts};
ghost use Rattle.c_lower_exprs.specs.Tables.{slot_view};
ghost use Rattle.c_lower_exprs.specs.Scopes.{IsScope, func_in, program_in};
ghost use Rattle.c_lower_exprs.specs.Coded.{atom_of};

use c_lower_exprs::{Atom, Scope, Slot, set_atom};
use c_syntax::{CCell, CStmt};
use std::alloc::Global;
use vlt_base::{Items, Memory, TypeId, VarId};

/// Sets slots to atoms.
fn copy_into(out: &mut Items<CStmt>, slots: &[Slot], atoms: &[Atom]) -> Result<(), Memory>
    ensures { OnOk result (map stmt_of out.new ≡ map stmt_of out.old
        ++ copies (map (λ x. x.var) (map slot_view slots.now)) (map atom_of atoms.now)) }
{
    let mut rest = atoms;
    for slot in slots {
        match rest.split_first() {
            Some((&atom, more)) => {
                set_atom(out, slot.var, atom)?;
                rest = more;
            }
            None => return Ok(()),
        }
    }
    Ok(())
}

/// Sets a variable to atoms.
pub fn copy_atoms(
    scope: &Scope<'_>,
    out: &mut Items<CStmt>,
    v: VarId,
    atoms: &[Atom],
) -> Result<(), Memory>
    requires { IsScope scope.now }
    ensures { OnOk result (map stmt_of out.new ≡ map stmt_of out.old
        ++ copies (slot_vars (program_in scope.now) (func_in scope.now) v.0) (map atom_of atoms.now)) }
{
    copy_into(out, scope.slots(v), atoms)
}

/// Sets a cell to an atom.
pub fn put_atom(out: &mut Items<CStmt>, cell: CCell, atom: Atom) -> Result<(), Memory>
    ensures { OnOk result (map stmt_of out.new
        ≡ map stmt_of out.old ++ c.put cell (atom_expr (atom_of atom)) ∷ []) }
{
    out.push(CStmt::Put(cell, atom.expr()))?;
    Ok(())
}

/// Sets cells to atoms.
fn put_into(out: &mut Items<CStmt>, cells: &[CCell], atoms: &[Atom]) -> Result<(), Memory>
    ensures { OnOk result (map stmt_of out.new
        ≡ map stmt_of out.old ++ puts cells.now (map atom_of atoms.now)) }
{
    let mut rest = atoms;
    for &cell in cells {
        match rest.split_first() {
            Some((&atom, more)) => {
                put_atom(out, cell, atom)?;
                rest = more;
            }
            None => return Ok(()),
        }
    }
    Ok(())
}

/// Sets a field of a type's object to atoms.
pub fn put_atoms(
    alloc: Global,
    scope: &Scope<'_>,
    out: &mut Items<CStmt>,
    t: TypeId,
    position: usize,
    base: u64,
    atoms: &[Atom],
) -> Result<(), Memory>
    requires { IsScope scope.now }
    ensures { OnOk result (map stmt_of out.new ≡ map stmt_of out.old
        ++ puts (field_cells (program_in scope.now) t.0 position base) (map atom_of atoms.now)) }
{
    let cells = scope.cells(alloc, t, position, base)?;
    put_into(out, cells.as_slice(), atoms)
}
