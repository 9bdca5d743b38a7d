//! Variants that are built.

ghost use Rattle.std.specs.Prelude.{◌≡◌, ◌++◌, [], ◌∷◌, map, IfOk, OnOk};
ghost use Rattle.vlt_core.specs.Core as core;
ghost use Rattle.c_syntax.specs.View.{stmt_of};
ghost use Rattle.c_lower.specs.Slots as s;
ghost use Rattle.c_lower.specs.Expressions.{first_atom};
ghost use Rattle.c_lower.specs.Statements.{atom_for, build_slots};
ghost use Rattle.c_lower_exprs.specs.Tables.{slot_view, sort_of};
ghost use Rattle.c_lower_exprs.specs.Coded.{atom_of};

use c_lower_exprs::{Atom, Slot, Sort, set_atom};
use c_syntax::CStmt;
use std::alloc::Global;
use vlt_base::{Items, Memory};

/// The first atom of each operand.
pub fn first_atoms(alloc: Global, all: &[Items<Atom>]) -> Result<Items<Atom>, Memory>
    ensures { IfOk result (λ xs. map atom_of xs ≡ map first_atom (map (map atom_of) all.now)) }
{
    let mut firsts = Items::new(alloc);
    for atoms in all {
        let first = match atoms.as_slice().first() {
            Some(&atom) => atom,
            None => Atom::Null,
        };
        firsts.push(first)?;
    }
    Ok(firsts)
}

/// What an unused slot has.
fn unused(sort: Sort) -> Atom
    ensures { atom_of result ≡ atom_for (sort_of sort) 0 [] [] }
{
    match sort {
        Sort::Number => Atom::Number(0),
        _ => Atom::Null,
    }
}

/// The atom that goes to the position, or what an unused slot has.
fn atom_for(sort: Sort, at: u64, positions: &[u64], atoms: &[Atom]) -> Atom
    ensures { atom_of result
        ≡ atom_for (sort_of sort) at positions.now (map atom_of atoms.now) }
{
    let mut rest = atoms;
    for &position in positions {
        match rest.split_first() {
            Some((&atom, more)) => {
                if at == position {
                    return atom;
                }
                rest = more;
            }
            None => return unused(sort),
        }
    }
    unused(sort)
}

/// Sets a variant's slots after that of the case to payloads, or to what an unused slot has.
pub fn build_slots(
    out: &mut Items<CStmt>,
    slots: &[Slot],
    positions: &[u64],
    atoms: &[Atom],
) -> Result<(), Memory>
    ensures { OnOk result (map stmt_of out.new ≡ map stmt_of out.old
        ++ build_slots 1 positions.now (map atom_of atoms.now) (map slot_view slots.now)) }
{
    let mut at = 1;
    for slot in slots {
        set_atom(out, slot.var, atom_for(slot.sort, at, positions, atoms))?;
        at += 1;
    }
    Ok(())
}
