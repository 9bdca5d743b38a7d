//! New objects, and owners that go in and out of them.

ghost use Rattle.std.specs.Prelude.{◌≡◌, ◌++◌, [], ◌∷◌, map, if◌then◌else◌, IfOk, OnOk};
ghost use Rattle.c_syntax.specs.C as c;
ghost use Rattle.c_syntax.specs.View.{stmt_of};
ghost use Rattle.c_syntax.specs.declared.program.CPrim.TheVariants.{New};
ghost use Rattle.c_lower.specs.Slots as s;
ghost use Rattle.c_lower.specs.Expressions as e;
ghost use Rattle.c_lower.specs.Statements.{count_arg, field_puts, owner_atoms, owner_atoms_in, owner_slots, runtime_value};
ghost use Rattle.c_lower_exprs.specs.Tables.{slot_view, sort_of};
ghost use Rattle.c_lower_exprs.specs.Scopes.{IsScope, program_in};
ghost use Rattle.c_lower_exprs.specs.Coded.{atom_of};
ghost use Rattle.c_lower_calls.specs.Written.{owned_by, released};

use crate::copies::put_atoms;
use crate::runtime::{call_one, call_two, value_two};
use c_lower_exprs::{Atom, Scope, Slot, Sort};
use c_syntax::{CPrim, CStmt, CVar};
use std::alloc::Global;
use vlt_base::{Items, Memory, TypeId};

/// A count as an argument. Only of a program whose text is far over the limit can it be too great.
pub fn count_atom(count: u64) -> Result<Atom, Memory>
    ensures { IfOk result (λ a. e.atom_arg (atom_of a) ≡ count_arg count) }
{
    match i64::try_from(count) {
        Ok(value) => Ok(Atom::Number(value)),
        Err(_) => Err(Memory),
    }
}

/// A new block for an object of the type.
pub fn new_block(
    alloc: Global,
    scope: &Scope<'_>,
    out: &mut Items<CStmt>,
    block: CVar,
    t: TypeId,
) -> Result<(), Memory>
    requires { IsScope scope.now }
    ensures { OnOk result (map stmt_of out.new ≡ map stmt_of out.old
        ++ runtime_value block New (count_arg (s.cell_counts (program_in scope.now) t.0).n
        ∷ count_arg (s.cell_counts (program_in scope.now) t.0).p ∷ []) ∷ []) }
{
    let counts = scope.cell_counts(t);
    let numbers = count_atom(counts.n)?;
    let references = count_atom(counts.p)?;
    value_two(alloc, out, block, CPrim::New, numbers, references)
}

/// The atoms of a new object's fields go into their cells.
pub fn put_fields(
    alloc: Global,
    scope: &Scope<'_>,
    out: &mut Items<CStmt>,
    t: TypeId,
    base: u64,
    fields: &[Items<Atom>],
) -> Result<(), Memory>
    requires { IsScope scope.now }
    ensures { OnOk result (map stmt_of out.new ≡ map stmt_of out.old
        ++ field_puts (program_in scope.now) t.0 base 0 (map (map atom_of) fields.now)) }
{
    let mut position = 0;
    for atoms in fields {
        put_atoms(alloc, scope, out, t, position, base, atoms.as_slice())?;
        position += 1;
    }
    Ok(())
}

/// A block becomes the owner of what those atoms of a field refer to that own it.
fn own_field(
    alloc: Global,
    out: &mut Items<CStmt>,
    block: CVar,
    sorts: &[Sort],
    atoms: &[Atom],
) -> Result<(), Memory>
    ensures { OnOk result (map stmt_of out.new ≡ map stmt_of out.old
        ++ owned_by block (owner_atoms_in (map sort_of sorts.now) (map atom_of atoms.now))) }
{
    let mut rest = atoms;
    for &sort in sorts {
        match rest.split_first() {
            Some((&atom, more)) => {
                if sort.is_owner() {
                    call_two(alloc, out, CPrim::Own, atom, Atom::Var(block))?;
                }
                rest = more;
            }
            None => return Ok(()),
        }
    }
    Ok(())
}

/// A block becomes the owner of what its fields own.
pub fn own_fields(
    alloc: Global,
    scope: &Scope<'_>,
    out: &mut Items<CStmt>,
    t: TypeId,
    block: CVar,
    fields: &[Items<Atom>],
) -> Result<(), Memory>
    requires { IsScope scope.now }
    ensures { OnOk result (map stmt_of out.new ≡ map stmt_of out.old
        ++ owned_by block (owner_atoms (program_in scope.now) t.0 0 (map (map atom_of) fields.now))) }
{
    let mut position = 0;
    for atoms in fields {
        own_field(
            alloc,
            out,
            block,
            scope.field_sorts(t, position),
            atoms.as_slice(),
        )?;
        position += 1;
    }
    Ok(())
}

/// What the slots own is released.
pub fn release_owners(alloc: Global, out: &mut Items<CStmt>, slots: &[Slot]) -> Result<(), Memory>
    ensures { OnOk result (map stmt_of out.new ≡ map stmt_of out.old
        ++ released (owner_slots (map slot_view slots.now))) }
{
    for slot in slots {
        if slot.sort.is_owner() {
            call_one(alloc, out, CPrim::Release, Atom::Var(slot.var))?;
        }
    }
    Ok(())
}
