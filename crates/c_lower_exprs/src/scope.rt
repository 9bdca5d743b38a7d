//! What the code of a function looks up.

ghost use Rattle.std.specs.Prelude.{◌≡◌, map, IfOk, option_map};
ghost use Rattle.std.specs.Option.{option_copied};
ghost use Rattle.vlt_core.specs.Lookups.{fields_of};
ghost use Rattle.vlt_core.specs.View.{field_of};
ghost use Rattle.c_lower.specs.Slots as s;
ghost use Rattle.c_lower.specs.Statements.{after_first, name_of, variant_type};
ghost use Rattle.c_lower.specs.Slots.{cell_counts, cells_at, field_cells, object_type, sorts_at, var_slots};
ghost use Rattle.c_lower_exprs.specs.Tables.{field_view, numbers_of, slot_view, sort_of};
ghost use Rattle.c_lower_exprs.specs.Scopes.{IsScope, field_at, program_in, func_in};

use crate::fields::FieldSlots;
use crate::frame::{FrameSlots, Slot};
use crate::names::name_of;
use crate::numbers::Numbers;
use crate::sorts::Sort;
use crate::tables::ProgramTables;
use c_syntax::{CCell, CName, CVar};
use std::alloc::Global;
use vlt_base::{FnId, Items, Memory, TypeId, VarId};
use vlt_core::{FieldDecl, Func, Program, Ty, TypeDecl};

/// A function with its program, the program's tables and its own slots.
#[derive(Clone, Copy)]
pub struct Scope<'a> {
    pub program: &'a Program,
    pub func: &'a Func,
    pub tables: &'a ProgramTables,
    pub frame: &'a FrameSlots,
}

/// What stands for the slot of a variable that isn't there.
pub const NO_SLOT: CVar = CVar {
    reference: true,
    number: 0,
};

impl<'a> Scope<'a> {
    /// The slots of a variable, none of one that isn't there.
    pub fn slots(&self, v: VarId) -> &[Slot]
        requires { IsScope self.now }
        ensures { map slot_view result.now
            ≡ var_slots (program_in self.now) (func_in self.now) v.0 }
    {
        match self.frame.vars.get(v.0 as usize) {
            Some(slots) => slots.as_slice(),
            None => &[],
        }
    }

    /// The one slot of a variable that is no variant; of a variant that of its case.
    pub fn slot(&self, v: VarId) -> CVar
        requires { IsScope self.now }
        ensures { result ≡ s.slot_of (program_in self.now) (func_in self.now) v.0 }
    {
        match self.slots(v).first() {
            Some(slot) => slot.var,
            None => NO_SLOT,
        }
    }

    /// The name of a function in C.
    pub fn name(&self, f: FnId) -> CName
        requires { IsScope self.now }
        ensures { result ≡ name_of (program_in self.now) f.0 }
    {
        name_of(self.program, &self.tables.names, f)
    }

    /// The type of the object that a variable refers to, type 0 where it refers to none.
    pub fn object_type(&self, x: VarId) -> TypeId
        ensures { result.0 ≡ object_type (func_in self.now) x.0 }
    {
        match self.func.var_type(x) {
            Some(Ty::Key(_, t, _)) => *t,
            Some(Ty::Guard(_, t, _)) => *t,
            Some(Ty::Own(_, t, _)) => *t,
            _ => TypeId(0),
        }
    }

    /// The slots of a variable but the first.
    pub fn rest_slots(&self, v: VarId) -> &[Slot]
        requires { IsScope self.now }
        ensures { map slot_view result.now
            ≡ after_first (var_slots (program_in self.now) (func_in self.now) v.0) }
    {
        match self.slots(v).split_first() {
            Some((_, rest)) => rest,
            None => &[],
        }
    }

    /// The declared type of a variable that is a variant, type 0 of any other.
    pub fn variant_type(&self, v: VarId) -> TypeId
        ensures { result.0 ≡ variant_type (func_in self.now) v.0 }
    {
        match self.func.variant(v) {
            Some(found) => found.type_id,
            None => TypeId(0),
        }
    }

    /// The fields of a struct, none of any other type.
    pub fn fields(&self, t: TypeId) -> &[FieldDecl]
        ensures { map field_of result.now ≡ fields_of (program_in self.now) t.0 }
    {
        match self.program.types.get(t.0 as usize) {
            Some(TypeDecl::Struct { fields, .. }) => fields.as_slice(),
            _ => &[],
        }
    }

    /// A field of a type.
    pub fn field(&self, t: TypeId, position: usize) -> Option<&FieldSlots>
        requires { IsScope self.now }
        ensures { option_map field_view (option_copied result)
            ≡ field_at (program_in self.now) t.0 position }
    {
        match self.tables.structs.get(t.0 as usize) {
            Some(found) => found.fields.get(position),
            None => None,
        }
    }

    /// The sorts of a field's cells, none of one that isn't there.
    pub fn field_sorts(&self, t: TypeId, position: usize) -> &[Sort]
        requires { IsScope self.now }
        ensures { map sort_of result.now ≡ sorts_at (program_in self.now) t.0 position }
    {
        match self.field(t, position) {
            Some(field) => field.sorts.as_slice(),
            None => &[],
        }
    }

    /// The cells of a field, in the block that the `p` variable of the number `base` refers to.
    pub fn cells(
        &self,
        alloc: Global,
        t: TypeId,
        position: usize,
        base: u64,
    ) -> Result<Items<CCell>, Memory>
        requires { IsScope self.now }
        ensures { IfOk result (λ cells. cells
            ≡ field_cells (program_in self.now) t.0 position base) }
    {
        match self.field(t, position) {
            Some(field) => cells_at(alloc, base, field.start, field.sorts.as_slice()),
            None => Ok(Items::new(alloc)),
        }
    }

    /// How many cells of both kinds a block of the type has.
    pub fn cell_counts(&self, t: TypeId) -> Numbers
        requires { IsScope self.now }
        ensures { numbers_of result ≡ cell_counts (program_in self.now) t.0 }
    {
        match self.tables.structs.get(t.0 as usize) {
            Some(found) => found.counts,
            None => Numbers::FIRST,
        }
    }
}

/// The cells of these sorts, from some numbers on.
fn cells_at(
    alloc: Global,
    base: u64,
    start: Numbers,
    sorts: &[Sort],
) -> Result<Items<CCell>, Memory>
    ensures { IfOk result (λ cells. cells
        ≡ cells_at base (numbers_of start) (map sort_of sorts.now)) }
{
    let mut made = Items::new(alloc);
    let mut next = start;
    for &sort in sorts {
        made.push(next.cell(base, sort))?;
        next = next.past(sort)?;
    }
    Ok(made)
}
