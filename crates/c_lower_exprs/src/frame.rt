//! The slots of a function's variables.

ghost use Rattle.std.specs.Prelude.{◌≡◌, ◌++◌, [], ◌∷◌, map, IfOk};
ghost use Rattle.vlt_core.specs.View.{program_of, func_of};
ghost use Rattle.c_lower.specs.Slots.{past_all, sorted_slots, vars_at};
ghost use Rattle.c_lower_exprs.specs.Tables.{numbers_of, sort_of, slot_view, AreWidths, IsFrame};

use crate::fields::past_all;
use crate::numbers::Numbers;
use crate::sorts::{Sort, sorts_of};
use crate::variants::VariantWidths;
use c_syntax::CVar;
use std::alloc::Global;
use vlt_base::{Items, Memory};
use vlt_core::{Func, Program};

/// A variable of C, and the sort of what it has.
#[derive(Clone, Copy)]
pub struct Slot {
    pub var: CVar,
    pub sort: Sort,
}

/// The slots of each variable, by its number, and the numbers after them, where temps begin.
#[derive(Drop)]
pub struct FrameSlots {
    pub vars: Items<Items<Slot>>,
    pub temps: Numbers,
}

/// The slots of these sorts from some numbers on.
pub fn slots_at(alloc: Global, start: Numbers, sorts: &[Sort]) -> Result<Items<Slot>, Memory>
    ensures { IfOk result (λ xs. map slot_view xs
        ≡ sorted_slots (map sort_of sorts.now) (vars_at (numbers_of start) (map sort_of sorts.now))) }
{
    let mut made = Items::new(alloc);
    let mut next = start;
    for &sort in sorts {
        made.push(Slot {
            var: next.variable(sort),
            sort,
        })?;
        next = next.past(sort)?;
    }
    Ok(made)
}

/// Adds the slots of one more variable, and gives the numbers after them.
fn push_slots(
    alloc: Global,
    vars: &mut Items<Items<Slot>>,
    start: Numbers,
    sorts: &[Sort],
) -> Result<Numbers, Memory>
    ensures { IfOk result (λ t. (map (map slot_view) vars.new ≡ map (map slot_view) vars.old
        ++ sorted_slots (map sort_of sorts.now) (vars_at (numbers_of start) (map sort_of sorts.now))
        ∷ []) × (numbers_of t ≡ past_all (numbers_of start) (map sort_of sorts.now))) }
{
    vars.push(slots_at(alloc, start, sorts)?)?;
    past_all(start, sorts)
}

/// The slots of a function's variables.
pub fn frame_slots(
    alloc: Global,
    program: &Program,
    variants: &Items<VariantWidths>,
    func: &Func,
) -> Result<FrameSlots, Memory>
    requires { AreWidths (program_of program.now) variants.now }
    ensures { IfOk result (λ x. IsFrame (program_of program.now) (func_of func.now) x) }
{
    let mut vars = Items::new(alloc);
    let mut next = Numbers::FIRST;
    for decl in func.vars.as_slice() {
        let sorts = sorts_of(alloc, program, variants, &decl.ty)?;
        next = push_slots(alloc, &mut vars, next, sorts.as_slice())?;
    }
    Ok(FrameSlots { vars, temps: next })
}
