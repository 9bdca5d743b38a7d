//! Cells of objects that are set.

ghost use Rattle.std.specs.Prelude.{◌≡◌, ◌≤◌, ◌<◌, ◌+◌, ◌^◌, length, vec_capacity};
ghost use Rattle.vlt_core.specs.View.{expr_of};
ghost use Rattle.vlt_core.specs.Core.{put as a_put};
ghost use Rattle.vlt_heap.specs.Shown.{IsSound, IsSameSize};
ghost use Rattle.vlt_acts.specs.Values.Shown.{IsTable};
ghost use Rattle.vlt_acts.specs.Acts.Acts.{DoesIt, IsSameFrame};
ghost use Rattle.vlt_acts.specs.Objects.Cells.{StoresAll, SetsCell};

use crate::values::{Values, write};
use vlt_base::VarId;
use vlt_core::Expr;
use vlt_heap::{Heap, Obj, Slot};
use vlt_ops::TrapKind;

/// Sets slots of the object of this number, from one on, where it is live at the place and has so many.
pub fn store_all(heap: &mut Heap, o: Obj, number: u64, from: u64, row: &[Slot])
    requires sound { IsSound heap.old }
    requires short { from + length row.now < 2 ^ 64 }
    ensures sound { IsSound heap.new }
    ensures size { IsSameSize heap.old heap.new }
    ensures items { StoresAll o number from row.now heap.old heap.new }
{
    match row.split_first() {
        None => {}
        Some((a, rest)) => {
            heap.store(o, number, from, *a);
            store_all(heap, o, number, from + 1, rest);
        }
    }
}

/// Sets a cell of the object that a variable refers to, to the value from a position on.
pub fn set_cell(values: &Values, heap: &mut Heap, x: VarId, i: u32, from: usize)
    requires sound { IsSound heap.old }
    requires table { IsTable values.now }
    requires wide { 1 ≤ values.now.width }
    requires within { from + values.now.width ≤ length values.now.slots.items }
    ensures sound { IsSound heap.new }
    ensures size { IsSameSize heap.old heap.new }
    ensures sets { SetsCell x.0 i from values.now heap.old heap.new }
{
    match values.front(x) {
        Slot::Object(o, number) => {
            store_all(heap, o, number, values.cell(i), values.values_from(from, 1));
        }
        Slot::Number(_) => {}
        Slot::Owned(..) => {}
    }
}

/// `x.f = e;`
pub fn put(values: &mut Values, heap: &mut Heap, x: VarId, i: u32, e: &Expr) -> Result<(), TrapKind>
    requires sound { IsSound heap.old }
    requires table { IsTable values.old }
    requires wide { 1 ≤ values.old.width }
    requires room { length values.old.slots.items + values.old.width ≤
        vec_capacity values.old.slots }
    ensures sound { IsSound heap.new }
    ensures size { IsSameSize heap.old heap.new }
    ensures same { IsSameFrame values.old values.new }
    ensures does { DoesIt heap.old values.old heap.new values.new result
        (a_put x.0 i (expr_of e.now)) }
{
    let end = values.len();
    values.grow();
    match write(values, end, e, heap) {
        Ok(()) => {
            set_cell(values, heap, x, i, end);
            values.truncate(end);
            Ok(())
        }
        Err(t) => {
            values.truncate(end);
            Err(t)
        }
    }
}
