//! Foci.

ghost use Rattle.std.specs.Prelude.{◌≤◌, ◌<◌};
ghost use Rattle.vlt_core.specs.View.{func_of};
ghost use Rattle.vlt_heap.specs.Shown.{IsSound, IsSameSize};
ghost use Rattle.vlt_acts.specs.Values.Shown.{IsTable};
ghost use Rattle.vlt_acts.specs.Acts.Acts.{HasKeySlot, IsSameFrame};
ghost use Rattle.vlt_acts.specs.Acts.Focus.{CanFocus, CanEnd, Focuses, Unfocuses};

use crate::values::Values;
use vlt_base::VarId;
use vlt_core::Func;
use vlt_heap::{Heap, Obj, Slot};

/// An object in focus, and the one that adopted it.
#[derive(Clone, Copy)]
pub struct Focus {
    pub object: Obj,
    pub adopter: Obj,
}

/// `focus y as tracked(K) z`, where its block begins
pub fn begin_focus(values: &mut Values, heap: &mut Heap, func: &Func, y: VarId, z: VarId) -> Focus
    requires sound { IsSound heap.old }
    requires table { IsTable values.old }
    requires wide { 1 ≤ values.old.width }
    requires within { z.0 < values.old.vars }
    requires key { HasKeySlot (func_of func.now) z.0 values.old }
    requires can { CanFocus heap.old values.old y.0 z.0 }
    ensures sound { IsSound heap.new }
    ensures size { IsSameSize heap.old heap.new }
    ensures same { IsSameFrame values.old values.new }
    ensures does { Focuses (func_of func.now) y.0 z.0 heap.old values.old
        heap.new values.new result }
{
    match values.front(y) {
        Slot::Object(object, number) => {
            let adopter = heap.focus(object);
            if let Some(r) = func.reference(z) {
                let a = Slot::Object(object, number);
                values.put_key(r.key, a);
                let to = values.place(z);
                values.put_single(to, a);
            }
            Focus { object, adopter }
        }
        Slot::Number(_) => unreachable!(),
        Slot::Owned(..) => unreachable!(),
    }
}

/// Where the block of a focus ends
pub fn end_focus(values: &Values, heap: &mut Heap, focus: Focus)
    requires sound { IsSound heap.old }
    requires can { CanEnd heap.old values.now focus.object focus.adopter }
    ensures sound { IsSound heap.new }
    ensures size { IsSameSize heap.old heap.new }
    ensures does { Unfocuses focus heap.old values.now heap.new }
{
    heap.unfocus(focus.object, focus.adopter);
}
