//! Fields that are exchanged with variables.

ghost use Rattle.std.specs.Prelude.{◌≡◌, ◌≤◌, ◌<◌, ◌+◌, length, vec_capacity, Ok};
ghost use Rattle.vlt_core.specs.Core.{swap as a_swap};
ghost use Rattle.vlt_heap.specs.Shown.{IsSound, IsSameSize};
ghost use Rattle.vlt_acts.specs.Values.Shown.{IsTable};
ghost use Rattle.vlt_acts.specs.Acts.Acts.{DoesIt, IsRight, IsSameFrame};

use crate::objects::cells::set_cell;
use crate::objects::owned::{free_all, hang_all};
use crate::values::Values;
use vlt_base::VarId;
use vlt_heap::{Heap, Slot};

/// `x.f <-> v;`
pub fn swap(values: &mut Values, heap: &mut Heap, x: VarId, i: u32, v: VarId)
    requires sound { IsSound heap.old }
    requires table { IsTable values.old }
    requires wide { 1 ≤ values.old.width }
    requires within { v.0 < values.old.vars }
    requires room { length values.old.slots.items + values.old.width ≤
        vec_capacity values.old.slots }
    requires right { IsRight heap.old values.old (a_swap x.0 i v.0) }
    ensures sound { IsSound heap.new }
    ensures size { IsSameSize heap.old heap.new }
    ensures same { IsSameFrame values.old values.new }
    ensures does { DoesIt heap.old values.old heap.new values.new (Ok tt) (a_swap x.0 i v.0) }
{
    let end = values.len();
    values.grow();
    match values.front(x) {
        Slot::Object(o, number) => {
            values.copy_cell(o, number, i, end, heap);
            let place = values.place(v);
            let before = values.values_from(end, 1);
            free_all(heap, before);
            let after = values.values_from(place, 1);
            hang_all(heap, after, o);
            set_cell(values, heap, x, i, place);
            values.copy(end, place);
            values.truncate(end);
        }
        Slot::Number(_) => unreachable!(),
        Slot::Owned(..) => unreachable!(),
    }
}
