//! Values that are dropped.

ghost use Rattle.std.specs.Prelude.{◌≡◌, ◌<◌, Ok};
ghost use Rattle.vlt_core.specs.Core.{drop as a_drop};
ghost use Rattle.vlt_heap.specs.Shown.{IsSound, IsSameSize};
ghost use Rattle.vlt_acts.specs.Values.Shown.{IsTable};
ghost use Rattle.vlt_acts.specs.Acts.Acts.{DoesIt, IsRight};

use crate::objects::owned::drop_all;
use crate::values::Values;
use vlt_base::VarId;
use vlt_heap::Heap;

/// `drop v;` or `release v;` of an owning variable: the objects that its value owns end.
pub fn drop_value(values: &Values, heap: &mut Heap, v: VarId)
    requires sound { IsSound heap.old }
    requires table { IsTable values.now }
    requires within { v.0 < values.now.vars }
    requires right { IsRight heap.old values.now (a_drop v.0) }
    ensures sound { IsSound heap.new }
    ensures size { IsSameSize heap.old heap.new }
    ensures does { DoesIt heap.old values.now heap.new values.now (Ok tt) (a_drop v.0) }
{
    let from = values.place(v);
    drop_all(heap, values.values_from(from, 1));
}
