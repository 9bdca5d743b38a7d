//! Objects that change their state, end, or are adopted.

ghost use Rattle.std.specs.Prelude.{◌≡◌, ◌≤◌, ◌<◌, ℕ, Ok};
ghost use Rattle.vlt_core.specs.Core.{become as a_become, release as a_release, adopt as an_adopt};
ghost use Rattle.vlt_heap.specs.Shown.{IsSound, IsSameSize};
ghost use Rattle.vlt_acts.specs.Values.Shown.{IsTable};
ghost use Rattle.vlt_acts.specs.Acts.Acts.{DoesIt, IsRight, IsSameFrame};

use crate::values::Values;
use vlt_base::VarId;
use vlt_heap::{Heap, Slot};

/// `become x@s;`
pub fn become_state(values: &Values, heap: &mut Heap, x: VarId, state: u8)
    requires sound { IsSound heap.old }
    requires table { IsTable values.now }
    requires right { IsRight heap.old values.now (a_become x.0 state) }
    ensures sound { IsSound heap.new }
    ensures size { IsSameSize heap.old heap.new }
    ensures does { DoesIt heap.old values.now heap.new values.now (Ok tt) (a_become x.0 state) }
{
    match values.front(x) {
        Slot::Object(o, _) => heap.become_state(o, state),
        Slot::Number(_) => {}
        Slot::Owned(..) => {}
    }
}

/// `release x;` of a tracked variable
pub fn release(values: &Values, heap: &mut Heap, x: VarId)
    requires sound { IsSound heap.old }
    requires table { IsTable values.now }
    requires right { IsRight heap.old values.now (a_release x.0) }
    ensures sound { IsSound heap.new }
    ensures size { IsSameSize heap.old heap.new }
    ensures does { DoesIt heap.old values.now heap.new values.now (Ok tt) (a_release x.0) }
{
    match values.front(x) {
        Slot::Object(o, _) => heap.release(o),
        Slot::Number(_) => {}
        Slot::Owned(..) => {}
    }
}

/// `G:T y = adopt x into r;`
pub fn adopt(values: &mut Values, heap: &mut Heap, y: VarId, x: VarId, r: VarId)
    requires sound { IsSound heap.old }
    requires table { IsTable values.old }
    requires wide { 1 ≤ values.old.width }
    requires within { y.0 < values.old.vars }
    requires right { IsRight heap.old values.old (an_adopt y.0 x.0 r.0) }
    ensures sound { IsSound heap.new }
    ensures size { IsSameSize heap.old heap.new }
    ensures same { IsSameFrame values.old values.new }
    ensures does { DoesIt heap.old values.old heap.new values.new (Ok tt) (an_adopt y.0 x.0 r.0) }
{
    match values.front(x) {
        Slot::Object(child, number) => match values.front(r) {
            Slot::Object(parent, _) => {
                heap.own(child, parent);
                let to = values.place(y);
                values.put_single(to, Slot::Object(child, number));
            }
            Slot::Number(_) => {}
            Slot::Owned(..) => {}
        },
        Slot::Number(_) => {}
        Slot::Owned(..) => {}
    }
}
