//! Keys that name objects.

ghost use Rattle.std.specs.Prelude.{◌≤◌, ◌<◌};
ghost use Rattle.vlt_core.specs.View.{func_of};
ghost use Rattle.vlt_core.specs.Core.{unpack as an_unpack};
ghost use Rattle.vlt_acts.specs.Values.Shown.{IsTable};
ghost use Rattle.vlt_acts.specs.Acts.Acts.{DoesIn, HasKeySlot, IsSameFrame};

use crate::values::Values;
use vlt_base::VarId;
use vlt_core::Func;

/// `tracked(K) T x = v;`, for an owning variable v
pub fn unpack(values: &mut Values, func: &Func, x: VarId, v: VarId)
    requires table { IsTable values.old }
    requires wide { 1 ≤ values.old.width }
    requires within { x.0 < values.old.vars }
    requires key { HasKeySlot (func_of func.now) x.0 values.old }
    ensures same { IsSameFrame values.old values.new }
    ensures does { DoesIn (func_of func.now) values.old values.new (an_unpack x.0 v.0) }
{
    match func.reference(x) {
        Some(r) => {
            let a = values.front(v).unpacked();
            values.put_key(r.key, a);
            let to = values.place(x);
            values.put_single(to, a);
        }
        None => {}
    }
}
