//! Variables that get values.

ghost use Rattle.std.specs.Prelude.{◌≡◌, ◌≤◌, ◌<◌, ℕ};
ghost use Rattle.vlt_core.specs.View.{expr_of, operand_of};
ghost use Rattle.vlt_core.specs.Core.{set as a_set, own as an_own};
ghost use Rattle.vlt_heap.specs.Shown.{IsSound};
ghost use Rattle.vlt_acts.specs.Values.Shown.{IsTable};
ghost use Rattle.vlt_acts.specs.Acts.Acts.{DoesIt, IsSameFrame};

use crate::values::{Values, write};
use vlt_base::VarId;
use vlt_core::{Expr, Operand};
use vlt_heap::Heap;
use vlt_ops::TrapKind;

/// `v = e;`
pub fn set(values: &mut Values, heap: &Heap, v: VarId, e: &Expr) -> Result<(), TrapKind>
    requires sound { IsSound heap.now }
    requires table { IsTable values.old }
    requires wide { 1 ≤ values.old.width }
    requires within { v.0 < values.old.vars }
    ensures same { IsSameFrame values.old values.new }
    ensures does { DoesIt heap.now values.old heap.now values.new result
        (a_set v.0 (expr_of e.now)) }
{
    let to = values.place(v);
    write(values, to, e, heap)
}

/// An owning variable is filled with an operand's value.
pub fn fill(values: &mut Values, heap: &Heap, v: VarId, o: &Operand) -> Result<(), TrapKind>
    requires sound { IsSound heap.now }
    requires table { IsTable values.old }
    requires wide { 1 ≤ values.old.width }
    requires within { v.0 < values.old.vars }
    ensures same { IsSameFrame values.old values.new }
    ensures does { DoesIt heap.now values.old heap.now values.new result
        (an_own v.0 (operand_of o.now)) }
{
    let to = values.place(v);
    match o {
        Operand::Pure(e) => write(values, to, e, heap),
        Operand::Move(u) => {
            values.copy_var(*u, to);
            Ok(())
        }
        Operand::Pack(x, _) => {
            let a = values.front(*x).packed();
            values.put_single(to, a);
            Ok(())
        }
    }
}
