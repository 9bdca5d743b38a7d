//! Values that expressions give, written into slots.

ghost use Rattle.std.specs.Prelude.{◌≡◌, ◌≤◌, ◌+◌, length};
ghost use Rattle.vlt_core.specs.View.{expr_of};
ghost use Rattle.vlt_core.specs.Core.{field as a_field};
ghost use Rattle.vlt_heap.specs.Items.{Items};
ghost use Rattle.vlt_heap.specs.Shown.{IsSound};
ghost use Rattle.vlt_meaning.specs.World.{Value};
ghost use Rattle.vlt_meaning.specs.Found.{Found};
ghost use Rattle.vlt_meaning.specs.Values.{value_of};
ghost use Rattle.vlt_acts.specs.Values.Shown.{Seen, IsTable, IsPlace, IsKept, IsNumberOf, IsNumeric, IsCopied, IsWritten};

use crate::values::exprs::{Sides, asked, number, truth};
use crate::values::values::Values;
use vlt_base::VarId;
use vlt_core::Expr;
use vlt_heap::{Heap, Slot};
use vlt_ops::{TrapKind, apply};

/// Writes a number, where there is one.
fn write_number(values: &mut Values, to: usize, r: Result<i64, TrapKind>) -> Result<(), TrapKind>
    requires within { to + values.old.width ≤ length values.old.slots.items }
    requires wide { 1 ≤ values.old.width }
    ensures kept { IsKept to values.old values.new }
    ensures value { (items : Items) (x : Found Value) → IsNumeric x → IsNumberOf r x →
        IsWritten items values.new to result x }
{
    match r {
        Ok(z) => {
            values.put_single(to, Slot::Number(z));
            Ok(())
        }
        Err(t) => Err(t),
    }
}

/// Writes the value of a field.
fn write_field(values: &mut Values, to: usize, x: VarId, i: u32, heap: &Heap)
    requires sound { IsSound heap.now }
    requires table { IsTable values.old }
    requires within { to + values.old.width ≤ length values.old.slots.items }
    ensures kept { IsKept to values.old values.new }
    ensures value { (c : Seen heap.now values.old) →
        IsCopied c.items values.new to (value_of c.program c.func
        (a_field x.0 i) c.frame c.objects) }
{
    match values.front(x) {
        Slot::Object(object, number) => values.copy_cell(object, number, i, to, heap),
        Slot::Number(_) => {}
        Slot::Owned(..) => {}
    }
}

/// Writes the value of an expression.
pub fn write(values: &mut Values, to: usize, e: &Expr, heap: &Heap) -> Result<(), TrapKind>
    requires sound { IsSound heap.now }
    requires table { IsTable values.old }
    requires within { to + values.old.width ≤ length values.old.slots.items }
    requires wide { 1 ≤ values.old.width }
    ensures kept { IsKept to values.old values.new }
    ensures value { (c : Seen heap.now values.old) → IsPlace values.old to →
        IsWritten c.items values.new to result (value_of c.program c.func
        (expr_of e.now) c.frame c.objects) }
{
    match e {
        Expr::Var(v) => {
            values.copy_var(*v, to);
            Ok(())
        }
        Expr::Field(x, i) => {
            write_field(values, to, *x, *i, heap);
            Ok(())
        }
        Expr::Bin(op, a, b) => match number(a.get(), values, heap) {
            Ok(z) => match asked(*op, z) {
                Sides::Left => write_number(values, to, Ok(z)),
                Sides::Right => write(values, to, b.get(), heap),
                Sides::Both => match number(b.get(), values, heap) {
                    Ok(y) => write_number(values, to, apply(*op, z, y)),
                    Err(t) => Err(t),
                },
            },
            Err(t) => Err(t),
        },
        Expr::Number(z) => write_number(values, to, Ok(*z)),
        Expr::Bool(b) => write_number(values, to, Ok(truth(*b))),
        Expr::Un(op, a) => match number(a.get(), values, heap) {
            Ok(z) => write_number(values, to, apply(*op, z, 0)),
            Err(t) => Err(t),
        },
    }
}
