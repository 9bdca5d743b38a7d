//! Operands, whose values are put at the end of the table.

ghost use Rattle.std.specs.Prelude.{◌≡◌, ◌≤◌, ◌+◌, ◌*◌, length, map, vec_capacity};
ghost use Rattle.vlt_core.specs.View.{operand_of};
ghost use Rattle.vlt_heap.specs.Shown.{IsSound};
ghost use Rattle.vlt_meaning.specs.World.{World};
ghost use Rattle.vlt_meaning_laws.specs.Machine.Got.{operand_got, operands_got};
ghost use Rattle.vlt_acts.specs.Values.Shown.{Seen, IsTable, IsGrown};
ghost use Rattle.vlt_acts.specs.Values.Pushed.{IsPushed, ArePushed};

use crate::values::values::Values;
use crate::values::writes::write;
use vlt_core::Operand;
use vlt_heap::Heap;
use vlt_ops::TrapKind;

/// Puts an operand's value at the end.
pub fn push_operand(values: &mut Values, o: &Operand, heap: &Heap) -> Result<(), TrapKind>
    requires sound { IsSound heap.now }
    requires table { IsTable values.old }
    requires wide { 1 ≤ values.old.width }
    requires room { length values.old.slots.items + values.old.width ≤
        vec_capacity values.old.slots }
    ensures grown { IsGrown values.old values.new }
    ensures long { length values.new.slots.items ≡
        length values.old.slots.items + values.old.width }
    ensures room { vec_capacity values.old.slots ≤ vec_capacity values.new.slots }
    ensures value { (c : Seen heap.now values.old) (w : World) → w.objects ≡ c.objects →
        IsPushed c.items values.old values.new result (operand_got c.program c.func
        (operand_of o.now) c.frame w) }
{
    let to = values.len();
    values.grow();
    match o {
        Operand::Pure(e) => write(values, to, e, heap),
        Operand::Move(v) => {
            values.copy_var(*v, to);
            Ok(())
        }
        Operand::Pack(x, _) => {
            let a = values.front(*x).packed();
            values.put_single(to, a);
            Ok(())
        }
    }
}

/// Puts the operands' values at the end, one after another.
pub fn push_operands(values: &mut Values, operands: &[Operand], heap: &Heap) -> Result<(), TrapKind>
    requires sound { IsSound heap.now }
    requires table { IsTable values.old }
    requires wide { 1 ≤ values.old.width }
    requires room { length values.old.slots.items + length operands.now * values.old.width ≤
        vec_capacity values.old.slots }
    ensures grown { IsGrown values.old values.new }
    ensures room { vec_capacity values.old.slots ≤ vec_capacity values.new.slots }
    ensures value { (c : Seen heap.now values.old) (w : World) → w.objects ≡ c.objects →
        ArePushed c.items values.old values.new result (operands_got c.program c.func
        (map operand_of operands.now) c.frame w) }
{
    match operands.split_first() {
        None => Ok(()),
        Some((o, rest)) => match push_operand(values, o, heap) {
            Ok(()) => push_operands(values, rest, heap),
            Err(t) => Err(t),
        },
    }
}
