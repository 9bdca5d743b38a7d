//! Objects that are made.

ghost use Rattle.std.specs.Prelude.{◌≡◌, ◌≤◌, ◌<◌, ◌+◌, ◌*◌, length, map, vec_capacity};
ghost use Rattle.vlt_core.specs.View.{func_of, operand_of};
ghost use Rattle.vlt_core.specs.Core.{make as a_make};
ghost use Rattle.vlt_heap.specs.Shown.{IsSound, IsSameSize, slots_of};
ghost use Rattle.vlt_acts.specs.Values.Shown.{IsTable, key_at};
ghost use Rattle.vlt_acts.specs.Acts.Acts.{HasKeySlot, IsSameFrame};
ghost use Rattle.vlt_acts.specs.Objects.Made.{CanMake, MakesNew, NamesIt, ComesTo, IsRightHere};

use crate::objects::cells::store_all;
use crate::objects::halt::Halt;
use crate::objects::owned::hang_all;
use crate::values::{Values, push_operands};
use vlt_base::{HeapEnd, KeyId, TypeId, VarId};
use vlt_core::{Func, Operand};
use vlt_heap::{Heap, Slot};

/// A new object with the values from a position on, in which the objects go that they own.
fn make_object(
    values: &Values,
    heap: &mut Heap,
    t: TypeId,
    from: usize,
    count: usize,
) -> Result<Slot, HeapEnd>
    requires sound { IsSound heap.old }
    requires within { from + count * values.now.width ≤ length values.now.slots.items }
    requires fits { count * values.now.width ≤ slots_of heap.old }
    requires can { CanMake t.0 from count values.now heap.old }
    ensures sound { IsSound heap.new }
    ensures size { IsSameSize heap.old heap.new }
    ensures makes { MakesNew t.0 from count values.now heap.old heap.new result }
{
    match heap.new_object(t) {
        Ok(o) => {
            let number = heap.number(o);
            let row = values.values_from(from, count);
            store_all(heap, o, number, 0, row);
            hang_all(heap, row, o);
            Ok(Slot::Object(o, number))
        }
        Err(e) => Err(e),
    }
}

/// A key names the object of a slot, and a variable refers to it.
fn name_object(values: &mut Values, key: KeyId, x: VarId, a: Slot)
    requires table { IsTable values.old }
    requires wide { 1 ≤ values.old.width }
    requires within { x.0 < values.old.vars }
    requires key { key_at values.old key.0 < length values.old.slots.items }
    ensures same { IsSameFrame values.old values.new }
    ensures names { NamesIt x.0 key.0 a values.old values.new }
{
    values.put_key(key, a);
    let to = values.place(x);
    values.put_single(to, a);
}

/// `tracked(K) T x = new T(..);`
pub fn make(
    values: &mut Values,
    heap: &mut Heap,
    func: &Func,
    x: VarId,
    args: &[Operand],
) -> Result<(), Halt>
    requires sound { IsSound heap.old }
    requires table { IsTable values.old }
    requires wide { 1 ≤ values.old.width }
    requires within { x.0 < values.old.vars }
    requires key { HasKeySlot (func_of func.now) x.0 values.old }
    requires room { length values.old.slots.items + length args.now * values.old.width ≤
        vec_capacity values.old.slots }
    requires fits { length args.now * values.old.width ≤ slots_of heap.old }
    requires right { IsRightHere (func_of func.now) heap.old values.old
        (a_make x.0 (map operand_of args.now)) }
    ensures sound { IsSound heap.new }
    ensures size { IsSameSize heap.old heap.new }
    ensures same { IsSameFrame values.old values.new }
    ensures comes { ComesTo (func_of func.now) heap.old values.old heap.new values.new result
        (a_make x.0 (map operand_of args.now)) }
{
    let end = values.len();
    match func.reference(x) {
        None => unreachable!(),
        Some(r) => match push_operands(values, args, heap) {
            Err(t) => {
                values.truncate(end);
                Err(Halt::Trap(t))
            }
            Ok(()) => {
                let made = make_object(values, heap, r.type_id, end, args.len());
                values.truncate(end);
                match made {
                    Ok(a) => {
                        name_object(values, r.key, x, a);
                        Ok(())
                    }
                    Err(_) => Err(Halt::HeapEnd),
                }
            }
        },
    }
}
