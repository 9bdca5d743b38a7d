//! Values of variants that are built, and taken apart by a switch.

ghost use Rattle.std.specs.Prelude.{◌≡◌, ◌≤◌, ◌<◌, ◌+◌, ◌*◌, length, map, slice_get, vec_capacity};
ghost use Rattle.std.specs.Option.{option_map};
ghost use Rattle.std.specs.List.{All};
ghost use Rattle.vlt_core.specs.Core.{build as a_build};
ghost use Rattle.vlt_core.specs.View.{program_of, func_of, operand_of, keys_of, case_key_of};
ghost use Rattle.vlt_core.specs.Lookups.{case_at};
ghost use Rattle.vlt_heap.specs.Shown.{IsSound};
ghost use Rattle.vlt_acts.specs.Values.Shown.{IsTable, IsKept, IsRowSet};
ghost use Rattle.vlt_acts.specs.Acts.Acts.{IsRight, IsSameFrame};
ghost use Rattle.vlt_acts.specs.Objects.Cases.{keys_listed, keys_for, PacksKeys, WritesCase, FitsCase, DoesFor, IsFrameSet, FillsParts, TellsCase, OpensArm};

use crate::values::{Values, push_operands};
use vlt_base::{KeyId, StateSet, TypeId, VarId};
use vlt_core::{Func, Operand, Program};
use vlt_heap::{Heap, Slot};
use vlt_ops::TrapKind;

/// The keys that a case lists, none where there is no such case.
fn listed<'a>(program: &'a Program, t: TypeId, case: u8) -> &'a [(u32, StateSet)]
    ensures { map case_key_of result.now ≡
        keys_listed (case_at (program_of program.now) t.0 case) }
{
    match program.case_at(t, case) {
        None => &[],
        Some(d) => d.keys.as_slice(),
    }
}

/// The key of a function that stands for a position of a header.
fn listed_key(args: &[KeyId], position: u32) -> Option<KeyId>
    ensures { option_map (λ k. k.0) result ≡ slice_get (keys_of args.now) position }
{
    match args.get(position as usize) {
        None => None,
        Some(k) => Some(*k),
    }
}

/// Puts the objects of a case's keys into slots one after another, as ones that a value owns.
fn pack_keys(values: &mut Values, keys: &[(u32, StateSet)], args: &[KeyId], to: usize)
    requires table { IsTable values.old }
    requires before { to + length keys.now ≤
        values.old.base + values.old.vars * values.old.width }
    ensures set { IsRowSet to (length (keys_for (keys_of args.now) (map case_key_of keys.now)))
        values.old values.new }
    ensures packs { PacksKeys (keys_for (keys_of args.now) (map case_key_of keys.now)) to
        values.old values.new }
{
    match keys.split_first() {
        None => {}
        Some((k, rest)) => match listed_key(args, k.0) {
            None => pack_keys(values, rest, args, to),
            Some(key) => {
                let a = values.key_slot(key).packed();
                values.set_slot(to, a);
                pack_keys(values, rest, args, to + 1);
            }
        },
    }
}

/// Writes a value of a case: its payload stands in front of values from a position on.
fn write_case(
    values: &mut Values,
    keys: &[(u32, StateSet)],
    args: &[KeyId],
    case: u8,
    from: usize,
    count: usize,
    to: usize,
)
    requires table { IsTable values.old }
    requires fits { 1 + count + length keys.now ≤ values.old.width }
    requires before { to + values.old.width ≤
        values.old.base + values.old.vars * values.old.width }
    requires following { values.old.base + values.old.vars * values.old.width ≤ from }
    requires there { from + count * values.old.width ≤ length values.old.slots.items }
    ensures kept { IsKept to values.old values.new }
    ensures writes { WritesCase (keys_for (keys_of args.now) (map case_key_of keys.now)) case
        from count to values.old values.new }
{
    values.put_single(to, Slot::Number(i64::from(case)));
    values.gather(from, count, to + 1);
    pack_keys(values, keys, args, to + 1 + count);
}

/// `v = 'C(..);`: the objects of the case's keys go into the value.
pub fn build(
    values: &mut Values,
    heap: &Heap,
    program: &Program,
    func: &Func,
    v: VarId,
    case: u8,
    args: &[Operand],
) -> Result<(), TrapKind>
    requires sound { IsSound heap.now }
    requires table { IsTable values.old }
    requires wide { 1 ≤ values.old.width }
    requires within { v.0 < values.old.vars }
    requires room { length values.old.slots.items + length args.now * values.old.width ≤
        vec_capacity values.old.slots }
    requires fits { FitsCase (program_of program.now) (func_of func.now) v.0 case
        (length args.now) values.old.width }
    requires right { IsRight heap.now values.old (a_build v.0 case (map operand_of args.now)) }
    ensures same { IsSameFrame values.old values.new }
    ensures does { DoesFor (program_of program.now) (func_of func.now) heap.now values.old
        heap.now values.new result (a_build v.0 case (map operand_of args.now)) }
{
    let end = values.len();
    match func.variant(v) {
        None => Ok(()),
        Some(t) => match push_operands(values, args, heap) {
            Err(e) => {
                values.truncate(end);
                Err(e)
            }
            Ok(()) => {
                let to = values.place(v);
                let keys = listed(program, t.type_id, case);
                write_case(values, keys, t.args, case, end, args.len(), to);
                values.truncate(end);
                Ok(())
            }
        },
    }
}

/// Puts parts that stand one after another into variables.
fn fill_parts(values: &mut Values, from: usize, vs: &[VarId])
    requires table { IsTable values.old }
    requires wide { 1 ≤ values.old.width }
    requires within { All (λ v. v.0 < values.old.vars) vs.now }
    requires following { values.old.base + values.old.vars * values.old.width ≤ from }
    requires there { from + length vs.now ≤ length values.old.slots.items }
    ensures set { IsFrameSet values.old values.new }
    ensures fills { FillsParts from (map (λ v. v.0) vs.now) values.old values.new }
{
    match vs.split_first() {
        None => {}
        Some((v, rest)) => {
            let a = values.slot_at(from);
            let to = values.place(*v);
            values.put_single(to, a);
            fill_parts(values, from + 1, rest);
        }
    }
}

/// The number of the case that a variable's value has.
pub fn case_number(values: &Values, v: VarId) -> i64
    requires { IsTable values.now }
    ensures { TellsCase v.0 values.now result }
{
    match values.front(v) {
        Slot::Number(z) => z,
        Slot::Object(..) => 0,
        Slot::Owned(..) => 0,
    }
}

/// An arm of a switch on a variable begins: its variables get the payload.
pub fn open_arm(values: &mut Values, heap: &Heap, v: VarId, vs: &[VarId])
    requires table { IsTable values.old }
    requires wide { 1 + length vs.now ≤ values.old.width }
    requires var { v.0 < values.old.vars }
    requires within { All (λ v. v.0 < values.old.vars) vs.now }
    requires room { length values.old.slots.items + values.old.width ≤
        vec_capacity values.old.slots }
    ensures same { IsSameFrame values.old values.new }
    ensures opens { OpensArm v.0 (map (λ v. v.0) vs.now) heap.now values.old values.new }
{
    let end = values.len();
    values.grow();
    values.copy_var(v, end);
    fill_parts(values, end + 1, vs);
    values.truncate(end);
}
