//! Functions that are left.

ghost use Rattle.std.specs.Prelude.{◌≡◌, ◌≤◌, ◌<◌, ◌+◌, ◌∷◌, [], ℕ, filter, length, map, Some, IfSome, slice_get, vec_capacity};
ghost use Rattle.std.specs.Option.{option_map, option_copied};
ghost use Rattle.vlt_core.specs.Core as core;
ghost use Rattle.vlt_core.specs.View.{func_of, keys_of, entry_of, operand_of};
ghost use Rattle.vlt_core.specs.Lookups.{is_held_after};
ghost use Rattle.vlt_heap.specs.declared.slots.Slot.{Slot};
ghost use Rattle.vlt_heap.specs.Shown.{IsSound};
ghost use Rattle.vlt_acts.specs.Values.Shown.{IsTable, IsGrown};
ghost use Rattle.vlt_acts.specs.Acts.Acts.{IsSameFrame};
ghost use Rattle.vlt_acts.specs.Frames.Frames.{IsLike, IsBelow, IsRunning};
ghost use Rattle.vlt_acts.specs.Frames.Left.{Gives, Returns, kept_at, value_at};
ghost use Rattle.vlt_acts.specs.Frames.Naming.{KeysBelow, IsNamed, Names, IsDelivered};

use crate::frames::waiting::Waiting;
use crate::values::{Values, push_operand};
use vlt_base::{KeyId, VarId};
use vlt_core::{Entry, Func, Mode, Operand};
use vlt_heap::{Heap, Slot};
use vlt_ops::TrapKind;

/// `return o;`: the value stands at the end.
pub fn give(
    values: &mut Values,
    callee: &Func,
    value: Option<&Operand>,
    heap: &Heap,
) -> Result<(), TrapKind>
    requires sound { IsSound heap.now }
    requires table { IsTable values.old }
    requires wide { 1 ≤ values.old.width }
    requires room { length values.old.slots.items + values.old.width ≤
        vec_capacity values.old.slots }
    ensures grown { IsGrown values.old values.new }
    ensures long { length values.old.slots.items ≤ length values.new.slots.items }
    ensures room { vec_capacity values.old.slots ≤ vec_capacity values.new.slots }
    ensures gives { (g : core.Func) → IsLike (func_of callee.now) g → Gives g
        (option_map operand_of (option_copied value.entry)) heap.now values.old values.new
        result }
{
    match value {
        None => Ok(()),
        Some(o) => push_operand(values, o, heap),
    }
}

/// Whether an entry's key is held after the call.
fn is_held_after(e: &Entry) -> bool
    ensures { result ≡ is_held_after (entry_of e.now) }
{
    match e.mode {
        Mode::Kept | Mode::Given | Mode::New | Mode::Bound(_) => true,
        Mode::Taken => false,
    }
}

/// The slot of the object of an entry, where the slots of the keys and that of the value begin there.
fn kept(values: &Values, e: &Entry, keys: usize, value: usize) -> Slot
    requires { keys ≤ length values.now.slots.items }
    ensures { (a : Slot) → slice_get values.now.slots.items
        (kept_at keys value (entry_of e.now)) ≡ Some a → result ≡ a }
{
    match e.mode {
        Mode::New => values.read(value),
        _ => values.read(keys + e.key.0 as usize),
    }
}

/// The caller's key for a key of the callee's head.
fn caller_key(keys: &[KeyId], k: KeyId) -> Option<KeyId>
    ensures { result ≡ slice_get keys.now k.0 }
{
    keys.get(k.0 as usize).copied()
}

/// The caller's key of an entry names the object that is kept.
fn name(values: &mut Values, e: &Entry, keys: &[KeyId], from: usize, value: usize)
    requires from { from ≤ length values.old.slots.items }
    requires keys { KeysBelow (keys_of keys.now) (length values.old.slots.items) values.old }
    ensures named { (top : ℕ) → KeysBelow (keys_of keys.now) top values.old →
        IsNamed top values.old values.new }
    ensures names { (top : ℕ) → KeysBelow (keys_of keys.now) top values.old →
        Names (entry_of e.now ∷ []) (keys_of keys.now) top from value values.old values.new }
{
    if let Some(k) = caller_key(keys, e.key) {
        let a = kept(values, e, from, value);
        values.put_key(k, a);
    }
}

/// The caller's keys of the entries that are held after the call name the objects that are kept.
fn name_all(values: &mut Values, entries: &[Entry], keys: &[KeyId], from: usize, value: usize)
    requires from { from ≤ length values.old.slots.items }
    requires keys { KeysBelow (keys_of keys.now) (length values.old.slots.items) values.old }
    ensures named { (top : ℕ) → KeysBelow (keys_of keys.now) top values.old →
        IsNamed top values.old values.new }
    ensures names { (top : ℕ) → KeysBelow (keys_of keys.now) top values.old →
        Names (filter is_held_after (map entry_of entries.now)) (keys_of keys.now)
        top from value values.old values.new }
{
    match entries.split_first() {
        None => {}
        Some((e, rest)) => {
            if is_held_after(e) {
                name(values, e, keys, from, value);
                name_all(values, rest, keys, from, value);
            } else {
                name_all(values, rest, keys, from, value);
            }
        }
    }
}

/// Where a value stands that is the last one of the table.
fn last(values: &Values) -> usize
    ensures { result ≡ value_at values.now }
{
    values.len().saturating_sub(values.width() as usize)
}

/// Copies the value that stands at the end to the variable, if there is one.
fn deliver(values: &mut Values, target: Option<VarId>)
    requires table { IsTable values.old }
    requires target { IfSome target (λ v. v.0 < values.old.vars) }
    ensures same { IsSameFrame values.old values.new }
    ensures room { vec_capacity values.new.slots ≡ vec_capacity values.old.slots }
    ensures delivered { IsDelivered target values.old values.new }
{
    if let Some(v) = target {
        let from = last(values);
        let to = values.place(v);
        values.copy(from, to);
    }
}

/// Goes back to the caller of a function that was left.
pub fn leave(values: &mut Values, callee: &Func, caller: &Waiting)
    requires table { IsTable values.old }
    requires below { IsBelow caller.now values.old.width values.old.base }
    ensures running { IsRunning values.new (func_of caller.now.func.now) 0 }
    ensures base { values.new.base ≡ caller.now.base }
    ensures width { values.new.width ≡ values.old.width }
    ensures room { vec_capacity values.new.slots ≡ vec_capacity values.old.slots }
    ensures same { (k : ℕ) → k < caller.now.base →
        slice_get values.new.slots.items k ≡ slice_get values.old.slots.items k }
    ensures returns { (g : core.Func) → IsLike (func_of callee.now) g →
        Returns g caller.now values.old values.new }
{
    let end = values.base();
    let from = values.keys();
    let value = last(values);
    values.run(caller.base, caller.vars);
    name_all(values, callee.clause.as_slice(), caller.keys, from, value);
    deliver(values, caller.target);
    values.truncate(end);
}
