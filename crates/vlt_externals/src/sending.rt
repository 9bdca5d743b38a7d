//! Objects that go out to the host.

ghost use Rattle.std.specs.Prelude.{◌≡◌, ◌≤◌, ◌+◌, ◌*◌, ◌∷◌, [], length, map, true};
ghost use Rattle.vlt_core.specs.View.{keys_of, entry_of};
ghost use Rattle.vlt_meaning.specs.Externals.{is_taken};
ghost use Rattle.vlt_heap.specs.declared.slots.Slot.{Slot};
ghost use Rattle.vlt_heap.specs.Shown.{IsSound, IsSameSize};
ghost use Rattle.vlt_acts.specs.Values.Shown.{IsTable};
ghost use Rattle.vlt_externals.specs.Sent.{CanGo, Goes, CanTake, Takes, CanHand, Hands};

use crate::keys::{caller_key, is_taken};
use vlt_acts::Values;
use vlt_base::KeyId;
use vlt_core::Entry;
use vlt_heap::{Heap, Obj, Slot};

/// Sends an object out.
fn send(heap: &mut Heap, o: Obj)
    requires sound { IsSound heap.old }
    requires can { CanGo heap.old o }
    ensures sound { IsSound heap.new }
    ensures size { IsSameSize heap.old heap.new }
    ensures goes { Goes o heap.old heap.new }
{
    heap.send_out(o);
}

/// Sends the object of an entry out, the key of which is taken.
fn send_key(values: &Values, heap: &mut Heap, e: &Entry, keys: &[KeyId])
    requires sound { IsSound heap.old }
    requires table { IsTable values.now }
    requires taken { is_taken (entry_of e.now) ≡ true }
    requires can { CanTake heap.old values.now (keys_of keys.now) (entry_of e.now ∷ []) }
    ensures sound { IsSound heap.new }
    ensures size { IsSameSize heap.old heap.new }
    ensures takes { Takes (keys_of keys.now) (entry_of e.now ∷ []) values.now heap.old heap.new }
{
    let Some(k) = caller_key(keys, e.key) else {
        return;
    };
    match values.key_slot(k) {
        Slot::Object(o, _) => send(heap, o),
        Slot::Owned(..) => {}
        Slot::Number(_) => {}
    }
}

/// Sends the objects of the keys out that are taken.
pub fn send_taken(values: &Values, heap: &mut Heap, entries: &[Entry], keys: &[KeyId])
    requires sound { IsSound heap.old }
    requires table { IsTable values.now }
    requires can { CanTake heap.old values.now (keys_of keys.now) (map entry_of entries.now) }
    ensures sound { IsSound heap.new }
    ensures size { IsSameSize heap.old heap.new }
    ensures takes { Takes (keys_of keys.now)
        (map entry_of entries.now) values.now heap.old heap.new }
{
    match entries.split_first() {
        None => {}
        Some((e, rest)) => {
            if is_taken(e) {
                send_key(values, heap, e, keys);
                send_taken(values, heap, rest, keys);
            } else {
                send_taken(values, heap, rest, keys);
            }
        }
    }
}

/// Sends the object out that an argument owns, if it owns one.
fn send_one(values: &Values, heap: &mut Heap, from: usize)
    requires sound { IsSound heap.old }
    requires can { CanHand heap.old values.now from 1 }
    ensures sound { IsSound heap.new }
    ensures size { IsSameSize heap.old heap.new }
    ensures hands { Hands from 1 values.now heap.old heap.new }
{
    match values.read(from) {
        Slot::Owned(o, _) => send(heap, o),
        Slot::Object(..) => {}
        Slot::Number(_) => {}
    }
}

/// Sends the objects out that so many arguments own, whose values stand from a position on.
pub fn send_owned(values: &Values, heap: &mut Heap, from: usize, count: u32)
    requires sound { IsSound heap.old }
    requires within { from + count * values.now.width ≤ length values.now.slots.items }
    requires can { CanHand heap.old values.now from count }
    ensures sound { IsSound heap.new }
    ensures size { IsSameSize heap.old heap.new }
    ensures hands { Hands from count values.now heap.old heap.new }
{
    if count == 0 {
        return;
    }
    send_one(values, heap, from);
    send_owned(values, heap, from + values.width() as usize, count - 1);
}
