//! Objects that come back from the host, and the states that they get.

ghost use Rattle.std.specs.Prelude.{◌≡◌, ◌∷◌, [], map, true};
ghost use Rattle.vlt_core.specs.View.{keys_of, entry_of};
ghost use Rattle.vlt_meaning.specs.Externals.{is_given};
ghost use Rattle.vlt_heap.specs.Shown.{IsSound, IsSameSize};
ghost use Rattle.vlt_acts.specs.Values.Shown.{IsTable};
ghost use Rattle.vlt_externals.specs.Back.{ComesBack, IsStateSet, Becomes};

use crate::keys::{caller_key, is_given};
use vlt_acts::Values;
use vlt_base::KeyId;
use vlt_core::Entry;
use vlt_heap::{Heap, Obj, Slot};

/// Takes the object of an entry back, the key of which is given; false where it isn't out.
fn back_key(values: &Values, heap: &mut Heap, e: &Entry, keys: &[KeyId]) -> bool
    requires sound { IsSound heap.old }
    requires table { IsTable values.now }
    requires given { is_given (entry_of e.now) ≡ true }
    ensures sound { IsSound heap.new }
    ensures size { IsSameSize heap.old heap.new }
    ensures back { ComesBack (keys_of keys.now) (entry_of e.now ∷ []) values.now
        heap.old heap.new result }
{
    let Some(k) = caller_key(keys, e.key) else {
        return false;
    };
    match values.key_slot(k) {
        Slot::Object(o, number) => heap.back(o, number),
        Slot::Owned(..) => false,
        Slot::Number(_) => false,
    }
}

/// Takes the objects of the keys back that are given; false where one of them isn't out.
pub fn take_back(values: &Values, heap: &mut Heap, entries: &[Entry], keys: &[KeyId]) -> bool
    requires sound { IsSound heap.old }
    requires table { IsTable values.now }
    ensures sound { IsSound heap.new }
    ensures size { IsSameSize heap.old heap.new }
    ensures back { ComesBack (keys_of keys.now) (map entry_of entries.now) values.now
        heap.old heap.new result }
{
    match entries.split_first() {
        None => true,
        Some((e, rest)) => {
            if !is_given(e) {
                return take_back(values, heap, rest, keys);
            }
            if !back_key(values, heap, e, keys) {
                return false;
            }
            take_back(values, heap, rest, keys)
        }
    }
}

/// Gives the object of this number a state, if it isn't gone.
fn set_if_held(heap: &mut Heap, o: Obj, number: u64, state: u8)
    requires sound { IsSound heap.old }
    ensures sound { IsSound heap.new }
    ensures size { IsSameSize heap.old heap.new }
    ensures set { IsStateSet o number state heap.old heap.new }
{
    if !heap.is_held(o, number) {
        return;
    }
    heap.become_state(o, state);
}

/// Gives the object that a key names a state, if it isn't gone.
pub fn set_state(values: &Values, heap: &mut Heap, k: KeyId, state: u8)
    requires sound { IsSound heap.old }
    requires table { IsTable values.now }
    ensures sound { IsSound heap.new }
    ensures size { IsSameSize heap.old heap.new }
    ensures becomes { Becomes k.0 state values.now heap.old heap.new }
{
    match values.key_slot(k) {
        Slot::Object(o, number) => set_if_held(heap, o, number, state),
        Slot::Owned(..) => {}
        Slot::Number(_) => {}
    }
}
