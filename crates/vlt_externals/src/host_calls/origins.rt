//! Which instance of an external is called.

ghost use Rattle.std.specs.Prelude.{◌≡◌, ℕ, Some, Ok, slice_get};
ghost use Rattle.vlt_core.specs.View.{func_of, keys_of};
ghost use Rattle.vlt_meaning.specs.Found.{Named};
ghost use Rattle.vlt_meaning.specs.Values.{held_object};
ghost use Rattle.vlt_heap.specs.Items.{Item, Items, IsAt, IsMadeAt};
ghost use Rattle.vlt_heap.specs.Shown.{Holds, IsSound};
ghost use Rattle.vlt_acts.specs.Values.Shown.{IsTable, Seen};
ghost use Rattle.vlt_externals.specs.HostCalls.Called.{TellsOrigin};

use crate::caller_key;
use vlt_acts::Values;
use vlt_base::KeyId;
use vlt_core::Func;
use vlt_heap::{Heap, Obj, Slot};

/// The state of the object of this number, where it isn't gone.
fn state_if_held(heap: &Heap, o: Obj, number: u64) -> u8
    requires sound { IsSound heap.now }
    ensures { (items : Items) (x : Item) → Holds heap.now items → IsMadeAt items o.0 number →
        IsAt items number x → result ≡ x.state }
{
    if !heap.is_held(o, number) {
        return 0;
    }
    heap.state(o)
}

/// The state of the object that the caller's key names which stands for a key of the head, where it is held.
fn state_under(values: &Values, heap: &Heap, keys: &[KeyId], key: KeyId) -> u8
    requires sound { IsSound heap.now }
    requires table { IsTable values.now }
    ensures { (c : Seen heap.now values.now) (k : ℕ) (m : Named) →
        slice_get (keys_of keys.now) key.0 ≡ Some k →
        held_object k c.frame c.objects ≡ Ok m → result ≡ m.object.state }
{
    let Some(k) = caller_key(keys, key) else {
        return 0;
    };
    match values.key_slot(k) {
        Slot::Object(o, number) => state_if_held(heap, o, number),
        Slot::Owned(..) => 0,
        Slot::Number(_) => 0,
    }
}

/// The state of the object that the clause's bound key stands for, if the clause has one.
pub fn called_origin(values: &Values, heap: &Heap, g: &Func, keys: &[KeyId]) -> Option<u8>
    requires sound { IsSound heap.now }
    requires table { IsTable values.now }
    ensures { TellsOrigin (func_of g.now) (keys_of keys.now) heap.now values.now result }
{
    match g.bound() {
        None => None,
        Some(bound) => Some(state_under(values, heap, keys, bound.key)),
    }
}
