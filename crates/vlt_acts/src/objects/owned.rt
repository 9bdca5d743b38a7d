//! The objects that slots own.

ghost use Rattle.std.specs.Prelude.{◌≡◌, ◌∷◌, []};
ghost use Rattle.vlt_heap.specs.Shown.{IsSound, IsSameSize};
ghost use Rattle.vlt_acts.specs.Objects.Owned.{CanHang, HangsAll, CanFree, FreesAll, CanDrop, DropsAll};

use vlt_heap::{Heap, Obj, Slot};

/// Puts the object that a slot owns into another one.
fn hang_one(heap: &mut Heap, a: Slot, parent: Obj)
    requires sound { IsSound heap.old }
    requires can { CanHang heap.old (a ∷ []) parent }
    ensures sound { IsSound heap.new }
    ensures size { IsSameSize heap.old heap.new }
    ensures does { HangsAll (a ∷ []) parent heap.old heap.new }
{
    match a {
        Slot::Owned(o, _) => heap.own(o, parent),
        Slot::Object(..) => {}
        Slot::Number(_) => {}
    }
}

/// Puts the objects that slots own into another one.
pub fn hang_all(heap: &mut Heap, slots: &[Slot], parent: Obj)
    requires sound { IsSound heap.old }
    requires can { CanHang heap.old slots.now parent }
    ensures sound { IsSound heap.new }
    ensures size { IsSameSize heap.old heap.new }
    ensures does { HangsAll slots.now parent heap.old heap.new }
{
    match slots.split_first() {
        None => {}
        Some((a, rest)) => {
            hang_one(heap, *a, parent);
            hang_all(heap, rest, parent);
        }
    }
}

/// Takes the object that a slot owns out of the one that it is in.
fn free_one(heap: &mut Heap, a: Slot)
    requires sound { IsSound heap.old }
    requires can { CanFree heap.old (a ∷ []) }
    ensures sound { IsSound heap.new }
    ensures size { IsSameSize heap.old heap.new }
    ensures does { FreesAll (a ∷ []) heap.old heap.new }
{
    match a {
        Slot::Owned(o, _) => heap.disown(o),
        Slot::Object(..) => {}
        Slot::Number(_) => {}
    }
}

/// Takes the objects that slots own out of the one that they are in.
pub fn free_all(heap: &mut Heap, slots: &[Slot])
    requires sound { IsSound heap.old }
    requires can { CanFree heap.old slots.now }
    ensures sound { IsSound heap.new }
    ensures size { IsSameSize heap.old heap.new }
    ensures does { FreesAll slots.now heap.old heap.new }
{
    match slots.split_first() {
        None => {}
        Some((a, rest)) => {
            free_one(heap, *a);
            free_all(heap, rest);
        }
    }
}

/// Ends the object that a slot owns.
fn drop_one(heap: &mut Heap, a: Slot)
    requires sound { IsSound heap.old }
    requires can { CanDrop heap.old (a ∷ []) }
    ensures sound { IsSound heap.new }
    ensures size { IsSameSize heap.old heap.new }
    ensures does { DropsAll (a ∷ []) heap.old heap.new }
{
    match a {
        Slot::Owned(o, _) => heap.release(o),
        Slot::Object(..) => {}
        Slot::Number(_) => {}
    }
}

/// Ends the objects that slots own.
pub fn drop_all(heap: &mut Heap, slots: &[Slot])
    requires sound { IsSound heap.old }
    requires can { CanDrop heap.old slots.now }
    ensures sound { IsSound heap.new }
    ensures size { IsSameSize heap.old heap.new }
    ensures does { DropsAll slots.now heap.old heap.new }
{
    match slots.split_first() {
        None => {}
        Some((a, rest)) => {
            drop_one(heap, *a);
            drop_all(heap, rest);
        }
    }
}
