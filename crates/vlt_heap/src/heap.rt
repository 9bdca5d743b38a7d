//! The heap.

ghost use Rattle.std.specs.Prelude.{◌≡◌, ◌≢◌, ◌<◌, ◌≤◌, ◌+◌, ◌*◌, ◌++◌, ◌∷◌, [], ℕ, length, true, false, Some, None, IfOk, OnErr, slice_get};
ghost use Rattle.vlt_heap.specs.Items.{with_state, with_parent, with_out};
ghost use Rattle.vlt_heap.specs.declared.slots.Kind.{Kind};

use crate::slots::{Kind, Obj, Slot, at, clear, grow_to, kind_at, put, put_kind};
use std::alloc::Global;
use vlt_base::{HeapEnd, Memory, TypeId};
use vlt_rings::Places;

/// Objects, each with as many slots, that may hang on one another.
#[derive(Drop)]
pub struct Heap {
    places: Places,
    kinds: Vec<Kind>,
    cells: Vec<Slot>,
    width: u32,
}

/// How many objects are made at most.
const MAX_MADE: u64 = 9_223_372_036_854_775_807;

impl Heap {
    ghost use Rattle.vlt_heap.specs.Shown.{IsSound, IsFresh, heap_of, slots_of, Holds, IsKind, IsSetKind, IsLive, IsChild, IsRoot, IsHere, IsSameSize, ForObject, Makes, Changes, Writes, Stores, Hangs, Releases, Tells, Finds, IsParentAt, TakesBack};

    /// No objects, and room for `budget` live ones of `cells` slots each.
    pub fn open(alloc: Global, budget: u32, cells: u32) -> Result<Heap, Memory>
        ensures fresh { IfOk result IsFresh }
        ensures sound { IfOk result IsSound }
        ensures heap { IfOk result (λ h. heap_of h ≡ budget) }
        ensures slots { IfOk result (λ h. slots_of h ≡ cells) }
        ensures items { IfOk result (λ h. Holds h []) }
    {
        // A table of more places than this would not fit any memory.
        if budget >= 1 << 30 {
            return Err(Memory);
        }
        Ok(Heap {
            places: Places::open(alloc, budget)?,
            kinds: Vec::with_capacity(alloc, budget as usize)?,
            cells: Vec::with_capacity(alloc, budget as usize * cells as usize)?,
            width: cells,
        })
    }

    /// A new object, in the first state, without a parent, not out, and with 0 in each slot.
    ///
    /// # Errors
    ///
    /// `HeapEnd` where as many objects are live as the budget allows.
    pub fn new_object(&mut self, t: TypeId) -> Result<Obj, HeapEnd>
        requires sound { IsSound self.old }
        ensures live { IfOk result (λ o. IsLive self.new o) }
        ensures items { Makes result t.0 self.old self.new }
        ensures same { OnErr result (self.new ≡ self.old) }
        ensures size { IsSameSize self.old self.new }
        ensures sound { IsSound self.new }
    {
        if self.places.made() >= MAX_MADE {
            return Err(HeapEnd);
        }
        let Some(place) = self.places.make() else {
            return Err(HeapEnd);
        };
        let kind = Kind {
            type_id: t,
            state: 0,
            is_out: false,
        };
        put_kind(&mut self.kinds, place, kind);
        let from = place as usize * self.width as usize;
        grow_to(&mut self.cells, from + self.width as usize);
        clear(&mut self.cells, from, self.width);
        Ok(Obj(place))
    }

    /// An object's number.
    pub fn number(&self, o: Obj) -> u64
        requires live { IsLive self.now o }
        ensures { ForObject self.now o (λ items n x. result ≡ n) }
    {
        self.places.number(o.0)
    }

    /// Whether the object of this number, which was made at the place, is live.
    pub fn is_held(&self, o: Obj, number: u64) -> bool
        ensures live { result ≡ true → IsLive self.now o }
        ensures number { result ≡ true → ForObject self.now o (λ items n x. n ≡ number) }
        ensures items { Tells result o number self.now }
    {
        self.places.is_held(o.0, number)
    }

    /// What an object is.
    fn kind(&self, o: Obj) -> Kind
        requires sound { IsSound self.now }
        requires live { IsLive self.now o }
        ensures at { slice_get self.now.kinds.items o.0 ≡ Some result }
        ensures items { ForObject self.now o (λ items n x. IsKind result x) }
    {
        kind_at(&self.kinds, o.0)
    }

    /// An object's type.
    pub fn type_of(&self, o: Obj) -> TypeId
        requires sound { IsSound self.now }
        requires live { IsLive self.now o }
        ensures { ForObject self.now o (λ items n x. result.0 ≡ x.type) }
    {
        self.kind(o).type_id
    }

    /// An object's state.
    pub fn state(&self, o: Obj) -> u8
        requires sound { IsSound self.now }
        requires live { IsLive self.now o }
        ensures { ForObject self.now o (λ items n x. result ≡ x.state) }
    {
        self.kind(o).state
    }

    /// The position of a slot in the table.
    fn position(&self, o: Obj, i: u32) -> usize
        requires sound { IsSound self.now }
        requires live { IsLive self.now o }
        requires within { i < slots_of self.now }
        ensures is { result ≡ o.0 * self.now.width + i }
        ensures within { result < length self.now.cells.items }
    {
        o.0 as usize * self.width as usize + i as usize
    }

    /// What a slot of an object has.
    pub fn read(&self, o: Obj, i: u32) -> Slot
        requires sound { IsSound self.now }
        requires live { IsLive self.now o }
        requires within { i < slots_of self.now }
        ensures { ForObject self.now o (λ items n x. slice_get x.slots i ≡ Some result) }
    {
        at(&self.cells, self.position(o, i))
    }

    /// A slot of the object of this number, where it is live at the place and has so many.
    pub fn find(&self, o: Obj, number: u64, i: u64) -> Option<Slot>
        requires sound { IsSound self.now }
        ensures { Finds result o number i self.now }
    {
        if !self.is_held(o, number) {
            return None;
        }
        if i >= u64::from(self.width) {
            return None;
        }
        Some(self.read(o, i as u32))
    }

    /// Sets a slot of an object.
    pub fn write(&mut self, o: Obj, i: u32, slot: Slot)
        requires sound { IsSound self.old }
        requires live { IsLive self.old o }
        requires within { i < slots_of self.old }
        ensures items { Writes o i slot self.old self.new }
        ensures size { IsSameSize self.old self.new }
        ensures sound { IsSound self.new }
    {
        let k = self.position(o, i);
        put(&mut self.cells, k, slot);
    }

    /// Sets a slot of the object of this number, where it is live at the place and has so many.
    pub fn store(&mut self, o: Obj, number: u64, i: u64, slot: Slot)
        requires sound { IsSound self.old }
        ensures items { Stores o number i slot self.old self.new }
        ensures size { IsSameSize self.old self.new }
        ensures sound { IsSound self.new }
    {
        if self.is_held(o, number) && i < u64::from(self.width) {
            self.write(o, i as u32, slot);
        }
    }

    /// Sets what an object is.
    fn set_kind(&mut self, o: Obj, kind: Kind)
        requires sound { IsSound self.old }
        requires live { IsLive self.old o }
        ensures set { IsSetKind o.0 kind self.old self.new }
        ensures size { IsSameSize self.old self.new }
        ensures sound { IsSound self.new }
    {
        self.kinds[o.0 as usize] = kind;
    }

    /// Sets an object's state.
    pub fn become_state(&mut self, o: Obj, state: u8)
        requires sound { IsSound self.old }
        requires live { IsLive self.old o }
        ensures items { Changes o (with_state state) self.old self.new }
        ensures size { IsSameSize self.old self.new }
        ensures sound { IsSound self.new }
    {
        let kind = self.kind(o);
        self.set_kind(o, Kind { state, ..kind });
    }

    /// Ends an object that has no parent and isn't out, and all below it.
    pub fn release(&mut self, o: Obj)
        requires sound { IsSound self.old }
        requires live { IsLive self.old o }
        requires root { IsRoot self.old o }
        requires here { IsHere self.old o }
        ensures items { Releases o self.old self.new }
        ensures size { IsSameSize self.old self.new }
        ensures sound { IsSound self.new }
    {
        self.places.release(o.0);
    }

    /// Gives a child that has no parent and isn't out a parent, which has none either.
    pub fn own(&mut self, child: Obj, parent: Obj)
        requires sound { IsSound self.old }
        requires live { IsLive self.old child }
        requires root { IsRoot self.old child }
        requires here { IsHere self.old child }
        requires parent_live { IsLive self.old parent }
        requires parent_root { IsRoot self.old parent }
        requires other { child.0 ≢ parent.0 }
        ensures items { Hangs child parent self.old self.new }
        ensures size { IsSameSize self.old self.new }
        ensures sound { IsSound self.new }
    {
        self.places.own(child.0, parent.0);
    }

    /// Takes a child's parent away.
    pub fn disown(&mut self, child: Obj)
        requires sound { IsSound self.old }
        requires live { IsLive self.old child }
        requires child { IsChild self.old child }
        ensures items { Changes child (with_parent None) self.old self.new }
        ensures size { IsSameSize self.old self.new }
        ensures sound { IsSound self.new }
    {
        self.places.disown(child.0);
    }

    /// The parent of a child.
    fn parent(&self, child: Obj) -> Obj
        requires sound { IsSound self.now }
        requires live { IsLive self.now child }
        requires child { IsChild self.now child }
        ensures { ForObject self.now child (λ items n x. IsParentAt items x result.0) }
    {
        match self.places.parent_of(child.0) {
            Some((place, _)) => Obj(place),
            None => unreachable!(),
        }
    }

    /// Takes a child's parent away, and gives the parent.
    pub fn focus(&mut self, child: Obj) -> Obj
        requires sound { IsSound self.old }
        requires live { IsLive self.old child }
        requires child { IsChild self.old child }
        ensures parent { ForObject self.old child (λ items n x. IsParentAt items x result.0) }
        ensures items { Changes child (with_parent None) self.old self.new }
        ensures size { IsSameSize self.old self.new }
        ensures sound { IsSound self.new }
    {
        let parent = self.parent(child);
        self.disown(child);
        parent
    }

    /// Gives a child back to the parent that it was taken from.
    pub fn unfocus(&mut self, child: Obj, parent: Obj)
        requires sound { IsSound self.old }
        requires live { IsLive self.old child }
        requires root { IsRoot self.old child }
        requires here { IsHere self.old child }
        requires parent_live { IsLive self.old parent }
        requires parent_root { IsRoot self.old parent }
        requires other { child.0 ≢ parent.0 }
        ensures items { Hangs child parent self.old self.new }
        ensures size { IsSameSize self.old self.new }
        ensures sound { IsSound self.new }
    {
        self.own(child, parent);
    }

    /// Sends an object out that has no parent and isn't out.
    pub fn send_out(&mut self, o: Obj)
        requires sound { IsSound self.old }
        requires live { IsLive self.old o }
        requires root { IsRoot self.old o }
        requires here { IsHere self.old o }
        ensures items { Changes o (with_out true) self.old self.new }
        ensures size { IsSameSize self.old self.new }
        ensures sound { IsSound self.new }
    {
        let kind = self.kind(o);
        self.set_kind(
            o,
            Kind {
                is_out: true,
                ..kind
            },
        );
    }

    /// Takes the object of this number back where it is out at the place; false where it isn't.
    pub fn back(&mut self, o: Obj, number: u64) -> bool
        requires sound { IsSound self.old }
        ensures items { TakesBack result o number self.old self.new }
        ensures size { IsSameSize self.old self.new }
        ensures sound { IsSound self.new }
    {
        if !self.is_held(o, number) {
            return false;
        }
        let kind = self.kind(o);
        if !kind.is_out {
            return false;
        }
        self.set_kind(
            o,
            Kind {
                is_out: false,
                ..kind
            },
        );
        true
    }
}
