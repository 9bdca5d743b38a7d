//! Nodes in doubly linked rings: each node is in one ring, alone at first.

ghost use Rattle.std.specs.Prelude.{◌≡◌, ◌≢◌, ◌<◌, ◌≤◌, ◌+◌, ◌++◌, ◌∷◌, [], ℕ, length, Some, slice_get, slice_set, vec_capacity, IfOk};
ghost use Rattle.vlt_rings.specs.Rings.{IsRing, IsWhole, IsUnlinked, IsInserted, next_of, back_of};

use std::alloc::{AllocError, Global};

/// For each node the next one of its ring and the one before it.
#[derive(Drop)]
pub struct Rings {
    next: Vec<u32>,
    prev: Vec<u32>,
}

/// The number at a place.
fn at(items: &Vec<u32>, i: u32) -> u32
    requires { i < length items.now.items }
    ensures { slice_get items.now.items i ≡ Some result }
{
    items[i as usize]
}

/// Sets the number at a place.
fn put(items: &mut Vec<u32>, i: u32, value: u32)
    requires { i < length items.old.items }
    ensures items { items.new.items ≡ slice_set items.old.items i value }
    ensures room { vec_capacity items.new ≡ vec_capacity items.old }
{
    items[i as usize] = value;
}

/// One number more, for which there is room.
fn push(items: &mut Vec<u32>, value: u32)
    requires { length items.old.items < vec_capacity items.old }
    ensures items { items.new.items ≡ items.old.items ++ value ∷ [] }
    ensures room { vec_capacity items.old ≤ vec_capacity items.new }
{
    match items.push(value) {
        Ok(()) => {}
        Err(_) => unreachable!(),
    }
}

impl Rings {
    ghost use Rattle.vlt_rings.specs.Rings.{room_of};

    /// No nodes, and room for so many.
    pub fn open(alloc: Global, count: usize) -> Result<Rings, AllocError>
        ensures none { IfOk result (λ rings. next_of rings ≡ []) }
        ensures back { IfOk result (λ rings. back_of rings ≡ []) }
        ensures whole { IfOk result IsWhole }
        ensures room { IfOk result (λ rings. count ≤ room_of rings) }
    {
        Ok(Rings {
            next: Vec::with_capacity(alloc, count)?,
            prev: Vec::with_capacity(alloc, count)?,
        })
    }

    /// One node more, which is alone.
    pub fn grow(&mut self)
        requires whole { IsWhole self.old }
        requires room { length (next_of self.old) < room_of self.old }
        requires few { length (next_of self.old) < 4294967296 }
        ensures whole { IsWhole self.new }
        ensures nodes { next_of self.new ≡ next_of self.old ++ length (next_of self.old) ∷ [] }
        ensures back { back_of self.new ≡ back_of self.old ++ length (next_of self.old) ∷ [] }
        ensures room { room_of self.old ≤ room_of self.new }
    {
        let node = self.next.len() as u32;
        push(&mut self.next, node);
        push(&mut self.prev, node);
    }

    /// The next node of a node's ring.
    pub fn after(&self, i: u32) -> u32
        requires { i < length (next_of self.now) }
        ensures { slice_get (next_of self.now) i ≡ Some result }
    {
        at(&self.next, i)
    }

    /// Takes a node out of its ring.
    pub fn unlink(&mut self, i: u32)
        requires whole { IsWhole self.old }
        requires within { i < length (next_of self.old) }
        ensures whole { IsWhole self.new }
        ensures unlinked { IsUnlinked i (next_of self.old) (next_of self.new) }
        ensures long { length (next_of self.new) ≡ length (next_of self.old) }
        ensures room { room_of self.new ≡ room_of self.old }
    {
        let before = at(&self.prev, i);
        let after = at(&self.next, i);
        put(&mut self.next, before, after);
        put(&mut self.prev, after, before);
        put(&mut self.next, i, i);
        put(&mut self.prev, i, i);
    }

    /// Puts a node that is alone after another one.
    pub fn insert(&mut self, h: u32, i: u32)
        requires whole { IsWhole self.old }
        requires within { h < length (next_of self.old) }
        requires alone { IsRing (next_of self.old) i [] }
        requires other { h ≢ i }
        ensures whole { IsWhole self.new }
        ensures inserted { IsInserted h i (next_of self.old) (next_of self.new) }
        ensures long { length (next_of self.new) ≡ length (next_of self.old) }
        ensures room { room_of self.new ≡ room_of self.old }
    {
        let after = at(&self.next, h);
        put(&mut self.next, h, i);
        put(&mut self.prev, i, h);
        put(&mut self.next, i, after);
        put(&mut self.prev, after, i);
    }
}
