//! The table of what a host holds.

ghost use Rattle.std.specs.Prelude.{◌≡◌, ◌≤◌, ◌<◌, ◌+◌, ℕ, [], length, IfOk, is_some, option_map, slice_get, insert, vec_capacity};
ghost use Rattle.vlt_core.specs.KindedHeads.{has};
ghost use Rattle.vlt_host_acts.specs.Permits.Numbers.{with_number, without_number};

use std::alloc::Global;
use vlt_base::Memory;
use vlt_heap::Obj;

/// The objects that a host holds, by their numbers in ascending order, each with the place where it was last.
#[derive(Drop)]
pub struct Held {
    numbers: Vec<u64>,
    places: Vec<Obj>,
}

impl Held {
    ghost use Rattle.vlt_host_acts.specs.Permits.Held.{IsSound, numbers_in, room_in};

    /// A host that holds nothing, and room for so many objects.
    ///
    /// # Errors
    ///
    /// `Memory` where there is too little.
    pub fn open(alloc: Global, room: u32) -> Result<Held, Memory>
        ensures sound { IfOk result IsSound }
        ensures empty { IfOk result (λ h. numbers_in h ≡ []) }
        ensures room { IfOk result (λ h. room_in h ≡ room) }
    {
        Ok(Held {
            numbers: Vec::with_capacity(alloc, room as usize)?,
            places: Vec::with_capacity(alloc, room as usize)?,
        })
    }

    /// The place where the object of this number was last, if the host holds it.
    pub fn find(&self, number: u64) -> Option<Obj>
        requires sound { IsSound self.now }
        ensures { is_some result ≡ has (numbers_in self.now) number }
    {
        match self.numbers.as_slice().binary_search(&number) {
            Ok(i) => Some(self.places[i]),
            Err(_) => None,
        }
    }

    /// The number of the object at an index in ascending order, if the host holds so many, and where it was last.
    pub fn get(&self, i: u32) -> Option<(u64, Obj)>
        requires sound { IsSound self.now }
        ensures { option_map (λ q. q.0) result ≡ slice_get (numbers_in self.now) i }
    {
        let number = *self.numbers.get(i as usize)?;
        Some((number, self.places[i as usize]))
    }

    /// The host holds the object of this number no longer.
    pub fn remove(&mut self, number: u64)
        requires sound { IsSound self.old }
        ensures numbers { numbers_in self.new ≡ without_number number (numbers_in self.old) }
        ensures room { room_in self.old ≤ room_in self.new }
        ensures sound { IsSound self.new }
    {
        if let Ok(i) = self.numbers.as_slice().binary_search(&number) {
            self.numbers.remove(i);
            self.places.remove(i);
        }
    }

    /// The host holds the object of this number, which is at the place.
    pub fn add(&mut self, number: u64, place: Obj)
        requires sound { IsSound self.old }
        requires room { length (with_number number (numbers_in self.old)) ≤ room_in self.old }
        ensures numbers { numbers_in self.new ≡ with_number number (numbers_in self.old) }
        ensures room { room_in self.old ≤ room_in self.new }
        ensures sound { IsSound self.new }
    {
        if let Err(i) = self.numbers.as_slice().binary_search(&number) {
            put_at(&mut self.numbers, i, number);
            put_at(&mut self.places, i, place);
        }
    }
}

/// One more item, at an index, for which there is room.
fn put_at<T: Drop>(items: &mut Vec<T>, i: usize, item: T)
    requires within { i ≤ length items.old.items }
    requires room { length items.old.items < vec_capacity items.old }
    ensures items { items.new.items ≡ insert items.old.items i item }
    ensures long { length items.new.items ≡ length items.old.items + 1 }
    ensures room { vec_capacity items.old ≤ vec_capacity items.new }
{
    match items.insert(i, item) {
        Ok(()) => {}
        Err(_) => unreachable!(),
    }
}
