//! Places, sorted into rings: the free ones, those about to be freed, and the children of each.

ghost use Rattle.std.specs.Prelude.{◌≡◌, ◌≢◌, ◌↔◌, ◌<◌, ◌≤◌, ◌+◌, ◌*◌, ◌++◌, ◌∷◌, [], length, max, true, false, Some, None, IfOk, IfSome, IfNone, ℕ, slice_get, slice_set, vec_capacity};
ghost use Rattle.vlt_rings.specs.Rings.{IsWhole, next_of, room_of};
ghost use Rattle.vlt_rings.specs.Places.{member, IsHead, IsMoved, IsSound, IsSettled, IsFresh, StandsIn, HasNone, WasSet, WasPushed, IsMarked, IsSameBut, count_of};
ghost use Rattle.vlt_rings.specs.Things.{Thing, Things, IsAt, Hold, Holds, AreReleased, IsMadeOrFull, IsLiveAt, IsMadeAt, IsThereOrGone, IsParentOf, IsLoneAt, IsHungAt};
ghost use Rattle.vlt_rings.specs.declared.places.Place.{Place};
ghost use Rattle.vlt_rings.specs.declared.places.Mark.TheVariants.{Free as Unused, Doomed as Lost, Live as Alive};

use crate::rings::Rings;
use std::alloc::{AllocError, Global};

/// What a place is used for.
#[derive(Clone, Copy, Debug, PartialEq, Eq)]
enum Mark {
    Free,
    /// Its thing is about to be let go.
    Doomed,
    Live,
}

/// A place: the number of its thing, and the place of the parent.
#[derive(Clone, Copy)]
struct Place {
    number: u64,
    mark: Mark,
    parent: Option<u32>,
}

impl Place {
    /// Whether it has the thing of this number.
    fn has(self, number: u64) -> bool
        ensures yes { result ≡ true → (self.mark ≡ Alive) × (self.number ≡ number) }
        ensures no { result ≡ false → self.mark ≡ Alive → self.number ≢ number }
    {
        self.mark == Mark::Live && self.number == number
    }
}

/// Places for at most so many things at a time.
#[derive(Drop)]
pub struct Places {
    places: Vec<Place>,
    rings: Rings,
    budget: u32,
    live: u32,
    made: u64,
}

/// The node that begins the ring of the free places.
const FREE: u32 = 0;

/// The node that begins the ring of the doomed places.
const DOOMED: u32 = 1;

/// Marks a place.
fn set_mark(places: &mut Vec<Place>, c: u32, mark: Mark)
    requires { c < length places.old.items }
    ensures set { WasSet (λ p. record p { mark = mark }) c places.old.items places.new.items }
    ensures room { vec_capacity places.new ≡ vec_capacity places.old }
{
    places[c as usize].mark = mark;
}

/// Sets the parent of a place.
fn set_parent(places: &mut Vec<Place>, c: u32, parent: Option<u32>)
    requires { c < length places.old.items }
    ensures set { WasSet (λ p. record p { parent = parent }) c places.old.items places.new.items }
    ensures room { vec_capacity places.new ≡ vec_capacity places.old }
{
    places[c as usize].parent = parent;
}

/// Gives a place to a thing without a parent.
fn set_place(places: &mut Vec<Place>, c: u32, number: u64)
    requires { c < length places.old.items }
    ensures set { WasSet (λ p. record { number = number; mark = Alive; parent = None }) c
        places.old.items places.new.items }
    ensures room { vec_capacity places.new ≡ vec_capacity places.old }
{
    places[c as usize] = Place {
        number,
        mark: Mark::Live,
        parent: None,
    };
}

/// One place more, for which there is room.
fn push(places: &mut Vec<Place>, place: Place)
    requires { length places.old.items < vec_capacity places.old }
    ensures items { places.new.items ≡ places.old.items ++ place ∷ [] }
    ensures room { vec_capacity places.old ≤ vec_capacity places.new }
{
    match places.push(place) {
        Ok(()) => {}
        Err(_) => unreachable!(),
    }
}

/// Moves a place's node to the ring that begins at a node.
fn move_to(rings: &mut Rings, h: u32, c: u32)
    requires whole { IsWhole rings.old }
    requires node { member c < length (next_of rings.old) }
    requires few { c < 1073741824 }
    requires within { h < length (next_of rings.old) }
    requires is_head { IsHead h }
    ensures whole { IsWhole rings.new }
    ensures long { length (next_of rings.new) ≡ length (next_of rings.old) }
    ensures room { room_of rings.new ≡ room_of rings.old }
    ensures moved { IsMoved h (member c) (next_of rings.old) (next_of rings.new) }
{
    let node = 2 * c + 3;
    rings.unlink(node);
    rings.insert(h, node);
}

impl Places {
    ghost use Rattle.vlt_rings.specs.Things.{budget_of, made_in, places_in};

    /// No things, and room for at most so many at a time.
    pub fn open(alloc: Global, budget: u32) -> Result<Places, AllocError>
        requires { budget < 1073741824 }
        ensures fresh { IfOk result IsFresh }
        ensures budget { IfOk result (λ h. budget_of h ≡ budget) }
        ensures places { IfOk result (λ h. places_in h ≡ 0) }
    {
        let mut rings = Rings::open(alloc, 2 * budget as usize + 2)?;
        rings.grow();
        rings.grow();
        Ok(Places {
            places: Vec::with_capacity(alloc, budget as usize)?,
            rings,
            budget,
            live: 0,
            made: 0,
        })
    }

    /// The first place of the ring that begins at a node.
    fn first(&self, h: u32) -> Option<u32>
        requires sound { IsSound self.now }
        requires is_head { IsHead h }
        requires within { h ≤ 2 * length self.now.places.items + 1 }
        ensures some { IfSome result (λ c. StandsIn self.now.places.items h c) }
        ensures none { IfNone result (HasNone self.now.places.items h) }
    {
        let node = self.rings.after(h);
        if node == h {
            None
        } else {
            Some((node - 3) / 2)
        }
    }

    /// Marks a live place as doomed, so that its thing is gone.
    fn doom(&mut self, c: u32)
        requires sound { IsSound self.old }
        requires live { IsMarked Alive self.old.places.items c }
        ensures sound { IsSound self.new }
        ensures set { WasSet (λ p. record p { mark = Lost }) c self.old.places.items
            self.new.places.items }
        ensures made { made_in self.new ≡ made_in self.old }
        ensures budget { budget_of self.new ≡ budget_of self.old }
    {
        set_mark(&mut self.places, c, Mark::Doomed);
        move_to(&mut self.rings, DOOMED, c);
        self.live -= 1;
    }

    /// Frees a doomed place.
    fn free(&mut self, c: u32)
        requires sound { IsSound self.old }
        requires doomed { IsMarked Lost self.old.places.items c }
        ensures sound { IsSound self.new }
        ensures set { WasSet (λ p. record p { mark = Unused }) c self.old.places.items
            self.new.places.items }
        ensures made { made_in self.new ≡ made_in self.old }
        ensures budget { budget_of self.new ≡ budget_of self.old }
    {
        set_mark(&mut self.places, c, Mark::Free);
        move_to(&mut self.rings, FREE, c);
    }

    /// One free place more.
    fn grow(&mut self)
        requires sound { IsSound self.old }
        requires room { length self.old.places.items < budget_of self.old }
        ensures sound { IsSound self.new }
        ensures places { WasPushed self.old.places.items self.new.places.items }
        ensures made { made_in self.new ≡ made_in self.old }
        ensures budget { budget_of self.new ≡ budget_of self.old }
    {
        let place = Place {
            number: 0,
            mark: Mark::Free,
            parent: None,
        };
        let node = 2 * self.places.len() as u32 + 3;
        push(&mut self.places, place);
        self.rings.grow();
        self.rings.grow();
        self.rings.insert(FREE, node);
    }

    /// A free place, if the budget has one.
    fn find_free(&mut self) -> Option<u32>
        requires settled { IsSettled self.old }
        ensures settled { IsSettled self.new }
        ensures made { made_in self.new ≡ made_in self.old }
        ensures budget { budget_of self.new ≡ budget_of self.old }
        ensures some { IfSome result (λ c. IsMarked Unused self.new.places.items c) }
        ensures none { IfNone result (self.old.budget ≤ count_of self.old.places.items) }
        ensures same { IfNone result (self.new ≡ self.old) }
        ensures things { (ts : Things) → Hold self.old.places.items ts →
            Hold self.new.places.items ts }
        ensures places { IfSome result (λ c. (c ≤ places_in self.old) ×
            (places_in self.new ≡ max (places_in self.old) (c + 1))) }
    {
        if let Some(c) = self.first(FREE) {
            return Some(c);
        }
        let c = self.places.len() as u32;
        if c >= self.budget {
            return None;
        }
        self.grow();
        Some(c)
    }

    /// A place for a new thing, which has no parent; none where as many are there as the budget has.
    pub fn make(&mut self) -> Option<u32>
        requires settled { IsSettled self.old }
        requires few { made_in self.old < 18446744073709551615 }
        ensures settled { IsSettled self.new }
        ensures budget { budget_of self.new ≡ budget_of self.old }
        ensures live { IfSome result (λ c. IsLiveAt self.new c) }
        ensures things { (ts : Things) → Holds self.old ts →
            IsMadeOrFull result ts self.old self.new }
        ensures places { IfSome result (λ c. (c ≤ places_in self.old) ×
            (places_in self.new ≡ max (places_in self.old) (c + 1))) }
        ensures same { IfNone result (self.new ≡ self.old) }
    {
        let c = self.find_free()?;
        set_place(&mut self.places, c, self.made);
        self.rings.unlink(2 * c + 3);
        self.live += 1;
        self.made += 1;
        Some(c)
    }

    /// Gives a thing that has no parent one. Both go by their places.
    pub fn own(&mut self, child: u32, parent: u32)
        requires settled { IsSettled self.old }
        requires child { IsLiveAt self.old child }
        requires parent { IsLiveAt self.old parent }
        ensures settled { IsSettled self.new }
        ensures places { IsSameBut self.old self.new }
        ensures things { (ts : Things) (n m : ℕ) (t u : Thing) → Holds self.old ts →
            IsAt ts n t → t.place ≡ child → IsAt ts m u → u.place ≡ parent →
            Holds self.new (slice_set ts n (Some (record t { parent = Some m }))) }
    {
        set_parent(&mut self.places, child, Some(parent));
        move_to(&mut self.rings, 2 * parent + 2, child);
    }

    /// Takes the parent of a thing away. The thing goes by its place.
    pub fn disown(&mut self, child: u32)
        requires settled { IsSettled self.old }
        requires child { IsLiveAt self.old child }
        ensures settled { IsSettled self.new }
        ensures places { IsSameBut self.old self.new }
        ensures things { (ts : Things) (n : ℕ) (t : Thing) → Holds self.old ts →
            IsAt ts n t → t.place ≡ child →
            Holds self.new (slice_set ts n (Some (record t { parent = None }))) }
    {
        set_parent(&mut self.places, child, None);
        self.rings.unlink(2 * child + 3);
    }

    /// Lets go of a thing and of all below it. The thing goes by its place.
    pub fn release(&mut self, c: u32)
        requires settled { IsSettled self.old }
        requires live { IsLiveAt self.old c }
        ensures settled { IsSettled self.new }
        ensures places { IsSameBut self.old self.new }
        ensures things { (ts : Things) (n : ℕ) (t : Thing) → Holds self.old ts →
            IsAt ts n t → t.place ≡ c → AreReleased ts n self.new }
    {
        self.doom(c);
        while let Some(doomed) = self.first(DOOMED) {
            match self.first(2 * doomed + 2) {
                Some(child) => self.doom(child),
                None => self.free(doomed),
            }
        }
    }

    /// How many things were made, which is the number of the next one.
    pub fn made(&self) -> u64
        ensures { result ≡ made_in self.now }
    {
        self.made
    }

    /// A place, if there is one of this number.
    fn at(&self, c: u32) -> Option<Place>
        ensures { result ≡ slice_get self.now.places.items c }
    {
        self.places.get(c as usize).copied()
    }

    /// Whether the place still has the thing of this number, which was made there.
    pub fn is_held(&self, c: u32, number: u64) -> bool
        ensures live { result ≡ true → IsLiveAt self.now c }
        ensures number { result ≡ true → (ts : Things) (n : ℕ) (t : Thing) →
            Holds self.now ts → IsAt ts n t → t.place ≡ c → n ≡ number }
        ensures things { (ts : Things) → Holds self.now ts → IsMadeAt ts c number →
            IsThereOrGone result ts number c }
    {
        match self.at(c) {
            Some(place) => place.has(number),
            None => false,
        }
    }

    /// The number of a thing, which goes by its place.
    pub fn number(&self, c: u32) -> u64
        requires live { IsLiveAt self.now c }
        ensures { (ts : Things) (n : ℕ) (t : Thing) → Holds self.now ts → IsAt ts n t →
            t.place ≡ c → result ≡ n }
    {
        self.number_at(c)
    }

    /// The place and the number of a thing's parent. The thing goes by its place.
    pub fn parent_of(&self, c: u32) -> Option<(u32, u64)>
        requires settled { IsSettled self.now }
        requires live { IsLiveAt self.now c }
        ensures lone { IfNone result (IsLoneAt self.now c) }
        ensures hung { IfSome result (λ r. IsHungAt self.now c) }
        ensures things { (ts : Things) (n : ℕ) (t : Thing) → Holds self.now ts →
            IsAt ts n t → t.place ≡ c → IsParentOf ts t result }
    {
        match self.parent_at(c) {
            Some(parent) => Some((parent, self.number_at(parent))),
            None => None,
        }
    }

    /// The place of a thing's parent.
    fn parent_at(&self, c: u32) -> Option<u32>
        requires live { IsLiveAt self.now c }
        ensures { (p : Place) → slice_get self.now.places.items c ≡ Some p →
            p.parent ≡ result }
    {
        self.places[c as usize].parent
    }

    /// The number of the thing that a place has, or had.
    fn number_at(&self, c: u32) -> u64
        requires { c < length self.now.places.items }
        ensures { (p : Place) → slice_get self.now.places.items c ≡ Some p →
            p.number ≡ result }
    {
        self.places[c as usize].number
    }
}
