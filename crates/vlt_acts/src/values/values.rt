//! The values of all frames in one table.

ghost use Rattle.std.specs.Prelude.{◌≡◌, ◌≤◌, ◌<◌, ◌+◌, ◌*◌, ◌^◌, ◌++◌, ◌∷◌, [], ℤ, take, drop, length, Some, IfOk, slice_get, slice_set, vec_capacity, max};
ghost use Rattle.vlt_heap.specs.Shown.{IsSound};
ghost use Rattle.vlt_acts.specs.Values.Filled.{IsFilled, IsCellSlot, IsSingleSlot};

use std::alloc::Global;
use vlt_base::{KeyId, Memory, VarId};
use vlt_heap::{Heap, Obj, Slot};

/// The slots of all frames, of which the running one is the last: as many for each variable as the widest value takes, then one
/// for each key.
#[derive(Drop)]
pub struct Values {
    slots: Vec<Slot>,
    /// Where the running frame begins.
    base: usize,
    /// How many variables it has.
    vars: u32,
    /// How many slots a value takes.
    width: u32,
}

/// The slots from a position on.
fn following(slots: &[Slot], n: usize) -> &[Slot]
    requires { n ≤ length slots.now }
    ensures { result.now ≡ drop n slots.now }
{
    &slots[n..]
}

/// A slot, or 0 where there is none.
fn at(slots: &[Slot], k: u64) -> Slot
    ensures { (a : Slot) → slice_get slots.now k ≡ Some a → result ≡ a }
{
    match slots.get(k as usize) {
        Some(a) => *a,
        None => Slot::Number(0),
    }
}

/// The number of a slot, or 0 where it has none.
fn number_at(slots: &[Slot], k: u64) -> i64
    ensures { (z : ℤ) → slice_get slots.now k ≡ Some (Slot.Number z) → result ≡ z }
{
    match slots.get(k as usize) {
        Some(Slot::Number(z)) => *z,
        _ => 0,
    }
}

/// Sets a slot.
fn put(slots: &mut Vec<Slot>, k: usize, a: Slot)
    requires { k < length slots.old.items }
    ensures items { slots.new.items ≡ slice_set slots.old.items k a }
    ensures room { vec_capacity slots.new ≡ vec_capacity slots.old }
{
    slots[k] = a;
}

/// One slot more, for which there is room.
fn push(slots: &mut Vec<Slot>, a: Slot)
    requires { length slots.old.items < vec_capacity slots.old }
    ensures items { slots.new.items ≡ slots.old.items ++ a ∷ [] }
    ensures room { vec_capacity slots.old ≤ vec_capacity slots.new }
{
    match slots.push(a) {
        Ok(()) => {}
        Err(_) => unreachable!(),
    }
}

/// A slot of the object of this number, or 0 where there is none.
fn find(heap: &Heap, object: Obj, number: u64, k: u64) -> Slot
    requires sound { IsSound heap.now }
    ensures { (a : Slot) → IsCellSlot heap.now object number k a → result ≡ a }
{
    match heap.find(object, number, k) {
        Some(a) => a,
        None => Slot::Number(0),
    }
}

/// The slot j of a value of one part: its slot in front, then 0.
fn single(front: Slot, j: u32) -> Slot
    ensures { (a : Slot) → IsSingleSlot front j a → result ≡ a }
{
    if j == 0 { front } else { Slot::Number(0) }
}

impl Values {
    ghost use Rattle.vlt_acts.specs.Values.Shown.{IsTable, var_at, key_at, AreApart, IsKept, IsSlotSet, IsKeySet, IsGrown, IsCut, IsRowSet, IsVarSlot, IsSlotFrom, IsFrontOf, with_frame};

    /// No frame, and room for so many slots, where each value takes `width`.
    pub fn open(alloc: Global, room: usize, width: u32) -> Result<Values, Memory>
        ensures empty { IfOk result (λ v. length v.slots.items ≡ 0) }
        ensures room { IfOk result (λ v. vec_capacity v.slots ≡ room) }
        ensures width { IfOk result (λ v. v.width ≡ width) }
        ensures table { IfOk result IsTable }
    {
        Ok(Values {
            slots: Vec::with_capacity(alloc, room)?,
            base: 0,
            vars: 0,
            width,
        })
    }

    /// Where the slots of a variable begin.
    pub fn place(&self, v: VarId) -> usize
        requires table { IsTable self.now }
        requires within { v.0 < self.now.vars }
        ensures is { result ≡ var_at self.now v.0 }
        ensures within { result + self.now.width ≤ length self.now.slots.items }
    {
        self.base + v.0 as usize * self.width as usize
    }

    /// A slot of a variable.
    fn slot(&self, v: VarId, j: u32) -> Slot
        requires { IsTable self.now }
        ensures { (a : Slot) → slice_get self.now.slots.items (var_at self.now v.0 + j) ≡
            Some a → result ≡ a }
    {
        let k = u64::from(v.0) * u64::from(self.width) + u64::from(j);
        at(following(&self.slots, self.base), k)
    }

    /// The slot at a position.
    pub fn slot_at(&self, k: usize) -> Slot
        requires { k < length self.now.slots.items }
        ensures { slice_get self.now.slots.items k ≡ Some result }
    {
        self.slots[k]
    }

    /// The slots of so many values from a position on.
    pub fn values_from(&self, from: usize, count: usize) -> &[Slot]
        requires { from + count * self.now.width ≤ length self.now.slots.items }
        ensures { result.now ≡ take (count * self.now.width) (drop from self.now.slots.items) }
    {
        &self.slots[from..from + count * self.width as usize]
    }

    /// The first slot of a variable.
    pub fn front(&self, v: VarId) -> Slot
        requires { IsTable self.now }
        ensures { (a : Slot) → slice_get self.now.slots.items (var_at self.now v.0) ≡
            Some a → result ≡ a }
    {
        self.slot(v, 0)
    }

    /// The number of a variable, or 0 where it has none.
    pub fn number(&self, v: VarId) -> i64
        requires { IsTable self.now }
        ensures { (z : ℤ) → slice_get self.now.slots.items (var_at self.now v.0) ≡
            Some (Slot.Number z) → result ≡ z }
    {
        let k = u64::from(v.0) * u64::from(self.width);
        number_at(following(&self.slots, self.base), k)
    }

    /// Where the slots of an object's cell begin.
    pub fn cell(&self, i: u32) -> u64
        ensures is { result ≡ i * self.now.width }
        ensures short { result + self.now.width < 2 ^ 64 }
    {
        u64::from(i) * u64::from(self.width)
    }

    /// How many slots there are.
    pub fn len(&self) -> usize
        ensures { result ≡ length self.now.slots.items }
    {
        self.slots.len()
    }

    /// Slots for one value more, at the end, where there is room for them.
    pub fn grow(&mut self)
        requires { length self.old.slots.items + self.old.width ≤ vec_capacity self.old.slots }
        ensures grown { IsGrown self.old self.new }
        ensures long { length self.new.slots.items
            ≡ length self.old.slots.items + self.old.width }
        ensures room { vec_capacity self.old.slots ≤ vec_capacity self.new.slots }
    {
        for done in 0..self.width {
            let _ = done;
            push(&mut self.slots, Slot::Number(0));
        }
    }

    /// The slot of a key, or 0 where there is none.
    pub fn key_slot(&self, k: KeyId) -> Slot
        requires { IsTable self.now }
        ensures { (a : Slot) → slice_get self.now.slots.items (key_at self.now k.0) ≡
            Some a → result ≡ a }
    {
        let i = u64::from(self.vars) * u64::from(self.width) + u64::from(k.0);
        at(following(&self.slots, self.base), i)
    }

    /// Sets the slot at a position.
    pub fn set_slot(&mut self, k: usize, a: Slot)
        requires { k < length self.old.slots.items }
        ensures { IsSlotSet k a self.old self.new }
    {
        put(&mut self.slots, k, a);
    }

    /// Sets the slot of a key.
    pub fn put_key(&mut self, k: KeyId, a: Slot)
        requires { key_at self.old k.0 < length self.old.slots.items }
        ensures { IsKeySet k.0 a self.old self.new }
    {
        let at = self.base + self.vars as usize * self.width as usize + k.0 as usize;
        put(&mut self.slots, at, a);
    }

    /// Sets the slots of a value of one part.
    pub fn put_single(&mut self, to: usize, front: Slot)
        requires within { to + self.old.width ≤ length self.old.slots.items }
        ensures kept { IsKept to self.old self.new }
        ensures filled { IsFilled (IsSingleSlot front) self.new.slots.items to self.old.width }
    {
        for j in 0..self.width {
            put(&mut self.slots, to + j as usize, single(front, j));
        }
    }

    /// Copies the slots of a value.
    pub fn copy(&mut self, from: usize, to: usize)
        requires within { from + self.old.width ≤ length self.old.slots.items }
        requires to_within { to + self.old.width ≤ length self.old.slots.items }
        ensures kept { IsKept to self.old self.new }
        ensures filled { AreApart from to self.old.width →
            IsFilled (IsSlotFrom self.old from) self.new.slots.items to self.old.width }
    {
        for j in 0..self.width {
            let a = self.slot_at(from + j as usize);
            put(&mut self.slots, to + j as usize, a);
        }
    }

    /// Puts the fronts of so many values into slots that stand one after another before them.
    pub fn gather(&mut self, from: usize, count: usize, to: usize)
        requires within { from + count * self.old.width ≤ length self.old.slots.items }
        requires before { to + count ≤ from }
        requires wide { 1 ≤ self.old.width }
        ensures set { IsRowSet to count self.old self.new }
        ensures filled { IsFilled (IsFrontOf self.old from) self.new.slots.items to count }
    {
        for j in 0..count {
            let a = self.slot_at(from + j * self.width as usize);
            put(&mut self.slots, to + j, a);
        }
    }

    /// Leaves the first slots only.
    pub fn truncate(&mut self, n: usize)
        requires within { n ≤ length self.old.slots.items }
        ensures cut { IsCut n self.old self.new }
        ensures room { vec_capacity self.new.slots ≡ vec_capacity self.old.slots }
    {
        self.slots.truncate(n);
    }

    /// Copies the slots of a variable.
    pub fn copy_var(&mut self, v: VarId, to: usize)
        requires table { IsTable self.old }
        requires within { to + self.old.width ≤ length self.old.slots.items }
        ensures kept { IsKept to self.old self.new }
        ensures filled { AreApart (var_at self.old v.0) to self.old.width →
            IsFilled (IsVarSlot self.old v.0) self.new.slots.items to self.old.width }
    {
        for j in 0..self.width {
            let a = self.slot(v, j);
            put(&mut self.slots, to + j as usize, a);
        }
    }

    /// Copies the slots of a cell of an object.
    pub fn copy_cell(&mut self, object: Obj, number: u64, i: u32, to: usize, heap: &Heap)
        requires sound { IsSound heap.now }
        requires within { to + self.old.width ≤ length self.old.slots.items }
        ensures kept { IsKept to self.old self.new }
        ensures filled { IsFilled (λ j. IsCellSlot heap.now object number
            (i * self.old.width + j)) self.new.slots.items to self.old.width }
    {
        let from = self.cell(i);
        for j in 0..self.width {
            let a = find(heap, object, number, from + u64::from(j));
            put(&mut self.slots, to + j as usize, a);
        }
    }

    /// The slot at a position, or 0 where there is none.
    pub fn read(&self, k: usize) -> Slot
        ensures { (a : Slot) → slice_get self.now.slots.items k ≡ Some a → result ≡ a }
    {
        at(&self.slots, k as u64)
    }

    /// Where the slots of the running frame's keys begin.
    pub fn keys(&self) -> usize
        requires { IsTable self.now }
        ensures { result ≡ key_at self.now 0 }
    {
        self.base + self.vars as usize * self.width as usize
    }

    /// How many variables the running frame has.
    pub fn vars(&self) -> u32
        ensures { result ≡ self.now.vars }
    {
        self.vars
    }

    /// Where the running frame begins.
    pub fn base(&self) -> usize
        ensures { result ≡ self.now.base }
    {
        self.base
    }

    /// How many slots a value takes.
    pub fn width(&self) -> u32
        ensures { result ≡ self.now.width }
    {
        self.width
    }

    /// Makes the frame that begins there the running one.
    pub fn run(&mut self, base: usize, vars: u32)
        ensures { self.new ≡ with_frame self.old base vars }
    {
        self.base = base;
        self.vars = vars;
    }

    /// One slot more, for which there is room.
    pub fn push_slot(&mut self, a: Slot)
        requires { length self.old.slots.items < vec_capacity self.old.slots }
        ensures grown { IsGrown self.old self.new }
        ensures last { slice_get self.new.slots.items (length self.old.slots.items) ≡ Some a }
        ensures long { length self.new.slots.items ≡ length self.old.slots.items + 1 }
        ensures room { vec_capacity self.old.slots ≤ vec_capacity self.new.slots }
    {
        push(&mut self.slots, a);
    }

    /// Slots with 0 at the end, up to this length, for which there is room.
    pub fn grow_to(&mut self, end: usize)
        requires { end ≤ vec_capacity self.old.slots }
        ensures grown { IsGrown self.old self.new }
        ensures long { length self.new.slots.items ≡ max (length self.old.slots.items) end }
        ensures room { vec_capacity self.old.slots ≤ vec_capacity self.new.slots }
    {
        while self.slots.len() < end {
            push(&mut self.slots, Slot::Number(0));
        }
    }
}
