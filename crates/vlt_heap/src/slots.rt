//! Slots, and tables of them.

ghost use Rattle.std.specs.Prelude.{◌≡◌, ◌≢◌, ◌<◌, ◌≤◌, ◌+◌, ◌++◌, ◌∷◌, [], ℕ, pos, length, max, Some, slice_get, slice_set, vec_capacity};

use vlt_base::TypeId;

/// A live object, by its place. A place is used again once its object is gone.
#[derive(Clone, Copy, Debug, PartialEq, Eq)]
pub struct Obj(pub u32);

/// A number, or an object with its number, counted from 0 in the order in which objects were made. The number tells an
/// object that is gone from the one that has its place now.
#[derive(Clone, Copy, Debug, PartialEq, Eq)]
pub enum Slot {
    Number(i64),
    /// An object that is referred to.
    Object(Obj, u64),
    /// An object that the value owns.
    Owned(Obj, u64),
}

impl Slot {
    /// The object that is referred to, as one that the value owns.
    pub fn packed(self) -> Slot
        ensures { (o : Obj) (n : ℕ) → self ≡ Slot.Object o n → result ≡ Slot.Owned o n }
    {
        match self {
            Slot::Object(o, n) => Slot::Owned(o, n),
            other => other,
        }
    }

    /// The object that the value owns, as one that is referred to.
    pub fn unpacked(self) -> Slot
        ensures { (o : Obj) (n : ℕ) → self ≡ Slot.Owned o n → result ≡ Slot.Object o n }
    {
        match self {
            Slot::Owned(o, n) => Slot::Object(o, n),
            other => other,
        }
    }
}

/// The type and the state of an object, and whether it is with the host.
#[derive(Clone, Copy)]
pub struct Kind {
    pub type_id: TypeId,
    pub state: u8,
    pub is_out: bool,
}

/// A slot.
pub fn at(cells: &Vec<Slot>, k: usize) -> Slot
    requires { k < length cells.now.items }
    ensures { slice_get cells.now.items k ≡ Some result }
{
    cells[k]
}

/// Sets a slot.
pub fn put(cells: &mut Vec<Slot>, at: usize, slot: Slot)
    requires { at < length cells.old.items }
    ensures items { cells.new.items ≡ slice_set cells.old.items at slot }
    ensures room { vec_capacity cells.new ≡ vec_capacity cells.old }
{
    cells[at] = slot;
}

/// One slot more, with 0, for which there is room.
fn push(cells: &mut Vec<Slot>)
    requires { length cells.old.items < vec_capacity cells.old }
    ensures items { cells.new.items ≡ cells.old.items ++ Slot.Number (pos 0) ∷ [] }
    ensures room { vec_capacity cells.old ≤ vec_capacity cells.new }
{
    match cells.push(Slot::Number(0)) {
        Ok(()) => {}
        Err(_) => unreachable!(),
    }
}

/// Slots with 0 at the end, up to this length, for which there is room.
pub fn grow_to(cells: &mut Vec<Slot>, end: usize)
    requires { end ≤ vec_capacity cells.old }
    ensures before { (k : ℕ) → k < length cells.old.items →
        slice_get cells.new.items k ≡ slice_get cells.old.items k }
    ensures long { length cells.new.items ≡ max (length cells.old.items) end }
    ensures room { vec_capacity cells.old ≤ vec_capacity cells.new }
{
    while cells.len() < end {
        push(cells);
    }
}

/// Puts 0 into so many slots from a position on.
pub fn clear(cells: &mut Vec<Slot>, from: usize, count: u32)
    requires { from + count ≤ length cells.old.items }
    ensures inside { (k : ℕ) → from ≤ k → k < from + count →
        slice_get cells.new.items k ≡ Some (Slot.Number (pos 0)) }
    ensures before { (k : ℕ) → k < from →
        slice_get cells.new.items k ≡ slice_get cells.old.items k }
    ensures following { (k : ℕ) → from + count ≤ k →
        slice_get cells.new.items k ≡ slice_get cells.old.items k }
    ensures long { length cells.new.items ≡ length cells.old.items }
    ensures room { vec_capacity cells.new ≡ vec_capacity cells.old }
{
    for done in 0..count {
        put(cells, from + done as usize, Slot::Number(0));
    }
}

/// A kind.
pub fn kind_at(kinds: &Vec<Kind>, c: u32) -> Kind
    requires { c < length kinds.now.items }
    ensures { slice_get kinds.now.items c ≡ Some result }
{
    kinds[c as usize]
}

/// Sets a kind, or puts it at the end, where there is room for it.
pub fn put_kind(kinds: &mut Vec<Kind>, c: u32, kind: Kind)
    requires within { c ≤ length kinds.old.items }
    requires room { c < vec_capacity kinds.old }
    ensures here { slice_get kinds.new.items c ≡ Some kind }
    ensures others { (d : ℕ) → d ≢ c →
        slice_get kinds.new.items d ≡ slice_get kinds.old.items d }
    ensures long { length kinds.new.items ≡ max (length kinds.old.items) (c + 1) }
    ensures room { vec_capacity kinds.old ≤ vec_capacity kinds.new }
{
    let place = c as usize;
    if place < kinds.len() {
        kinds[place] = kind;
    } else {
        match kinds.push(kind) {
            Ok(()) => {}
            Err(_) => unreachable!(),
        }
    }
}
