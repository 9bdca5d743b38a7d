//! References, cells, and tables of them.

ghost use Rattle.std.specs.Prelude.{◌≡◌, ◌≢◌, ◌<◌, ◌≤◌, ◌+◌, ◌++◌, ◌∷◌, [], ℕ, length, max, Some, slice_get, slice_set, vec_capacity};

/// A block, by its place and its number, counted from 0 in the order in which blocks were made. A place is used again
/// once its block is dead, so the number tells a stale reference.
#[derive(Clone, Copy, Debug, PartialEq, Eq)]
pub struct Ref {
    pub place: u32,
    pub number: u64,
}

/// A cell. A null reference goes to no block.
#[derive(Clone, Copy)]
pub enum Cell {
    Unset,
    Number(i64),
    Reference(Option<Ref>),
}

/// How many cells of each sort a block has, the numbers first, and whether it is with the host.
#[derive(Clone, Copy)]
pub struct Shape {
    pub numbers: u32,
    pub references: u32,
    pub is_out: bool,
}

/// A cell.
pub fn at(cells: &Vec<Cell>, k: usize) -> Cell
    requires { k < length cells.now.items }
    ensures { slice_get cells.now.items k ≡ Some result }
{
    cells[k]
}

/// Sets a cell.
pub fn put(cells: &mut Vec<Cell>, at: usize, cell: Cell)
    requires { at < length cells.old.items }
    ensures items { cells.new.items ≡ slice_set cells.old.items at cell }
    ensures room { vec_capacity cells.new ≡ vec_capacity cells.old }
{
    cells[at] = cell;
}

/// One cell more, unset, for which there is room.
fn push(cells: &mut Vec<Cell>)
    requires { length cells.old.items < vec_capacity cells.old }
    ensures items { cells.new.items ≡ cells.old.items ++ Cell.Unset ∷ [] }
    ensures room { vec_capacity cells.old ≤ vec_capacity cells.new }
{
    match cells.push(Cell::Unset) {
        Ok(()) => {}
        Err(_) => unreachable!(),
    }
}

/// Unset cells at the end, up to this length, for which there is room.
pub fn grow_to(cells: &mut Vec<Cell>, end: usize)
    requires { end ≤ vec_capacity cells.old }
    ensures before { (k : ℕ) → k < length cells.old.items →
        slice_get cells.new.items k ≡ slice_get cells.old.items k }
    ensures added { (k : ℕ) → length cells.old.items ≤ k → k < length cells.new.items →
        slice_get cells.new.items k ≡ Some Cell.Unset }
    ensures long { length cells.new.items ≡ max (length cells.old.items) end }
    ensures room { vec_capacity cells.old ≤ vec_capacity cells.new }
{
    while cells.len() < end {
        push(cells);
    }
}

/// Unsets so many cells from a position on.
pub fn clear(cells: &mut Vec<Cell>, from: usize, count: u32)
    requires { from + count ≤ length cells.old.items }
    ensures inside { (k : ℕ) → from ≤ k → k < from + count →
        slice_get cells.new.items k ≡ Some Cell.Unset }
    ensures before { (k : ℕ) → k < from → slice_get cells.new.items k
        ≡ slice_get cells.old.items k }
    ensures following { (k : ℕ) → from + count ≤ k →
        slice_get cells.new.items k ≡ slice_get cells.old.items k }
    ensures long { length cells.new.items ≡ length cells.old.items }
    ensures room { vec_capacity cells.new ≡ vec_capacity cells.old }
{
    for done in 0..count {
        put(cells, from + done as usize, Cell::Unset);
    }
}

/// Sets a shape, or puts it at the end, where there is room for it.
pub fn put_shape(shapes: &mut Vec<Shape>, c: u32, shape: Shape)
    requires within { c ≤ length shapes.old.items }
    requires room { c < vec_capacity shapes.old }
    ensures here { slice_get shapes.new.items c ≡ Some shape }
    ensures others { (d : ℕ) → d ≢ c → slice_get shapes.new.items d
        ≡ slice_get shapes.old.items d }
    ensures long { length shapes.new.items ≡ max (length shapes.old.items) (c + 1) }
    ensures room { vec_capacity shapes.old ≤ vec_capacity shapes.new }
{
    let place = c as usize;
    if place < shapes.len() {
        shapes[place] = shape;
    } else {
        match shapes.push(shape) {
            Ok(()) => {}
            Err(_) => unreachable!(),
        }
    }
}
