//! Blocks.

ghost use Rattle.std.specs.Prelude.{◌≡◌, ◌≢◌, ◌<◌, ◌≤◌, ◌+◌, ◌*◌, ◌++◌, ◌∷◌, [], ℕ, length, true, false, Some, None, IfOk, IfSome, IfNone, OnErr};
ghost use Rattle.vlt_rings.specs.Places.{IsSettled};
ghost use Rattle.vlt_rings.specs.Things.{Thing, Things, IsAt, IsLiveAt};
ghost use Rattle.vlt_rings.specs.Things as rings;
ghost use Rattle.c_meaning.specs.Blocks.{is_there, is_free, blocks_after_own, blocks_after_disown, parent_of, blocks_after_release, gone_out, come_back, read_number, read_reference, write_number, write_reference};

use crate::cells::{Cell, Ref, Shape, at, clear, grow_to, put, put_shape};
use c_syntax::rules::{DEAD_BLOCK, MISUSED, NO_CELL};
use std::alloc::Global;
use vlt_base::{HeapEnd, Memory};
use vlt_rings::Places;

/// Blocks of cells.
#[derive(Drop)]
pub struct Blocks {
    places: Places,
    shapes: Vec<Shape>,
    cells: Vec<Cell>,
    width: u32,
}

/// How many blocks are made at most.
const MAX_MADE: u64 = 9_223_372_036_854_775_807;

/// Whether a block has a parent.
fn is_child(places: &Places, c: u32) -> bool
    requires settled { IsSettled places.now }
    requires live { IsLiveAt places.now c }
    ensures { (ts : Things) (n : ℕ) (t : Thing) → rings.Holds places.now ts → IsAt ts n t →
        t.place ≡ c → result ≡ is_there t.parent }
{
    places.parent_of(c).is_some()
}

impl Blocks {
    ghost use Rattle.c_memory.specs.Shown.{IsSound, IsFresh, number_of, heap_of, cells_of, Holds, blocks_of, shape_at, IsMade, Did, DidBack, IsNewOrFull, IsRead, IsParent, IsFound, IsFoundIf, IsOutSet, is_root, is_here, is_out};

    /// The place of a live block; none for null and for a dead one.
    fn find(&self, p: Option<Ref>) -> Option<u32>
        ensures live { IfSome result (λ c. IsLiveAt self.now.places c) }
        ensures things { (ts : Things) → Holds self.now ts → IsMade ts p →
            IsFound self.now ts p result }
    {
        match p {
            Some(r) => {
                if self.places.is_held(r.place, r.number) {
                    Some(r.place)
                } else {
                    None
                }
            }
            None => None,
        }
    }

    /// The shape of a place.
    fn shape(&self, c: u32) -> Shape
        requires sound { IsSound self.now }
        requires live { IsLiveAt self.now.places c }
        ensures { result ≡ shape_at self.now.shapes.items c }
    {
        self.shapes[c as usize]
    }

    /// No blocks, and room for `budget` live ones of at most so many cells each.
    pub fn open(alloc: Global, budget: u32, cells: u32) -> Result<Blocks, Memory>
        ensures fresh { IfOk result IsFresh }
        ensures sound { IfOk result IsSound }
        ensures none { IfOk result (λ b. Holds b []) }
        ensures heap { IfOk result (λ b. heap_of b ≡ budget) }
        ensures cells { IfOk result (λ b. cells_of b ≡ cells) }
    {
        // A table of more places than this would not fit any memory.
        if budget >= 1 << 30 {
            return Err(Memory);
        }
        Ok(Blocks {
            places: Places::open(alloc, budget)?,
            shapes: Vec::with_capacity(alloc, budget as usize)?,
            cells: Vec::with_capacity(alloc, budget as usize * cells as usize)?,
            width: cells,
        })
    }

    /// A new block with so many number cells and so many reference cells, all unset.
    ///
    /// # Errors
    ///
    /// `HeapEnd` where as many blocks are live as the budget allows.
    pub fn make(&mut self, numbers: u32, references: u32) -> Result<Ref, HeapEnd>
        requires sound { IsSound self.old }
        requires within { numbers + references ≤ cells_of self.old }
        ensures did { (ts : Things) → Holds self.old ts →
            IsNewOrFull ts result numbers references self.old self.new }
        ensures same { OnErr result (self.new ≡ self.old) }
        ensures heap { heap_of self.new ≡ heap_of self.old }
        ensures cells { cells_of self.new ≡ cells_of self.old }
        ensures sound { IsSound self.new }
    {
        let number = self.places.made();
        if number >= MAX_MADE {
            return Err(HeapEnd);
        }
        let Some(place) = self.places.make() else {
            return Err(HeapEnd);
        };
        let shape = Shape {
            numbers,
            references,
            is_out: false,
        };
        put_shape(&mut self.shapes, place, shape);
        let from = place as usize * self.width as usize;
        grow_to(&mut self.cells, from + self.width as usize);
        clear(&mut self.cells, from, numbers + references);
        Ok(Ref { place, number })
    }

    /// The position of a number cell of a place.
    fn number_cell(&self, c: u32, i: u64) -> Option<usize>
        requires sound { IsSound self.now }
        requires live { IsLiveAt self.now.places c }
        ensures some { IfSome result (λ k. (i < (shape_at self.now.shapes.items c).numbers) ×
            (k ≡ c * cells_of self.now + i) × (k < length self.now.cells.items)) }
        ensures none { IfNone result ((shape_at self.now.shapes.items c).numbers ≤ i) }
    {
        if i < u64::from(self.shape(c).numbers) {
            Some(c as usize * self.width as usize + i as usize)
        } else {
            None
        }
    }

    /// The position of a reference cell of a place.
    fn reference_cell(&self, c: u32, i: u64) -> Option<usize>
        requires sound { IsSound self.now }
        requires live { IsLiveAt self.now.places c }
        ensures some { IfSome result (λ k. (i < (shape_at self.now.shapes.items c).references)
            × (k ≡ c * cells_of self.now + (shape_at self.now.shapes.items c).numbers + i)
            × (k < length self.now.cells.items)) }
        ensures none { IfNone result ((shape_at self.now.shapes.items c).references ≤ i) }
    {
        let shape = self.shape(c);
        if i < u64::from(shape.references) {
            Some(c as usize * self.width as usize + shape.numbers as usize + i as usize)
        } else {
            None
        }
    }

    /// The value of a number cell.
    ///
    /// # Errors
    ///
    /// 1 for a null or dead block; 2 for a cell that it hasn't or that is unset.
    pub fn read_n(&self, p: Option<Ref>, i: u64) -> Result<i64, u8>
        requires sound { IsSound self.now }
        ensures { (ts : Things) → Holds self.now ts → IsMade ts p →
            result ≡ read_number (blocks_of self.now ts) (number_of p) i }
    {
        let Some(c) = self.find(p) else {
            return Err(DEAD_BLOCK);
        };
        let Some(k) = self.number_cell(c, i) else {
            return Err(NO_CELL);
        };
        match at(&self.cells, k) {
            Cell::Number(z) => Ok(z),
            _ => Err(NO_CELL),
        }
    }

    /// Sets a number cell.
    ///
    /// # Errors
    ///
    /// 1 for a null or dead block; 2 for a cell that it hasn't.
    pub fn write_n(&mut self, p: Option<Ref>, i: u64, v: i64) -> Result<(), u8>
        requires sound { IsSound self.old }
        ensures did { (ts : Things) → Holds self.old ts → IsMade ts p →
            Did ts result (write_number (blocks_of self.old ts) (number_of p) i v) self.new }
        ensures same { OnErr result (self.new ≡ self.old) }
        ensures heap { heap_of self.new ≡ heap_of self.old }
        ensures cells { cells_of self.new ≡ cells_of self.old }
        ensures sound { IsSound self.new }
    {
        let Some(c) = self.find(p) else {
            return Err(DEAD_BLOCK);
        };
        let Some(k) = self.number_cell(c, i) else {
            return Err(NO_CELL);
        };
        put(&mut self.cells, k, Cell::Number(v));
        Ok(())
    }

    /// The value of a reference cell.
    ///
    /// # Errors
    ///
    /// 1 for a null or dead block; 2 for a cell that it hasn't or that is unset.
    pub fn read_r(&self, p: Option<Ref>, i: u64) -> Result<Option<Ref>, u8>
        requires sound { IsSound self.now }
        ensures { (ts : Things) → Holds self.now ts → IsMade ts p →
            IsRead ts result (read_reference (blocks_of self.now ts) (number_of p) i) }
    {
        let Some(c) = self.find(p) else {
            return Err(DEAD_BLOCK);
        };
        let Some(k) = self.reference_cell(c, i) else {
            return Err(NO_CELL);
        };
        match at(&self.cells, k) {
            Cell::Reference(r) => Ok(r),
            _ => Err(NO_CELL),
        }
    }

    /// Sets a reference cell.
    ///
    /// # Errors
    ///
    /// 1 for a null or dead block; 2 for a cell that it hasn't.
    pub fn write_r(&mut self, p: Option<Ref>, i: u64, v: Option<Ref>) -> Result<(), u8>
        requires sound { IsSound self.old }
        ensures did { (ts : Things) → Holds self.old ts → IsMade ts p → IsMade ts v
            → Did ts result (write_reference (blocks_of self.old ts) (number_of p) i
            (number_of v)) self.new }
        ensures same { OnErr result (self.new ≡ self.old) }
        ensures heap { heap_of self.new ≡ heap_of self.old }
        ensures cells { cells_of self.new ≡ cells_of self.old }
        ensures sound { IsSound self.new }
    {
        let Some(c) = self.find(p) else {
            return Err(DEAD_BLOCK);
        };
        let Some(k) = self.reference_cell(c, i) else {
            return Err(NO_CELL);
        };
        put(&mut self.cells, k, Cell::Reference(v));
        Ok(())
    }

    /// The place of a live block that isn't out and has no parent.
    fn find_free(&self, p: Option<Ref>) -> Option<u32>
        requires sound { IsSound self.now }
        ensures live { IfSome result (λ c. IsLiveAt self.now.places c) }
        ensures things { (ts : Things) → Holds self.now ts → IsMade ts p →
            IsFoundIf is_free self.now ts p result }
    {
        let c = self.find(p)?;
        if self.shape(c).is_out || is_child(&self.places, c) {
            None
        } else {
            Some(c)
        }
    }

    /// The place of a live block that has no parent.
    fn find_root(&self, p: Option<Ref>) -> Option<u32>
        requires sound { IsSound self.now }
        ensures live { IfSome result (λ c. IsLiveAt self.now.places c) }
        ensures things { (ts : Things) → Holds self.now ts → IsMade ts p →
            IsFoundIf is_root self.now ts p result }
    {
        let c = self.find(p)?;
        if is_child(&self.places, c) {
            None
        } else {
            Some(c)
        }
    }

    /// The place of a live block that isn't out.
    fn find_here(&self, p: Option<Ref>) -> Option<u32>
        requires sound { IsSound self.now }
        ensures live { IfSome result (λ c. IsLiveAt self.now.places c) }
        ensures things { (ts : Things) → Holds self.now ts → IsMade ts p →
            IsFoundIf is_here self.now ts p result }
    {
        let c = self.find(p)?;
        if self.shape(c).is_out { None } else { Some(c) }
    }

    /// The place of a live block that is out.
    fn find_out(&self, p: Option<Ref>) -> Option<u32>
        requires sound { IsSound self.now }
        ensures live { IfSome result (λ c. IsLiveAt self.now.places c) }
        ensures things { (ts : Things) → Holds self.now ts → IsMade ts p →
            IsFoundIf is_out self.now ts p result }
    {
        let c = self.find(p)?;
        if self.shape(c).is_out { Some(c) } else { None }
    }

    /// Gives a child its parent; nothing for a null child.
    ///
    /// # Errors
    ///
    /// 8 for a child that is dead, is out or has a parent, and under a parent that is null, is dead, is the child or has a
    /// parent.
    pub fn own(&mut self, child: Option<Ref>, parent: Option<Ref>) -> Result<(), u8>
        requires sound { IsSound self.old }
        ensures did { (ts : Things) → Holds self.old ts → IsMade ts child → IsMade ts parent
            → Did ts result (blocks_after_own (blocks_of self.old ts) (number_of child)
            (number_of parent)) self.new }
        ensures same { OnErr result (self.new ≡ self.old) }
        ensures heap { heap_of self.new ≡ heap_of self.old }
        ensures cells { cells_of self.new ≡ cells_of self.old }
        ensures sound { IsSound self.new }
    {
        if child.is_none() {
            return Ok(());
        }
        let Some(c) = self.find_free(child) else {
            return Err(MISUSED);
        };
        let Some(q) = self.find_root(parent) else {
            return Err(MISUSED);
        };
        if c == q {
            return Err(MISUSED);
        }
        self.places.own(c, q);
        Ok(())
    }

    /// Takes a child's parent away; nothing for null.
    ///
    /// # Errors
    ///
    /// 8 for a dead child.
    pub fn disown(&mut self, child: Option<Ref>) -> Result<(), u8>
        requires sound { IsSound self.old }
        ensures did { (ts : Things) → Holds self.old ts → IsMade ts child →
            Did ts result (blocks_after_disown (blocks_of self.old ts) (number_of child)) self.new }
        ensures same { OnErr result (self.new ≡ self.old) }
        ensures heap { heap_of self.new ≡ heap_of self.old }
        ensures cells { cells_of self.new ≡ cells_of self.old }
        ensures sound { IsSound self.new }
    {
        if child.is_none() {
            return Ok(());
        }
        let Some(c) = self.find(child) else {
            return Err(MISUSED);
        };
        self.places.disown(c);
        Ok(())
    }

    /// A child's parent.
    ///
    /// # Errors
    ///
    /// 8 for a block that is null, is dead or has no parent.
    pub fn parent(&self, child: Option<Ref>) -> Result<Ref, u8>
        requires sound { IsSound self.now }
        ensures { (ts : Things) → Holds self.now ts → IsMade ts child →
            IsParent ts result (parent_of (blocks_of self.now ts) (number_of child)) }
    {
        let Some(c) = self.find(child) else {
            return Err(MISUSED);
        };
        match self.places.parent_of(c) {
            Some((place, number)) => Ok(Ref { place, number }),
            None => Err(MISUSED),
        }
    }

    /// Ends a block and all below it; nothing for null.
    ///
    /// # Errors
    ///
    /// 8 for a dead block and for one that is out.
    pub fn release(&mut self, p: Option<Ref>) -> Result<(), u8>
        requires sound { IsSound self.old }
        ensures did { (ts : Things) → Holds self.old ts → IsMade ts p →
            Did ts result (blocks_after_release (blocks_of self.old ts) (number_of p)) self.new }
        ensures same { OnErr result (self.new ≡ self.old) }
        ensures heap { heap_of self.new ≡ heap_of self.old }
        ensures cells { cells_of self.new ≡ cells_of self.old }
        ensures sound { IsSound self.new }
    {
        if p.is_none() {
            return Ok(());
        }
        let Some(c) = self.find_here(p) else {
            return Err(MISUSED);
        };
        self.places.release(c);
        Ok(())
    }

    /// Marks a place as one whose block is out, or not.
    fn set_out(&mut self, c: u32, is_out: bool)
        requires sound { IsSound self.old }
        requires live { IsLiveAt self.old.places c }
        ensures { IsOutSet c is_out self.old self.new }
    {
        self.shapes[c as usize].is_out = is_out;
    }

    /// What `out` does.
    fn send_out(&mut self, p: Option<Ref>) -> Result<(), u8>
        requires sound { IsSound self.old }
        ensures did { (ts : Things) → Holds self.old ts → IsMade ts p →
            Did ts result (gone_out (blocks_of self.old ts) (number_of p)) self.new }
        ensures same { OnErr result (self.new ≡ self.old) }
        ensures heap { heap_of self.new ≡ heap_of self.old }
        ensures cells { cells_of self.new ≡ cells_of self.old }
        ensures sound { IsSound self.new }
    {
        let Some(c) = self.find_free(p) else {
            return Err(MISUSED);
        };
        self.set_out(c, true);
        Ok(())
    }

    /// Sends a block out.
    ///
    /// # Errors
    ///
    /// 8 for a block that is null, is dead, is out or has a parent.
    pub fn out(&mut self, p: Option<Ref>) -> Result<(), u8>
        requires sound { IsSound self.old }
        ensures did { (ts : Things) → Holds self.old ts → IsMade ts p →
            Did ts result (gone_out (blocks_of self.old ts) (number_of p)) self.new }
        ensures same { OnErr result (self.new ≡ self.old) }
        ensures heap { heap_of self.new ≡ heap_of self.old }
        ensures cells { cells_of self.new ≡ cells_of self.old }
        ensures sound { IsSound self.new }
    {
        self.send_out(p)
    }

    /// Takes a block back; false where it isn't out.
    ///
    /// # Errors
    ///
    /// 8 for null.
    pub fn back(&mut self, p: Option<Ref>) -> Result<bool, u8>
        requires sound { IsSound self.old }
        ensures did { (ts : Things) → Holds self.old ts → IsMade ts p →
            DidBack ts result (come_back (blocks_of self.old ts) (number_of p)) self.old
            self.new }
        ensures same { OnErr result (self.new ≡ self.old) }
        ensures heap { heap_of self.new ≡ heap_of self.old }
        ensures cells { cells_of self.new ≡ cells_of self.old }
        ensures sound { IsSound self.new }
    {
        if p.is_none() {
            return Err(MISUSED);
        }
        let Some(c) = self.find_out(p) else {
            return Ok(false);
        };
        self.set_out(c, false);
        Ok(true)
    }
}
