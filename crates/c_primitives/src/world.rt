//! What a run works on.

ghost use Rattle.std.specs.Prelude.{◌≡◌, IfOk, None, replicate};

use c_memory::{Blocks, Ref};
use std::alloc::Global;
use vlt_base::Memory;
use vlt_numbers::Answers;

/// How many number registers there are.
pub const NUMBERS: usize = 8;

/// How many reference registers there are.
pub const REFERENCES: usize = 16;

/// How many bytes the line of an event can have beside the name of the external.
const LINE: usize = 674;

/// The tables of a run.
#[derive(Drop)]
pub struct Tables {
    pub blocks: Blocks,
    pub heap: u32,
    pub numbers: Vec<Option<i64>>,
    pub references: Vec<Option<Option<Ref>>>,
    pub line: Vec<u8>,
}

/// Where the calls to the host stand: none is under way, one gets its arguments, of which it has so many, or the rest of an
/// answer is read.
#[derive(Clone, Copy)]
pub enum Talk<'h> {
    Idle,
    Calling(u32),
    Reading(&'h [i64]),
}

/// The world of a run: its blocks and registers, its fuel, what is left of its input and of its answers, and the line of the
/// call that gets its arguments.
#[derive(Drop)]
pub struct World<'h> {
    pub blocks: Blocks,
    /// How many blocks may be live.
    pub heap: u32,
    pub numbers: Vec<Option<i64>>,
    pub references: Vec<Option<Option<Ref>>>,
    pub fuel: u64,
    pub input: &'h [i64],
    pub answers: &'h Answers,
    /// How many answers were taken.
    pub taken: u32,
    pub talk: Talk<'h>,
    pub line: Vec<u8>,
}

/// So many registers, unset.
fn unset<T: Copy + Drop>(alloc: Global, count: usize) -> Result<Vec<Option<T>>, Memory>
    ensures { IfOk result (λ v. v.items ≡ replicate count None) }
{
    let mut registers = Vec::new(alloc);
    for done in 0..count {
        let _ = done;
        registers.push(None)?;
    }
    Ok(registers)
}

impl Tables {
    ghost use Rattle.c_primitives.specs.Start.{AreOpen};

    /// Tables for so many blocks of so many cells, and for names of that length.
    pub fn open(alloc: Global, heap: u32, cells: u32, name: usize) -> Result<Tables, Memory>
        ensures { IfOk result (λ t. AreOpen heap cells name t) }
    {
        let Some(line) = name.checked_add(LINE) else {
            return Err(Memory);
        };
        Ok(Tables {
            blocks: Blocks::open(alloc, heap, cells)?,
            heap,
            numbers: unset(alloc, NUMBERS)?,
            references: unset(alloc, REFERENCES)?,
            line: Vec::with_capacity(alloc, line)?,
        })
    }
}

impl<'h> World<'h> {
    ghost use Rattle.c_primitives.specs.Start.{AreNew, IsFirst};

    /// The world at the start of a run.
    pub fn new(tables: Tables, fuel: u64, input: &'h [i64], answers: &'h Answers) -> World<'h>
        requires { AreNew tables }
        ensures { IsFirst tables fuel input.now answers.now result }
    {
        World {
            blocks: tables.blocks,
            heap: tables.heap,
            numbers: tables.numbers,
            references: tables.references,
            fuel,
            input,
            answers,
            taken: 0,
            talk: Talk::Idle,
            line: tables.line,
        }
    }
}
