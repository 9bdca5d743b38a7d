//! What a run begins with.

ghost use Rattle.std.specs.Prelude.{IfOk};
ghost use Rattle.vlt_core.specs.View.{program_of};
ghost use Rattle.vlt_interp.specs.Rooms.Start.{IsSet};

use crate::rooms::parts::{object_slots, value_width};
use crate::rooms::rooms::{line_room, task_room, value_room};
use crate::tasks::Task;
use std::alloc::Global;
use vlt_acts::Values;
use vlt_base::{Budgets, Memory};
use vlt_core::Program;
use vlt_heap::Heap;

/// What a run begins with: tables that suffice for all of it.
#[derive(Drop)]
pub struct Start<'a> {
    pub tasks: Vec<Task<'a>>,
    pub values: Values,
    pub heap: Heap,
    pub line: Vec<u8>,
}

/// What a run of the program begins with.
pub fn prepare<'a>(alloc: Global, p: &'a Program, b: Budgets) -> Result<Start<'a>, Memory>
    ensures { IfOk result (IsSet (program_of p.now) b) }
{
    let Some(width) = value_width(p) else {
        return Err(Memory);
    };
    let Some(cells) = object_slots(p, width) else {
        return Err(Memory);
    };
    let Some(tasks) = task_room(p, b.depth) else {
        return Err(Memory);
    };
    let Some(slots) = value_room(p, b.depth, width) else {
        return Err(Memory);
    };
    let Some(line) = line_room(p) else {
        return Err(Memory);
    };
    Ok(Start {
        tasks: Vec::with_capacity(alloc, tasks)?,
        values: Values::open(alloc, slots, width)?,
        heap: Heap::open(alloc, b.heap, cells)?,
        line: Vec::with_capacity(alloc, line)?,
    })
}
