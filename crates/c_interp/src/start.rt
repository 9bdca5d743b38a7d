//! The start of a run.

ghost use Rattle.std.specs.Prelude.{◌≡◌, ◌≤◌, ◌+◌, ◌*◌, IfOk, IfSome};
ghost use Rattle.vlt_numbers.specs.HostAnswers.{lists_of};
ghost use Rattle.c_syntax.specs.View.{program_of};
ghost use Rattle.c_meaning.specs.Run.{c_run};
ghost use Rattle.c_meaning.specs.Widths as widths;
ghost use Rattle.c_machine.specs.Bounds.{tall_of};
ghost use Rattle.c_machine.specs.Machine.{IsRunnable};
ghost use Rattle.c_interp.specs.Start.{IsStart, IsSet, EndsAs};

use crate::rules::{Rules, rules_of};
use crate::run::run;
use crate::stop::CStop;
use crate::task::Task;
use c_machine::{block_cells, longest_name, tall, value_slots};
use c_primitives::{Tables, World};
use c_syntax::CProgram;
use c_syntax::rules::NO_VALUE;
use c_values::Value;
use std::alloc::Global;
use vlt_base::{Budgets, Memory};
use vlt_io::Sink;
use vlt_numbers::Answers;
use vlt_steps::{Ended, Stop};

/// What a run begins with.
#[derive(Drop)]
pub struct Start<'a> {
    pub rules: Rules<'a>,
    pub tables: Tables,
    pub tasks: Vec<Task<'a>>,
    pub values: Vec<Option<Value>>,
}

/// How many cells a block can have.
fn cell_room(heap: u32, c: &CProgram) -> Option<u32>
    ensures { IfSome result (λ n. 1 ≤ heap → widths.block_cells (program_of c.now) ≤ n) }
{
    if heap == 0 {
        return Some(0);
    }
    u32::try_from(block_cells(c)).ok()
}

/// How many values all frames can have, and one more.
fn value_room(depth: u32, c: &CProgram) -> Option<usize>
    ensures { IfSome result (λ n. (depth + 1) * widths.value_slots (program_of c.now) ≤ n) }
{
    let all = (u128::from(depth) + 1).checked_mul(value_slots(c))?;
    usize::try_from(all).ok()
}

/// How many tasks there can be.
fn task_room(depth: u32, c: &CProgram) -> Option<usize>
    ensures { IfSome result (λ n. 2 * depth * (tall_of (program_of c.now) + 1) + 2 ≤ n) }
{
    let tall = u128::from(tall(c)?) + 1;
    let all = (2 * u128::from(depth)).checked_mul(tall)?;
    usize::try_from(all.checked_add(2)?).ok()
}

/// What a run of the program begins with.
pub fn prepare<'a>(alloc: Global, c: &'a CProgram, b: Budgets) -> Result<Start<'a>, Memory>
    ensures { IfOk result (λ s. IsStart c.now b s) }
{
    let rules = rules_of(alloc, c, b.depth, b.heap)?;
    let Some(cells) = cell_room(b.heap, c) else {
        return Err(Memory);
    };
    let Some(tasks) = task_room(b.depth, c) else {
        return Err(Memory);
    };
    let Some(values) = value_room(b.depth, c) else {
        return Err(Memory);
    };
    Ok(Start {
        rules,
        tables: Tables::open(alloc, b.heap, cells, longest_name(c))?,
        tasks: Vec::with_capacity(alloc, tasks)?,
        values: Vec::with_capacity(alloc, values)?,
    })
}

/// Runs a program from its start.
pub fn run_program<K: Sink>(
    s: Start,
    fuel: u64,
    input: &[i64],
    answers: &Answers,
    sink: &mut K,
) -> Ended<CStop>
    requires set { IsSet s }
    requires runnable { IsRunnable (program_of s.rules.program.now) }
    ensures { EndsAs (c_run (program_of s.entry.rules.program.now) fuel s.entry.rules.heap
        s.entry.rules.depth input.now (lists_of answers.now))
        (record { written = K.written sink.old; faults = K.faults sink.old })
        (record { written = K.written sink.new; faults = K.faults sink.new }) result }
{
    let Start {
        rules,
        tables,
        mut tasks,
        values,
    } = s;
    let Some(main) = rules.main() else {
        return Ended {
            stop: CStop::Undefined {
                rule: NO_VALUE,
                statement: rules.count,
            },
            fuel,
        };
    };
    if rules.depth == 0 {
        return Ended {
            stop: CStop::Stopped(Stop::DepthEnd),
            fuel,
        };
    }
    let mut world = World::new(tables, fuel, input, answers);
    let stop = run(&rules, main, &mut tasks, values, &mut world, sink);
    Ended {
        stop,
        fuel: world.fuel,
    }
}
