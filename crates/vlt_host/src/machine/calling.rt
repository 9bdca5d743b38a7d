//! A permitted call: its line, the body of its function, and what comes back.

ghost use Rattle.std.specs.Prelude.{◌≡◌, ◌≤◌, ◌<◌, [], vec_capacity};
ghost use Rattle.vlt_heap.specs.Shown.{heap_of};
ghost use Rattle.vlt_interp.specs.Rooms.Rooms.{HoldsLine};
ghost use Rattle.vlt_core.specs.View.{program_of};
ghost use Rattle.vlt_meaning.specs.World.{World};
ghost use Rattle.vlt_steps.specs.Writing.{Outside};
ghost use Rattle.vlt_interp.specs.Running.{IsRunning};
ghost use Rattle.vlt_host_meaning.specs.OneCall.{body_does, end_of_body, host_calls, spent, world_inside};

use crate::machine::called::Supply;
use crate::machine::settling::settle;
use crate::machine::tables::Tables;
use vlt_acts::Host;
use vlt_base::Budgets;
use vlt_core::{Func, Program};
use vlt_host_acts::{Held, HostValue, Hosted, start_called, write_call};
use vlt_host_meaning::HostArg;
use vlt_interp::{At, Rules, Run, Start, Stop, Task, finish};
use vlt_io::Sink;
use vlt_steps::put;

/// A call of a function of the program, within budgets.
#[derive(Clone, Copy)]
pub struct Calling<'a, 'c> {
    pub program: &'a Program,
    pub budgets: Budgets,
    pub func: &'a Func,
    pub args: &'c [HostArg],
}

impl<'a, 'c> Calling<'a, 'c> {
    ghost use Rattle.vlt_host.specs.Machine.Calling.{setup_for, func_in, args_in, rules_for, IsOfProgram, CanBegin, CanMake, ShowsNow};
    ghost use Rattle.vlt_host.specs.Machine.Made.{Announced, Made};

    /// Spends a unit of fuel, writes the line of the call, and tests that the depth allows a frame.
    fn announce<K: Sink>(&self, line: &mut Vec<u8>, fuel: &mut u64, sink: &mut K) -> Option<Stop>
        requires few { IsOfProgram self.now }
        requires line { HoldsLine (program_of self.now.program.now) (vec_capacity line.old) }
        ensures room { vec_capacity line.old ≤ vec_capacity line.new }
        ensures announced { Announced self.now fuel.old
            (record { written = K.written sink.old; faults = K.faults sink.old })
            (record { written = K.written sink.new; faults = K.faults sink.new })
            fuel.new result }
    {
        if *fuel == 0 {
            return Some(Stop::FuelEnd);
        }
        *fuel -= 1;
        match write_call(line, self.func.name.as_slice(), self.args, sink) {
            Err(_) => Some(Stop::SinkFault),
            Ok(()) => {
                if self.budgets.depth == 0 {
                    Some(Stop::DepthEnd)
                } else {
                    None
                }
            }
        }
    }

    /// The run of the body, which begins.
    fn begin<'h>(
        &self,
        start: Start<'a>,
        held: &Held,
        fuel: u64,
        supply: &Supply<'h>,
    ) -> Run<'a, 'h>
        requires can { CanBegin self.now start held.now }
        requires deep { 1 ≤ self.now.budgets.depth }
        ensures heap { heap_of result.heap ≡ self.now.budgets.heap }
        ensures begins { (w : World) → ShowsNow self.now start.entry.heap held.now
            start.entry.values.width fuel supply.now (spent w) → (b : Outside) →
            IsRunning (rules_for self.now)
            (body_does (setup_for self.now) (func_in self.now) (args_in self.now) (spent w))
            (world_inside (func_in self.now) (args_in self.now) (spent w)) b b result }
    {
        let Start {
            mut tasks,
            mut values,
            heap,
            line,
        } = start;
        let hosted = Hosted {
            program: self.program,
            heap: &heap,
            held,
            places: self.budgets.heap,
        };
        start_called(&mut values, &hosted, self.func, self.args);
        put(&mut tasks, Task::List(self.func.body.as_slice()));
        Run {
            func: self.func,
            tasks,
            at: At::Goes,
            depth: 1,
            fuel,
            values,
            heap,
            host: Host {
                input: supply.input,
                answers: supply.answers,
                taken: supply.taken,
                line,
            },
        }
    }

    /// Runs the body, from its beginning to what comes back.
    fn run_body<'h, K: Sink>(
        &self,
        tables: Tables<'a>,
        fuel: &mut u64,
        supply: &mut Supply<'h>,
        sink: &mut K,
    ) -> Result<(Tables<'a>, Option<HostValue>), Stop>
        requires can { CanMake self.now tables }
        requires deep { 1 ≤ self.now.budgets.depth }
        ensures { (w : World) → 0 < w.fuel → ShowsNow self.now tables.entry.start.heap
            tables.entry.held tables.entry.start.values.width fuel.old supply.old (spent w) →
            Made self.now
            (end_of_body [] (body_does (setup_for self.now) (func_in self.now)
            (args_in self.now) (spent w)))
            (record { written = K.written sink.old; faults = K.faults sink.old })
            (record { written = K.written sink.new; faults = K.faults sink.new })
            fuel.new supply.new result }
    {
        let Tables {
            start,
            held,
            result_line,
        } = tables;
        let rules = Rules {
            program: self.program,
            depth: self.budgets.depth,
        };
        let mut run = self.begin(start, &held, *fuel, supply);
        let ended = finish(&rules, &mut run, sink);
        *fuel = run.fuel;
        *supply = Supply {
            input: run.host.input,
            answers: run.host.answers,
            taken: run.host.taken,
        };
        match ended {
            Some(stop) => Err(stop),
            None => settle(self, run, held, result_line, sink),
        }
    }

    /// The whole call. The fuel that is left, and what is left of the supply, is told in them.
    ///
    /// # Errors
    ///
    /// The stop that ends the run.
    pub fn make<K: Sink>(
        &self,
        mut tables: Tables<'a>,
        fuel: &mut u64,
        supply: &mut Supply,
        sink: &mut K,
    ) -> Result<(Tables<'a>, Option<HostValue>), Stop>
        requires can { CanMake self.now tables }
        ensures { (w : World) → ShowsNow self.now tables.entry.start.heap tables.entry.held
            tables.entry.start.values.width fuel.old supply.old w → Made self.now
            (host_calls (setup_for self.now) (func_in self.now) (args_in self.now) w)
            (record { written = K.written sink.old; faults = K.faults sink.old })
            (record { written = K.written sink.new; faults = K.faults sink.new })
            fuel.new supply.new result }
    {
        match self.announce(&mut tables.start.line, fuel, sink) {
            Some(stop) => Err(stop),
            None => self.run_body(tables, fuel, supply, sink),
        }
    }
}
