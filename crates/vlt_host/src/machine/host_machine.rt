//! The machine that a host calls.

ghost use Rattle.std.specs.Prelude.{◌≡◌, ◌<◌, ◌≤◌, ◌↔◌, [], List, None, Some, true, IfOk, IfSome, slice_get, map};
ghost use Rattle.std.specs.Option.{option_map};
ghost use Rattle.vlt_base.specs.Limits.{limit_of};
ghost use Rattle.vlt_base.specs.declared.limits.TheConstants as limits;
ghost use Rattle.vlt_core.specs.View.{program_of};
ghost use Rattle.vlt_core.specs.Core.{Func};
ghost use Rattle.vlt_meaning.specs.World.{Object, World};
ghost use Rattle.vlt_host_meaning.specs.Tables.{argument_of};
ghost use Rattle.vlt_host_meaning.specs.HostFrame.{held_objects};
ghost use Rattle.vlt_host_meaning.specs.OneCall.{host_calls};
ghost use Rattle.vlt_host.specs.Machine.Callable.{IsCallable, may_call};
ghost use Rattle.vlt_host_meaning.specs.Widths.{slots_needed_by_host};
ghost use Rattle.vlt_host.specs.declared.machine.called.Called.TheVariants.{Ended};

use crate::machine::called::{Called, Supply};
use crate::machine::calling::Calling;
use crate::machine::tables::Tables;
use std::alloc::Global;
use vlt_base::{Budgets, FnId, TypeId};
use vlt_core::Program;
use vlt_host_acts::{Held, Hosted};
use vlt_host_meaning::HostArg;
use vlt_interp::{OpenError, Stop, is_too_wide_for_host, prepare};
use vlt_io::Sink;

/// The longest line of a result.
const RESULT_LENGTH: usize = 44;

/// A machine that calls functions of a program for a host.
#[derive(Drop)]
pub struct HostMachine<'a> {
    program: &'a Program,
    budgets: Budgets,
    /// What calls go on with, until one of them has ended the run.
    tables: Option<Tables<'a>>,
    /// How the run ended.
    stop: Stop,
    /// The fuel that is left.
    fuel: u64,
}

/// An object that a host holds: its position, from 0 in the order in which objects were made, its state and its type.
#[derive(Clone, Copy, Debug, PartialEq, Eq)]
pub struct HeldObject {
    pub position: u64,
    pub state: u8,
    pub type_id: TypeId,
}

impl<'a> HostMachine<'a> {
    ghost use Rattle.vlt_host.specs.Machine.HostMachine.{program_in, budgets_of, setup_in, stop_of, fuel_left, ShowsObjects, ShowsWorld, IsHosted, seen, seen_of};
    ghost use Rattle.vlt_host.specs.Machine.Called.{stop_in, CallComes};

    /// A machine for a host that holds nothing.
    ///
    /// # Errors
    ///
    /// `TooWide` where its frames and objects could have more values than limit 13 allows, and `Memory`.
    pub fn open(alloc: Global, p: &'a Program, b: Budgets) -> Result<HostMachine<'a>, OpenError>
        requires { IsCallable (program_of p.now) }
        ensures hosted { IfOk result IsHosted }
        ensures program { IfOk result (λ m. program_in m ≡ program_of p.now) }
        ensures budgets { IfOk result (λ m. budgets_of m ≡ b) }
        ensures started { IfOk result (λ m. stop_of m ≡ None) }
        ensures objects { IfOk result (λ m. ShowsObjects m []) }
        ensures fuel { IfOk result (λ m. fuel_left m ≡ b.fuel) }
        ensures too_wide { (result ≡ Err OpenError.TooWide) ↔
            (limit_of limits.VALUE_SLOTS < slots_needed_by_host (program_of p.now) b.depth b.heap) }
    {
        if is_too_wide_for_host(p, b.depth, b.heap) {
            return Err(OpenError::TooWide);
        }
        let tables = Tables {
            start: prepare(alloc, p, b)?,
            held: Held::open(alloc, b.heap)?,
            result_line: Vec::with_capacity(alloc, RESULT_LENGTH)?,
        };
        Ok(HostMachine {
            program: p,
            budgets: b,
            tables: Some(tables),
            stop: Stop::Done,
            fuel: b.fuel,
        })
    }

    /// Whether a host may call the function of this number with these arguments now.
    pub fn permitted(&self, f: FnId, args: &[HostArg]) -> bool
        requires hosted { IsHosted self.now }
        ensures { (objects : List Object) → ShowsObjects self.now objects →
            result ≡ may_call (program_in self.now) f.0 (map argument_of args.now) objects }
    {
        match &self.tables {
            None => false,
            Some(tables) => match self.program.fns.get(f.0 as usize) {
                None => false,
                Some(func) => self.hosted(tables).permits_call(f, func, args),
            },
        }
    }

    /// The object at an index of those that the host holds, in ascending order of their numbers, if it holds so many.
    pub fn held(&self, i: u32) -> Option<HeldObject>
        requires hosted { IsHosted self.now }
        ensures { (objects : List Object) → ShowsObjects self.now objects →
            option_map seen result ≡ option_map seen_of (slice_get (held_objects objects) i) }
    {
        match &self.tables {
            None => None,
            Some(tables) => {
                let (position, _) = tables.held.get(i)?;
                let hosted = self.hosted(tables);
                let object = hosted.find(position)?;
                Some(HeldObject {
                    position,
                    state: hosted.heap.state(object),
                    type_id: hosted.heap.type_of(object),
                })
            }
        }
    }

    /// Calls the function of this number, which a host may call with these arguments now. The line of the call, the function's
    /// events and the line of its result are written to the sink. What it takes of the input and the answers is gone from the
    /// supply. A machine that has ended answers the same stop again, and writes nothing.
    pub fn call<K: Sink>(
        &mut self,
        f: FnId,
        args: &[HostArg],
        supply: &mut Supply,
        sink: &mut K,
    ) -> Called
        requires hosted { IsHosted self.old }
        requires permitted { (objects : List Object) → ShowsObjects self.old objects →
            may_call (program_in self.old) f.0 (map argument_of args.now) objects ≡ true }
        ensures hosted { IsHosted self.new }
        ensures program { program_in self.new ≡ program_in self.old }
        ensures budgets { budgets_of self.new ≡ budgets_of self.old }
        ensures stopped { stop_of self.new ≡ stop_in result }
        ensures again { IfSome (stop_of self.old) (λ stop. (result ≡ Ended stop) ×
            (sink.new ≡ sink.old)) }
        ensures counted { K.faults sink.old ≤ K.faults sink.new }
        ensures comes { (w : World) (g : Func) → ShowsWorld self.old supply.old w →
            slice_get (program_in self.old).fns f.0 ≡ Some g →
            CallComes (host_calls (setup_in self.old) g (map argument_of args.now) w)
            (record { written = K.written sink.old; faults = K.faults sink.old })
            (record { written = K.written sink.new; faults = K.faults sink.new })
            self.new supply.new result }
    {
        let Some(tables) = self.tables.take() else {
            return Called::Ended(self.stop);
        };
        let Some(func) = self.program.fns.get(f.0 as usize) else {
            unreachable!();
        };
        let calling = Calling {
            program: self.program,
            budgets: self.budgets,
            func,
            args,
        };
        match calling.make(tables, &mut self.fuel, supply, sink) {
            Ok((tables, value)) => {
                self.tables = Some(tables);
                Called::Back(value)
            }
            Err(stop) => {
                self.stop = stop;
                Called::Ended(stop)
            }
        }
    }

    /// What calls are tested over.
    fn hosted<'m>(&'m self, tables: &'m Tables<'a>) -> Hosted<'m>
        ensures program { result.program.now ≡ self.now.program.now }
        ensures heap { result.heap.now ≡ tables.now.start.heap }
        ensures held { result.held.now ≡ tables.now.held }
        ensures places { result.places ≡ self.now.budgets.heap }
    {
        Hosted {
            program: self.program,
            heap: &tables.start.heap,
            held: &tables.held,
            places: self.budgets.heap,
        }
    }
}
