//! The machine, which runs one program once.

ghost use Rattle.std.specs.Prelude.{◌≡◌, ◌<◌, ◌≤◌, ◌↔◌, None, Some, IfOk, IfNone, IfSome};
ghost use Rattle.vlt_base.specs.Limits.{limit_of};
ghost use Rattle.vlt_base.specs.declared.limits.TheConstants as limits;
ghost use Rattle.vlt_numbers.specs.HostAnswers.{lists_of};
ghost use Rattle.vlt_core.specs.View.{program_of};
ghost use Rattle.vlt_core.specs.Widths.{slots_needed};
ghost use Rattle.vlt_acts.specs.Hosts.Stops.{outcome_of, StopsAs};
ghost use Rattle.vlt_interp.specs.Reached.{IsRunnable};

use crate::rooms::{Start, is_too_wide, prepare};
use crate::run::run_program;
use std::alloc::Global;
use vlt_base::Budgets;
use vlt_core::Program;
use vlt_io::Sink;
use vlt_numbers::Answers;
use vlt_steps::{Ended, OpenError, Stop};

/// A machine for one run of a program.
#[derive(Drop)]
pub struct Machine<'a> {
    program: &'a Program,
    budgets: Budgets,
    /// What the run begins with, until it has begun.
    start: Option<Start<'a>>,
    /// How the run ended.
    stop: Stop,
    /// The fuel that is left.
    fuel: u64,
}

impl<'a> Machine<'a> {
    ghost use Rattle.vlt_interp.specs.Machine.{program_in, budgets_of, run_on, stop_of, fuel_left, IsSound};

    /// A machine that hasn't started to run the program.
    ///
    /// # Errors
    ///
    /// `TooWide` where its frames and objects could have more values than limit 13 allows, and `Memory`.
    pub fn open(alloc: Global, p: &'a Program, b: Budgets) -> Result<Machine<'a>, OpenError>
        requires { IsRunnable (program_of p.now) }
        ensures sound { IfOk result IsSound }
        ensures program { IfOk result (λ m. program_in m ≡ program_of p.now) }
        ensures budgets { IfOk result (λ m. budgets_of m ≡ b) }
        ensures started { IfOk result (λ m. stop_of m ≡ None) }
        ensures too_wide { (result ≡ Err OpenError.TooWide) ↔
            (limit_of limits.VALUE_SLOTS < slots_needed (program_of p.now) b.depth b.heap) }
    {
        if is_too_wide(p, b.depth, b.heap) {
            return Err(OpenError::TooWide);
        }
        Ok(Machine {
            program: p,
            budgets: b,
            start: Some(prepare(alloc, p, b)?),
            stop: Stop::Done,
            fuel: b.fuel,
        })
    }

    /// Runs the program to its end, with one `write` of the sink for each event. A machine that has stopped answers the same
    /// again, and writes nothing.
    pub fn go<K: Sink>(&mut self, input: &[i64], answers: &Answers, sink: &mut K) -> Stop
        requires sound { IsSound self.old }
        ensures sound { IsSound self.new }
        ensures program { program_in self.new ≡ program_in self.old }
        ensures budgets { budgets_of self.new ≡ budgets_of self.old }
        ensures stopped { stop_of self.new ≡ Some result }
        ensures again { IfSome (stop_of self.old) (λ stop. (result ≡ stop) ×
            (sink.new ≡ sink.old)) }
        ensures counted { K.faults sink.old ≤ K.faults sink.new }

        // Of a machine that hadn't stopped before:
        ensures ended { IfNone (stop_of self.old)
            (StopsAs (run_on self.old input.now (lists_of answers.now))
            (record { written = K.written sink.old; faults = K.faults sink.old })
            (record { written = K.written sink.new; faults = K.faults sink.new }) result) }
        ensures fuel { IfNone (stop_of self.old) (IfSome (outcome_of result) (λ o.
            fuel_left self.new ≡ (run_on self.old input.now (lists_of answers.now)).world.fuel)) }
    {
        match self.start.take() {
            Some(start) => {
                let Ended { stop, fuel } = run_program(
                    self.program,
                    self.budgets,
                    start,
                    input,
                    answers,
                    sink,
                );
                self.stop = stop;
                self.fuel = fuel;
                stop
            }
            None => self.stop,
        }
    }
}
