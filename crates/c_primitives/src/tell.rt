//! The primitives that write: printing, and the call of an external.

ghost use Rattle.std.specs.Prelude.{◌≡◌, map};
ghost use Rattle.c_syntax.specs.View.{arg_of};
ghost use Rattle.c_meaning.specs.Primitives.{primitive_does};
ghost use Rattle.c_primitives.specs.Done.{told_of};

use crate::args::{is_none, one_number, one_reference, one_text};
use crate::halt::Halt;
use crate::world::{Talk, World};
use c_syntax::rules::MISUSED;
use c_syntax::{CArg, CPrim};
use c_values::{Value, Vars};
use vlt_io::Sink;
use vlt_steps::lines::end;
use vlt_steps::{Stop, begin, tell_number, tell_object, write_number};

/// How many arguments a call has at most.
const MAX_TOLD: u32 = 16;

/// How many arguments the call has that gets its arguments.
fn told_so_far(talk: Talk) -> Option<u32>
    ensures { result ≡ told_of talk.entry }
{
    match talk {
        Talk::Calling(told) => Some(told),
        Talk::Idle => None,
        Talk::Reading(_) => None,
    }
}

impl World<'_> {
    ghost use Rattle.c_primitives.specs.Shown.{IsReady, HasRoomFor, Does, DoesSilently};
    ghost use Rattle.c_primitives.specs.Taking.{IsTaken};

    /// Prints a number.
    pub fn print<K: Sink>(
        &mut self,
        args: &[CArg],
        vars: Vars,
        sink: &mut K,
    ) -> Result<Option<Value>, Halt>
        requires ready { IsReady self.old }
        ensures { Does self.old self.new vars.entry
            (record { written = K.written sink.old; faults = K.faults sink.old })
            (record { written = K.written sink.new; faults = K.faults sink.new }) result
            (primitive_does self.old.heap CPrim.Print (map arg_of args.now)) }
    {
        match one_number(args, vars) {
            Ok(z) => match write_number(sink, z) {
                Ok(()) => Ok(None),
                Err(_) => Err(Halt::Stopped(Stop::SinkFault)),
            },
            Err(rule) => Err(Halt::Broken(rule)),
        }
    }

    /// Begins the call of an external.
    pub fn call(&mut self, args: &[CArg], vars: Vars) -> Result<Option<Value>, Halt>
        requires ready { IsReady self.old }
        requires room { HasRoomFor self.old CPrim.Call (map arg_of args.now) }
        ensures { DoesSilently self.old self.new vars.entry result
            (primitive_does self.old.heap CPrim.Call (map arg_of args.now)) }
    {
        let Some(name) = one_text(args) else {
            return Err(Halt::Broken(MISUSED));
        };
        let Talk::Idle = self.talk else {
            return Err(Halt::Broken(MISUSED));
        };
        begin(&mut self.line, name);
        self.talk = Talk::Calling(0);
        Ok(None)
    }

    /// Tells a number.
    pub fn tell(&mut self, args: &[CArg], vars: Vars) -> Result<Option<Value>, Halt>
        requires ready { IsReady self.old }
        ensures { DoesSilently self.old self.new vars.entry result
            (primitive_does self.old.heap CPrim.ArgN (map arg_of args.now)) }
    {
        match one_number(args, vars) {
            Ok(z) => {
                let Some(told) = told_so_far(self.talk) else {
                    return Err(Halt::Broken(MISUSED));
                };
                if told >= MAX_TOLD {
                    return Err(Halt::Broken(MISUSED));
                }
                tell_number(&mut self.line, z);
                self.talk = Talk::Calling(told + 1);
                Ok(None)
            }
            Err(rule) => Err(Halt::Broken(rule)),
        }
    }

    /// Tells the number of a block.
    pub fn tell_reference(&mut self, args: &[CArg], vars: Vars) -> Result<Option<Value>, Halt>
        requires ready { IsReady self.old }
        ensures { DoesSilently self.old self.new vars.entry result
            (primitive_does self.old.heap CPrim.ArgP (map arg_of args.now)) }
    {
        match one_reference(args, vars) {
            Ok(Some(block)) => {
                let Some(told) = told_so_far(self.talk) else {
                    return Err(Halt::Broken(MISUSED));
                };
                if told >= MAX_TOLD {
                    return Err(Halt::Broken(MISUSED));
                }
                tell_object(&mut self.line, block.number);
                self.talk = Talk::Calling(told + 1);
                Ok(None)
            }
            Ok(None) => Err(Halt::Broken(MISUSED)),
            Err(rule) => Err(Halt::Broken(rule)),
        }
    }

    /// Writes the call, and takes the answer.
    pub fn ask<K: Sink>(
        &mut self,
        args: &[CArg],
        vars: Vars,
        sink: &mut K,
    ) -> Result<Option<Value>, Halt>
        requires ready { IsReady self.old }
        ensures { Does self.old self.new vars.entry
            (record { written = K.written sink.old; faults = K.faults sink.old })
            (record { written = K.written sink.new; faults = K.faults sink.new }) result
            (primitive_does self.old.heap CPrim.Ask (map arg_of args.now)) }
    {
        if !is_none(args) {
            return Err(Halt::Broken(MISUSED));
        }
        let Some(_) = told_so_far(self.talk) else {
            return Err(Halt::Broken(MISUSED));
        };
        end(&mut self.line);
        self.talk = Talk::Idle;
        match sink.write(self.line.as_slice()) {
            Ok(()) => self.take_answer(),
            Err(_) => Err(Halt::Stopped(Stop::SinkFault)),
        }
    }

    /// The next answer.
    fn take_answer(&mut self) -> Result<Option<Value>, Halt>
        ensures { IsTaken result self.old self.new }
    {
        match self.answers.get(self.taken as usize) {
            Some(answer) => {
                self.taken += 1;
                self.talk = Talk::Reading(answer);
                Ok(None)
            }
            None => Err(Halt::Stopped(Stop::AnswersEnd)),
        }
    }
}
