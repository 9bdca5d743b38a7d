//! The primitives of traps, input and answers.

ghost use Rattle.std.specs.Prelude.{◌≡◌, false, map, Some, IfSome, IfNone};
ghost use Rattle.vlt_ops.specs.Operator.{bool_number};
ghost use Rattle.c_syntax.specs.View.{arg_of};
ghost use Rattle.c_meaning.specs.Primitives.{primitive_does, reads_answer, is_bit_of};
ghost use Rattle.c_meaning.specs.Primitives as more;
ghost use Rattle.c_primitives.specs.Done as done;
ghost use Rattle.c_primitives.specs.Taking.{IsReading};

use crate::args::{is_none, one_number};
use crate::halt::Halt;
use crate::world::{Talk, World};
use c_syntax::rules::MISUSED;
use c_syntax::{CArg, CPrim};
use c_values::{Value, Vars};
use vlt_ops::TrapKind;
use vlt_steps::{Stop, next};

/// The code of a trap by overflow.
const OVERFLOW: i64 = 1;

/// The code of a trap by a zero divisor.
const ZERO_DIVISOR: i64 = 2;

/// Whether the bit of that number is 1.
fn is_bit(mask: i64, i: i64) -> bool
    ensures { result ≡ is_bit_of mask i }
{
    if i >= 0 && i < 64 {
        (mask.cast_unsigned() >> i as u32) & 1 == 1
    } else {
        false
    }
}

/// How a run ends that asks for a trap.
fn trapped(z: i64) -> Halt
    ensures { result ≡ done.halt_of_trap z }
{
    if z == OVERFLOW {
        Halt::Stopped(Stop::Trap(TrapKind::Overflow))
    } else if z == ZERO_DIVISOR {
        Halt::Stopped(Stop::Trap(TrapKind::ZeroDivisor))
    } else {
        Halt::Broken(MISUSED)
    }
}

/// Whether there are numbers, as 1 or 0.
fn has_more(left: &[i64]) -> i64
    ensures { result ≡ bool_number (more.has_more left.now) }
{
    match left {
        [] => 0,
        _ => 1,
    }
}

/// What is left of the answer that is read.
fn unread<'h>(talk: Talk<'h>) -> Option<&'h [i64]>
    ensures reads { IfSome result (λ left. IsReading talk.entry left.now) }
    ensures other { IfNone result (done.is_reading talk.entry ≡ false) }
{
    match talk {
        Talk::Reading(left) => Some(left),
        Talk::Idle => None,
        Talk::Calling(_) => None,
    }
}

/// A number is given.
fn number_given(z: i64) -> Option<Value>
    ensures { result ≡ Some (Value.Number z) }
{
    Some(Value::Number(z))
}

impl World<'_> {
    ghost use Rattle.c_primitives.specs.Shown.{IsReady, DoesSilently};

    /// Ends the run by a trap.
    pub fn trap(&mut self, args: &[CArg], vars: Vars) -> Result<Option<Value>, Halt>
        requires ready { IsReady self.old }
        ensures { DoesSilently self.old self.new vars.entry result
            (primitive_does self.old.heap CPrim.Trap (map arg_of args.now)) }
    {
        match one_number(args, vars) {
            Ok(z) => Err(trapped(z)),
            Err(rule) => Err(Halt::Broken(rule)),
        }
    }

    /// The next number of the input.
    pub fn read(&mut self, args: &[CArg], vars: Vars) -> Result<Option<Value>, Halt>
        requires ready { IsReady self.old }
        ensures { DoesSilently self.old self.new vars.entry result
            (primitive_does self.old.heap CPrim.Read (map arg_of args.now)) }
    {
        if !is_none(args) {
            return Err(Halt::Broken(MISUSED));
        }
        match next(self.input) {
            Some((first, rest)) => {
                self.input = rest;
                Ok(number_given(first))
            }
            None => Err(Halt::Stopped(Stop::InputEnd)),
        }
    }

    /// Whether there is more input.
    pub fn more(&mut self, args: &[CArg], vars: Vars) -> Result<Option<Value>, Halt>
        requires ready { IsReady self.old }
        ensures { DoesSilently self.old self.new vars.entry result
            (primitive_does self.old.heap CPrim.More (map arg_of args.now)) }
    {
        if !is_none(args) {
            return Err(Halt::Broken(MISUSED));
        }
        Ok(number_given(has_more(self.input)))
    }

    /// The next number of the answer.
    pub fn int(&mut self, args: &[CArg], vars: Vars) -> Result<Option<Value>, Halt>
        requires ready { IsReady self.old }
        ensures { DoesSilently self.old self.new vars.entry result
            (primitive_does self.old.heap CPrim.Int (map arg_of args.now)) }
    {
        if !is_none(args) {
            return Err(Halt::Broken(MISUSED));
        }
        let Some(left) = unread(self.talk) else {
            return Err(Halt::Broken(MISUSED));
        };
        match next(left) {
            Some((first, rest)) => {
                self.talk = Talk::Reading(rest);
                Ok(number_given(first))
            }
            None => Err(Halt::Stopped(Stop::BadAnswer(self.taken))),
        }
    }

    /// The next number of the answer, which is the number of one of these bits.
    pub fn pick(&mut self, args: &[CArg], vars: Vars) -> Result<Option<Value>, Halt>
        requires ready { IsReady self.old }
        ensures { DoesSilently self.old self.new vars.entry result
            (primitive_does self.old.heap CPrim.Pick (map arg_of args.now)) }
    {
        match one_number(args, vars) {
            Ok(mask) => self.pick_one(mask, vars),
            Err(rule) => Err(Halt::Broken(rule)),
        }
    }

    /// The next number of the answer, which is the number of one of these bits.
    fn pick_one(&mut self, mask: i64, vars: Vars) -> Result<Option<Value>, Halt>
        requires ready { IsReady self.old }
        ensures { DoesSilently self.old self.new vars.entry result
            (λ vs w. reads_answer (is_bit_of mask) w.talk w) }
    {
        let Some(left) = unread(self.talk) else {
            return Err(Halt::Broken(MISUSED));
        };
        match next(left) {
            Some((first, rest)) => {
                if !is_bit(mask, first) {
                    return Err(Halt::Stopped(Stop::BadAnswer(self.taken)));
                }
                self.talk = Talk::Reading(rest);
                Ok(number_given(first))
            }
            None => Err(Halt::Stopped(Stop::BadAnswer(self.taken))),
        }
    }

    /// The end of the answer.
    pub fn end(&mut self, args: &[CArg], vars: Vars) -> Result<Option<Value>, Halt>
        requires ready { IsReady self.old }
        ensures { DoesSilently self.old self.new vars.entry result
            (primitive_does self.old.heap CPrim.End (map arg_of args.now)) }
    {
        if !is_none(args) {
            return Err(Halt::Broken(MISUSED));
        }
        let Some(left) = unread(self.talk) else {
            return Err(Halt::Broken(MISUSED));
        };
        match next(left) {
            Some(_) => Err(Halt::Stopped(Stop::BadAnswer(self.taken))),
            None => {
                self.talk = Talk::Idle;
                Ok(None)
            }
        }
    }
}
