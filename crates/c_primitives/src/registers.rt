//! The primitives of registers.

ghost use Rattle.std.specs.Prelude.{◌≡◌, ◌<◌, map, Some, IfSome, length, slice_get, slice_set};
ghost use Rattle.c_syntax.specs.View.{arg_of};
ghost use Rattle.c_meaning.specs.Primitives.{primitive_does, index_below};
ghost use Rattle.c_primitives.specs.Done.{number_as, reference_as};

use crate::args::{number_and_reference, one_number, two_numbers};
use crate::halt::Halt;
use crate::world::World;
use c_memory::Ref;
use c_syntax::rules::NO_REGISTER;
use c_syntax::{CArg, CPrim};
use c_values::{Value, Vars};

/// The index, if it is below the count.
fn index(i: i64, count: usize) -> Option<usize>
    ensures is { result ≡ index_below count i }
    ensures below { IfSome result (λ j. j < count) }
{
    if i >= 0 && (i as u64) < count as u64 {
        Some(i as usize)
    } else {
        None
    }
}

/// The position of the register of an index.
fn place<T: Copy>(registers: &Vec<Option<T>>, i: i64) -> Option<usize>
    ensures is { result ≡ index_below (length registers.now.items) i }
    ensures below { IfSome result (λ j. j < length registers.now.items) }
{
    index(i, registers.len())
}

/// A register.
fn at<T: Copy>(registers: &Vec<Option<T>>, j: usize) -> Option<T>
    requires { j < length registers.now.items }
    ensures { slice_get registers.now.items j ≡ Some result }
{
    registers[j]
}

/// Sets a register.
fn set<T: Copy>(registers: &mut Vec<Option<T>>, j: usize, value: T)
    requires { j < length registers.old.items }
    ensures { registers.new.items ≡ slice_set registers.old.items j (Some value) }
{
    registers[j] = Some(value);
}

/// The value of a number register.
fn number_value(x: Option<i64>) -> Result<Option<Value>, Halt>
    ensures { result ≡ number_as x }
{
    match x {
        Some(z) => Ok(Some(Value::Number(z))),
        None => Err(Halt::Broken(NO_REGISTER)),
    }
}

/// The value of a reference register.
fn reference_value(x: Option<Option<Ref>>) -> Result<Option<Value>, Halt>
    ensures { result ≡ reference_as x }
{
    match x {
        Some(p) => Ok(Some(Value::Reference(p))),
        None => Err(Halt::Broken(NO_REGISTER)),
    }
}

impl World<'_> {
    ghost use Rattle.c_primitives.specs.Shown.{IsReady, DoesSilently};

    /// Sets a number register.
    pub fn put_number(&mut self, args: &[CArg], vars: Vars) -> Result<Option<Value>, Halt>
        requires ready { IsReady self.old }
        ensures { DoesSilently self.old self.new vars.entry result
            (primitive_does self.old.heap CPrim.PutN (map arg_of args.now)) }
    {
        match two_numbers(args, vars) {
            Ok((i, z)) => match place(&self.numbers, i) {
                Some(j) => {
                    set(&mut self.numbers, j, z);
                    Ok(None)
                }
                None => Err(Halt::Broken(NO_REGISTER)),
            },
            Err(rule) => Err(Halt::Broken(rule)),
        }
    }

    /// The value of a number register.
    pub fn get_number(&mut self, args: &[CArg], vars: Vars) -> Result<Option<Value>, Halt>
        requires ready { IsReady self.old }
        ensures { DoesSilently self.old self.new vars.entry result
            (primitive_does self.old.heap CPrim.GetN (map arg_of args.now)) }
    {
        match one_number(args, vars) {
            Ok(i) => match place(&self.numbers, i) {
                Some(j) => number_value(at(&self.numbers, j)),
                None => Err(Halt::Broken(NO_REGISTER)),
            },
            Err(rule) => Err(Halt::Broken(rule)),
        }
    }

    /// Sets a reference register.
    pub fn put_reference(&mut self, args: &[CArg], vars: Vars) -> Result<Option<Value>, Halt>
        requires ready { IsReady self.old }
        ensures { DoesSilently self.old self.new vars.entry result
            (primitive_does self.old.heap CPrim.PutP (map arg_of args.now)) }
    {
        match number_and_reference(args, vars) {
            Ok((i, p)) => match place(&self.references, i) {
                Some(j) => {
                    set(&mut self.references, j, p);
                    Ok(None)
                }
                None => Err(Halt::Broken(NO_REGISTER)),
            },
            Err(rule) => Err(Halt::Broken(rule)),
        }
    }

    /// The value of a reference register.
    pub fn get_reference(&mut self, args: &[CArg], vars: Vars) -> Result<Option<Value>, Halt>
        requires ready { IsReady self.old }
        ensures { DoesSilently self.old self.new vars.entry result
            (primitive_does self.old.heap CPrim.GetP (map arg_of args.now)) }
    {
        match one_number(args, vars) {
            Ok(i) => match place(&self.references, i) {
                Some(j) => reference_value(at(&self.references, j)),
                None => Err(Halt::Broken(NO_REGISTER)),
            },
            Err(rule) => Err(Halt::Broken(rule)),
        }
    }
}
