//! The primitives of blocks.

ghost use Rattle.std.specs.Prelude.{◌≡◌, map};
ghost use Rattle.c_syntax.specs.View.{arg_of};
ghost use Rattle.c_meaning.specs.Primitives.{primitive_does};
ghost use Rattle.c_primitives.specs.Done.{parent_as, back_as};
ghost use Rattle.c_primitives.specs.Done as kinds;

use crate::args::{asked, one_reference, two_references};
use crate::halt::{Halt, done};
use crate::world::{Talk, World};
use c_memory::Ref;
use c_syntax::rules::MISUSED;
use c_syntax::{CArg, CPrim};
use c_values::{Value, Vars};
use vlt_steps::Stop;

/// Whether an answer is read.
fn is_reading(talk: Talk) -> bool
    ensures { result ≡ kinds.is_reading talk.entry }
{
    match talk {
        Talk::Reading(_) => true,
        Talk::Idle => false,
        Talk::Calling(_) => false,
    }
}

/// The parent, as a value.
fn parent_value(r: Result<Ref, u8>) -> Result<Option<Value>, Halt>
    ensures { result ≡ parent_as r }
{
    match r {
        Ok(parent) => Ok(Some(Value::Reference(Some(parent)))),
        Err(rule) => Err(Halt::Broken(rule)),
    }
}

/// What it comes to that a block is taken back, after so many answers.
fn returned(r: Result<bool, u8>, taken: u32) -> Result<Option<Value>, Halt>
    ensures { result ≡ back_as taken r }
{
    match r {
        Ok(true) => Ok(None),
        Ok(false) => Err(Halt::Stopped(Stop::BadAnswer(taken))),
        Err(rule) => Err(Halt::Broken(rule)),
    }
}

impl World<'_> {
    ghost use Rattle.c_primitives.specs.Shown.{IsReady, HasRoomFor, DoesSilently};

    /// A new block.
    pub fn make(&mut self, args: &[CArg], vars: Vars) -> Result<Option<Value>, Halt>
        requires ready { IsReady self.old }
        requires room { HasRoomFor self.old CPrim.New (map arg_of args.now) }
        ensures { DoesSilently self.old self.new vars.entry result
            (primitive_does self.old.heap CPrim.New (map arg_of args.now)) }
    {
        let Some((numbers, references)) = asked(args) else {
            return Err(Halt::Broken(MISUSED));
        };
        if self.heap == 0 {
            return Err(Halt::Stopped(Stop::HeapEnd));
        }
        match self.blocks.make(numbers as u32, references as u32) {
            Ok(made) => Ok(Some(Value::Reference(Some(made)))),
            Err(_) => Err(Halt::Stopped(Stop::HeapEnd)),
        }
    }

    /// Gives a child its parent.
    pub fn own(&mut self, args: &[CArg], vars: Vars) -> Result<Option<Value>, Halt>
        requires ready { IsReady self.old }
        ensures { DoesSilently self.old self.new vars.entry result
            (primitive_does self.old.heap CPrim.Own (map arg_of args.now)) }
    {
        match two_references(args, vars) {
            Ok((child, parent)) => done(self.blocks.own(child, parent)),
            Err(rule) => Err(Halt::Broken(rule)),
        }
    }

    /// Takes a child's parent away.
    pub fn disown(&mut self, args: &[CArg], vars: Vars) -> Result<Option<Value>, Halt>
        requires ready { IsReady self.old }
        ensures { DoesSilently self.old self.new vars.entry result
            (primitive_does self.old.heap CPrim.Disown (map arg_of args.now)) }
    {
        match one_reference(args, vars) {
            Ok(child) => done(self.blocks.disown(child)),
            Err(rule) => Err(Halt::Broken(rule)),
        }
    }

    /// A child's parent.
    pub fn parent(&mut self, args: &[CArg], vars: Vars) -> Result<Option<Value>, Halt>
        requires ready { IsReady self.old }
        ensures { DoesSilently self.old self.new vars.entry result
            (primitive_does self.old.heap CPrim.Parent (map arg_of args.now)) }
    {
        match one_reference(args, vars) {
            Ok(child) => parent_value(self.blocks.parent(child)),
            Err(rule) => Err(Halt::Broken(rule)),
        }
    }

    /// Ends a block and all below it.
    pub fn release(&mut self, args: &[CArg], vars: Vars) -> Result<Option<Value>, Halt>
        requires ready { IsReady self.old }
        ensures { DoesSilently self.old self.new vars.entry result
            (primitive_does self.old.heap CPrim.Release (map arg_of args.now)) }
    {
        match one_reference(args, vars) {
            Ok(block) => done(self.blocks.release(block)),
            Err(rule) => Err(Halt::Broken(rule)),
        }
    }

    /// Sends a block out.
    pub fn send_out(&mut self, args: &[CArg], vars: Vars) -> Result<Option<Value>, Halt>
        requires ready { IsReady self.old }
        ensures { DoesSilently self.old self.new vars.entry result
            (primitive_does self.old.heap CPrim.Out (map arg_of args.now)) }
    {
        match one_reference(args, vars) {
            Ok(block) => {
                if !is_reading(self.talk) {
                    return Err(Halt::Broken(MISUSED));
                }
                done(self.blocks.out(block))
            }
            Err(rule) => Err(Halt::Broken(rule)),
        }
    }

    /// Takes a block back.
    pub fn back(&mut self, args: &[CArg], vars: Vars) -> Result<Option<Value>, Halt>
        requires ready { IsReady self.old }
        ensures { DoesSilently self.old self.new vars.entry result
            (primitive_does self.old.heap CPrim.Back (map arg_of args.now)) }
    {
        match one_reference(args, vars) {
            Ok(block) => {
                if !is_reading(self.talk) {
                    return Err(Halt::Broken(MISUSED));
                }
                returned(self.blocks.back(block), self.taken)
            }
            Err(rule) => Err(Halt::Broken(rule)),
        }
    }
}
