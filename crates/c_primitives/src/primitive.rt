//! All primitives.

ghost use Rattle.std.specs.Prelude.{◌≡◌, map};
ghost use Rattle.c_syntax.specs.View.{arg_of};
ghost use Rattle.c_meaning.specs.Primitives.{primitive_does};

use crate::halt::Halt;
use crate::world::World;
use c_syntax::{CArg, CPrim};
use c_values::{Value, Vars};
use vlt_io::Sink;

impl World<'_> {
    ghost use Rattle.c_primitives.specs.Shown.{IsReady, HasRoomFor, Does};

    /// What a primitive does.
    pub fn primitive<K: Sink>(
        &mut self,
        p: CPrim,
        args: &[CArg],
        vars: Vars,
        sink: &mut K,
    ) -> Result<Option<Value>, Halt>
        requires ready { IsReady self.old }
        requires room { HasRoomFor self.old p (map arg_of args.now) }
        ensures { Does self.old self.new vars.entry
            (record { written = K.written sink.old; faults = K.faults sink.old })
            (record { written = K.written sink.new; faults = K.faults sink.new }) result
            (primitive_does self.old.heap p (map arg_of args.now)) }
    {
        match p {
            CPrim::New => self.make(args, vars),
            CPrim::Own => self.own(args, vars),
            CPrim::Disown => self.disown(args, vars),
            CPrim::Parent => self.parent(args, vars),
            CPrim::Release => self.release(args, vars),
            CPrim::Trap => self.trap(args, vars),
            CPrim::Print => self.print(args, vars, sink),
            CPrim::Read => self.read(args, vars),
            CPrim::More => self.more(args, vars),
            CPrim::PutN => self.put_number(args, vars),
            CPrim::GetN => self.get_number(args, vars),
            CPrim::PutP => self.put_reference(args, vars),
            CPrim::GetP => self.get_reference(args, vars),
            CPrim::Call => self.call(args, vars),
            CPrim::ArgN => self.tell(args, vars),
            CPrim::ArgP => self.tell_reference(args, vars),
            CPrim::Ask => self.ask(args, vars, sink),
            CPrim::Int => self.int(args, vars),
            CPrim::Pick => self.pick(args, vars),
            CPrim::Out => self.send_out(args, vars),
            CPrim::Back => self.back(args, vars),
            CPrim::End => self.end(args, vars),
        }
    }
}
