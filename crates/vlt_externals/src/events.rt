//! The event of a call, and its answer.

ghost use Rattle.std.specs.Prelude.{◌≤◌, ◌+◌, ◌*◌, length, vec_capacity};
ghost use Rattle.vlt_externals.specs.Told.{TellsPart, TellsArgs, TellsCall, IsTaken};

use vlt_acts::{Host, Values};
use vlt_heap::Slot;
use vlt_steps::lines::end;
use vlt_steps::{begin, tell_number, tell_object};

/// Tells the argument that has this slot in front.
fn tell(line: &mut Vec<u8>, a: Slot)
    requires { length line.old.items + 42 ≤ vec_capacity line.old }
    ensures told { TellsPart a line.old.items line.new.items }
    ensures short { length line.new.items ≤ length line.old.items + 42 }
    ensures room { vec_capacity line.old ≤ vec_capacity line.new }
{
    match a {
        Slot::Number(z) => tell_number(line, z),
        Slot::Object(_, number) => tell_object(line, number),
        Slot::Owned(_, number) => tell_object(line, number),
    }
}

/// Tells so many arguments, whose values stand from a position on.
fn tell_all(line: &mut Vec<u8>, values: &Values, from: usize, count: u32)
    requires within { from + count * values.now.width ≤ length values.now.slots.items }
    requires room { length line.old.items + count * 42 ≤ vec_capacity line.old }
    ensures told { TellsArgs values.now from count line.old.items line.new.items }
    ensures short { length line.new.items ≤ length line.old.items + count * 42 }
    ensures room { vec_capacity line.old ≤ vec_capacity line.new }
{
    if count == 0 {
        return;
    }
    tell(line, values.read(from));
    tell_all(line, values, from + values.width() as usize, count - 1);
}

/// Puts the line of a call together.
pub fn call_line(line: &mut Vec<u8>, name: &[u8], values: &Values, from: usize, count: u32)
    requires within { from + count * values.now.width ≤ length values.now.slots.items }
    requires room { length name.now + count * 42 + 2 ≤ vec_capacity line.old }
    ensures told { TellsCall name.now values.now from count line.new.items }
    ensures room { vec_capacity line.old ≤ vec_capacity line.new }
{
    begin(line, name);
    tell_all(line, values, from, count);
    end(line);
}

/// Takes the next answer, if there is one.
pub fn take_answer<'h>(host: &mut Host<'h>) -> Option<&'h [i64]>
    ensures { IsTaken result host.old host.new }
{
    match host.answers.get(host.taken as usize) {
        Some(answer) => {
            host.taken += 1;
            Some(answer)
        }
        None => None,
    }
}
