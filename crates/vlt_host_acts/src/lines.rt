//! The lines of a host's call and of its result.

ghost use Rattle.std.specs.Prelude.{◌≡◌, ◌<◌, ◌≤◌, ◌+◌, ◌*◌, ◌++◌, length, map, Some, OnOk, OnErr, vec_capacity};
ghost use Rattle.std.specs.List.{flat_map};
ghost use Rattle.vlt_io.specs.Outside.{Rose, Grew, GrewByPart};
ghost use Rattle.vlt_meaning.specs.World.{argument_text};
ghost use Rattle.vlt_host_meaning.specs.Calls.{value_of_argument};
ghost use Rattle.vlt_host_meaning.specs.Tables.{argument_of};
ghost use Rattle.vlt_host_meaning.specs.Lines.{call_line, result_line};
ghost use Rattle.vlt_host_acts.specs.Lines.{begins_with};
ghost use Rattle.vlt_host_acts.specs.Values.{value_of};

use crate::permits::position;
use crate::values::HostValue;
use vlt_host_meaning::HostArg;
use vlt_io::{Sink, SinkFailed};
use vlt_steps::lines::end;
use vlt_steps::{begin, tell_number, tell_object};

/// The beginning of a line: a mark and a name.
fn mark(line: &mut Vec<u8>, mark: u8, name: &[u8])
    requires { length name.now + 1 ≤ vec_capacity line.old }
    ensures items { line.new.items ≡ begins_with mark name.now }
    ensures room { vec_capacity line.old ≤ vec_capacity line.new }
{
    begin(line, name);
    line[0] = mark;
}

/// An argument after a blank.
fn tell(line: &mut Vec<u8>, a: HostArg)
    requires { length line.old.items + 42 ≤ vec_capacity line.old }
    ensures told { line.new.items ≡
        line.old.items ++ argument_text (value_of_argument (argument_of a)) }
    ensures short { length line.new.items ≤ length line.old.items + 42 }
    ensures room { vec_capacity line.old ≤ vec_capacity line.new }
{
    match a {
        HostArg::Number(z) => tell_number(line, z),
        HostArg::Object(n) => tell_object(line, position(n)),
    }
}

/// All arguments.
fn tell_all(line: &mut Vec<u8>, args: &[HostArg])
    requires { length line.old.items + length args.now * 42 ≤ vec_capacity line.old }
    ensures told { line.new.items ≡ line.old.items ++
        flat_map (λ a. argument_text (value_of_argument a)) (map argument_of args.now) }
    ensures short { length line.new.items ≤ length line.old.items + length args.now * 42 }
    ensures room { vec_capacity line.old ≤ vec_capacity line.new }
{
    match args.split_first() {
        None => {}
        Some((a, rest)) => {
            tell(line, *a);
            tell_all(line, rest);
        }
    }
}

/// Writes the line of a call, in one piece.
///
/// # Errors
///
/// `SinkFailed` where the sink did not take all.
pub fn write_call<K: Sink>(
    line: &mut Vec<u8>,
    name: &[u8],
    args: &[HostArg],
    sink: &mut K,
) -> Result<(), SinkFailed>
    requires { length name.now + length args.now * 42 + 2 ≤ vec_capacity line.old }
    ensures room { vec_capacity line.old ≤ vec_capacity line.new }
    ensures ok { OnOk result (Grew (K.written sink.old) (K.written sink.new)
        (call_line name.now (map argument_of args.now))) }
    ensures part { OnErr result (GrewByPart (K.written sink.old) (K.written sink.new)
        (call_line name.now (map argument_of args.now))) }
    ensures failed { OnErr result (Rose (K.faults sink.old) (K.faults sink.new)) }
    ensures counted { K.faults sink.old ≤ K.faults sink.new }
{
    mark(line, b'!', name);
    tell_all(line, args);
    end(line);
    sink.write(line)
}

/// A value after a blank.
fn tell_value(line: &mut Vec<u8>, value: HostValue)
    requires { length line.old.items + 42 ≤ vec_capacity line.old }
    ensures told { line.new.items ≡ line.old.items ++ argument_text (value_of value) }
    ensures short { length line.new.items ≤ length line.old.items + 42 }
    ensures room { vec_capacity line.old ≤ vec_capacity line.new }
{
    match value {
        HostValue::Number(z) => tell_number(line, z),
        HostValue::Object(n) => tell_object(line, n),
    }
}

/// Writes the line of a result, in one piece.
///
/// # Errors
///
/// `SinkFailed` where the sink did not take all.
pub fn write_result<K: Sink>(
    line: &mut Vec<u8>,
    value: HostValue,
    sink: &mut K,
) -> Result<(), SinkFailed>
    requires { 44 ≤ vec_capacity line.old }
    ensures room { vec_capacity line.old ≤ vec_capacity line.new }
    ensures ok { OnOk result (Grew (K.written sink.old) (K.written sink.new)
        (result_line (Some (value_of value)))) }
    ensures part { OnErr result (GrewByPart (K.written sink.old) (K.written sink.new)
        (result_line (Some (value_of value)))) }
    ensures failed { OnErr result (Rose (K.faults sink.old) (K.faults sink.new)) }
    ensures counted { K.faults sink.old ≤ K.faults sink.new }
{
    mark(line, b'=', &[]);
    tell_value(line, value);
    end(line);
    sink.write(line)
}
