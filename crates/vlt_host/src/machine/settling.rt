//! What a host gets back from a call.

ghost use Rattle.std.specs.Prelude.{◌≡◌, ◌≤◌, ℕ, List, Option, length, OnOk, OnErr, vec_capacity};
ghost use Rattle.std.specs.Option.{option_map};
ghost use Rattle.vlt_io.specs.Outside.{Rose, Grew, GrewByPart};
ghost use Rattle.vlt_core.specs.View.{func_of};
ghost use Rattle.vlt_core.specs.Core.{Func as AFunc, Ty as ATy};
ghost use Rattle.vlt_heap.specs.Items.{Items};
ghost use Rattle.vlt_meaning.specs.World.{Part, Value as AValue, World};
ghost use Rattle.vlt_acts.specs.Values.Parts.{HasPart};
ghost use Rattle.vlt_acts.specs.Frames.Left.{HasLeft};
ghost use Rattle.vlt_host_meaning.specs.Lines.{result_line};
ghost use Rattle.vlt_host_laws.specs.Results.{IsResult};
ghost use Rattle.vlt_host_acts.specs.Permits.Held.{IsSound, numbers_in, room_in};
ghost use Rattle.vlt_host_acts.specs.Values.{value_of};
ghost use Rattle.vlt_host.specs.Machine.Calling.{HasFront, HasSomeWorld, HasLeftBody};
ghost use Rattle.vlt_host.specs.Machine.Settled.{IsOfPart, with_slot, IsEmptied, Settles};

use crate::machine::calling::Calling;
use crate::machine::tables::Tables;
use vlt_acts::Values;
use vlt_core::Func;
use vlt_heap::Slot;
use vlt_host_acts::{Held, HostValue, parameters, remove_taken, write_result};
use vlt_interp::{Run, Start, Stop};
use vlt_io::{Sink, SinkFailed};

/// The slot that has the function's value in front, if it gives one.
fn front_of(values: &Values, f: &Func) -> Option<Slot>
    ensures { (items : Items) (g : AFunc) (a : Option AValue) (kept : List ℕ) (w : World) →
        HasLeft items values.now g a kept w → IsResult (func_of f.now).result a →
        HasFront items a result }
{
    match &f.result {
        None => None,
        Some(_) => Some(values.read(values.len().saturating_sub(values.width() as usize))),
    }
}

/// A slot as a host gets it.
fn value(a: Slot) -> HostValue
    ensures { (items : Items) (p : Part) → HasPart items p a → IsOfPart p result }
{
    match a {
        Slot::Number(z) => HostValue::Number(z),
        Slot::Object(_, n) => HostValue::Object(n),
        Slot::Owned(_, n) => HostValue::Object(n),
    }
}

/// The function's value as a host gets it.
fn given(front: Option<Slot>) -> Option<HostValue>
    ensures { (items : Items) (t : Option ATy) (a : Option AValue) → IsResult t a →
        HasFront items a front → a ≡ option_map value_of result }
{
    match front {
        None => None,
        Some(a) => Some(value(a)),
    }
}

/// The host holds the object of the slot.
fn hold(held: &mut Held, a: Option<Slot>)
    requires sound { IsSound held.old }
    requires room { length (with_slot a (numbers_in held.old)) ≤ room_in held.old }
    ensures numbers { numbers_in held.new ≡ with_slot a (numbers_in held.old) }
    ensures room { room_in held.old ≤ room_in held.new }
    ensures sound { IsSound held.new }
{
    match a {
        Some(Slot::Object(o, n)) => held.add(n, o),
        Some(Slot::Number(_)) | Some(Slot::Owned(_, _)) | None => {}
    }
}

/// Writes the line of a value, if there is one.
fn tell<K: Sink>(
    line: &mut Vec<u8>,
    value: Option<HostValue>,
    sink: &mut K,
) -> Result<(), SinkFailed>
    requires { 44 ≤ vec_capacity line.old }
    ensures room { vec_capacity line.old ≤ vec_capacity line.new }
    ensures ok { OnOk result (Grew (K.written sink.old) (K.written sink.new)
        (result_line (option_map value_of value))) }
    ensures part { OnErr result (GrewByPart (K.written sink.old) (K.written sink.new)
        (result_line (option_map value_of value))) }
    ensures failed { OnErr result (Rose (K.faults sink.old) (K.faults sink.new)) }
    ensures counted { K.faults sink.old ≤ K.faults sink.new }
{
    match value {
        None => Ok(()),
        Some(value) => write_result(line, value, sink),
    }
}

/// The tables of a run without its frames.
fn emptied<'a>(run: Run<'a, '_>) -> Start<'a>
    ensures { IsEmptied run.entry result }
{
    let Run {
        tasks,
        mut values,
        heap,
        host,
        ..
    } = run;
    values.run(0, 0);
    values.truncate(0);
    Start {
        tasks,
        values,
        heap,
        line: host.line,
    }
}

/// What comes back: the tables for the next call, and the value, whose line is written.
///
/// # Errors
///
/// `SinkFault`.
pub fn settle<'a, K: Sink>(
    call: &Calling<'a, '_>,
    run: Run<'a, '_>,
    mut held: Held,
    mut result_line: Vec<u8>,
    sink: &mut K,
) -> Result<(Tables<'a>, Option<HostValue>), Stop>
    requires left { HasSomeWorld call.now held run }
    requires room { 44 ≤ vec_capacity result_line }
    ensures { (w : World) (h : HasLeftBody call.now held run.entry w) →
        Settles call.now held run.entry w h
        (record { written = K.written sink.old; faults = K.faults sink.old })
        (record { written = K.written sink.new; faults = K.faults sink.new }) result }
{
    let front = front_of(&run.values, call.func);
    remove_taken(
        &mut held,
        parameters(call.func),
        call.args,
        call.func.clause.as_slice(),
    );
    hold(&mut held, front);
    let value = given(front);
    match tell(&mut result_line, value, sink) {
        Err(_) => Err(Stop::SinkFault),
        Ok(()) => Ok((
            Tables {
                start: emptied(run),
                held,
                result_line,
            },
            value,
        )),
    }
}
