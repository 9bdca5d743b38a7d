//! Calls of externals as a whole: arguments that stand after the frame in; the event out, and what the answer says done.
//! Read `vlt_meaning/specs/Externals.antt` first, then `specs/HostCalls/Called.antt`.
//! Used by: the machine of runs, `vlt_interp`.

ghost use Rattle.std.specs.Prelude.{◌≡◌, ◌≤◌, ◌<◌, ◌+◌, ◌*◌, length, IfOk, IfSome, vec_capacity};
ghost use Rattle.vlt_core.specs.Instances.{instance};
ghost use Rattle.vlt_core.specs.View.{program_of, func_of, keys_of};
ghost use Rattle.vlt_heap.specs.Shown.{IsSound, IsSameSize};
ghost use Rattle.vlt_acts.specs.Values.Shown.{IsTable};
ghost use Rattle.vlt_acts.specs.Acts.Acts.{IsSameFrame};
ghost use Rattle.vlt_acts.specs.Frames.Naming.{IsDelivered};
ghost use Rattle.vlt_externals.specs.HostAnswers.Read.{AreSets, AreWithin};
ghost use Rattle.vlt_externals.specs.Results.Results.{FitsResult};
ghost use Rattle.vlt_externals.specs.HostCalls.Heeded.{ListsKeys, IsSameBelow};
ghost use Rattle.vlt_externals.specs.HostCalls.Called.{CanCallAs, CallsAs, CanCall, Calls};

mod heeding;
mod origins;

use crate::host_calls::heeding::heed;
use crate::host_calls::origins::called_origin;
use crate::{call_line, send_owned, send_taken, take_answer};
use vlt_acts::{Host, Values};
use vlt_base::{KeyId, VarId};
use vlt_core::{Func, Program};
use vlt_heap::Heap;
use vlt_io::Sink;
use vlt_steps::Stop;

/// Copies the value at the end to the variable, if there is one.
fn deliver(values: &mut Values, target: Option<VarId>)
    requires table { IsTable values.old }
    requires target { IfSome target (λ v. v.0 < values.old.vars) }
    ensures same { IsSameFrame values.old values.new }
    ensures room { vec_capacity values.new.slots ≡ vec_capacity values.old.slots }
    ensures delivered { IsDelivered target values.old values.new }
{
    if let Some(v) = target {
        let from = values.len().saturating_sub(values.width() as usize);
        let to = values.place(v);
        values.copy(from, to);
    }
}

/// Calls the instance of an external that has this origin.
fn call_instance<K: Sink>(
    values: &mut Values,
    heap: &mut Heap,
    host: &mut Host,
    program: &Program,
    g: &Func,
    origin: Option<u8>,
    target: Option<VarId>,
    keys: &[KeyId],
    sink: &mut K,
) -> Result<(), Stop>
    requires sound { IsSound heap.old }
    requires table { IsTable values.old }
    requires wide { 1 ≤ values.old.width }
    requires target { IfSome target (λ v. v.0 < values.old.vars) }
    requires room { length values.old.slots.items + values.old.width ≤
        vec_capacity values.old.slots }
    requires line { length (func_of g.now).name + (func_of g.now).params * 42 + 2 ≤
        vec_capacity host.old.line }
    requires fits { FitsResult (program_of program.now) (func_of g.now) values.old.width }
    requires within { AreWithin (program_of program.now) (func_of g.now) origin
        (func_of g.now).clause }
    requires lists { ListsKeys (program_of program.now)
        (instance (program_of program.now) (func_of g.now) origin) (keys_of keys.now) }
    requires sets { AreSets (program_of program.now) (func_of g.now)
        (instance (program_of program.now) (func_of g.now) origin).clause }
    requires can { CanCallAs (program_of program.now)
        (instance (program_of program.now) (func_of g.now) origin) target (keys_of keys.now)
        heap.old values.old host.old }
    ensures sound { IsSound heap.new }
    ensures size { IsSameSize heap.old heap.new }
    ensures line { vec_capacity host.old.line ≤ vec_capacity host.new.line }
    ensures same { IsSameBelow values.old values.new }
    ensures long { IfOk result (λ u. length values.new.slots.items +
        (func_of g.now).params * values.old.width ≡ length values.old.slots.items) }
    ensures calls { CallsAs (program_of program.now)
        (instance (program_of program.now) (func_of g.now) origin) target (keys_of keys.now)
        heap.old heap.new values.old values.new host.old host.new
        (record { written = K.written sink.old; faults = K.faults sink.old })
        (record { written = K.written sink.new; faults = K.faults sink.new }) result }
{
    let from = values.len() - g.params as usize * values.width() as usize;
    call_line(&mut host.line, g.name.as_slice(), values, from, g.params);
    match sink.write(&host.line) {
        Ok(()) => {}
        Err(_) => return Err(Stop::SinkFault),
    }
    let Some(answer) = take_answer(host) else {
        return Err(Stop::AnswersEnd);
    };
    send_taken(values, heap, g.clause.as_slice(), keys);
    send_owned(values, heap, from, g.params);
    values.truncate(from);
    match heed(values, heap, program, g, origin, keys, answer, host.taken) {
        Err(stop) => Err(stop),
        Ok(()) => {
            deliver(values, target);
            values.truncate(from);
            Ok(())
        }
    }
}

/// Calls an external, the values of whose arguments stand after the frame.
///
/// # Errors
///
/// `AnswersEnd` where there are no more answers, `BadAnswer` where the next one doesn't keep the clause, `HeapEnd`
/// where a new object can't be made, and `SinkFault`.
pub fn call_external<K: Sink>(
    values: &mut Values,
    heap: &mut Heap,
    host: &mut Host,
    program: &Program,
    g: &Func,
    target: Option<VarId>,
    keys: &[KeyId],
    sink: &mut K,
) -> Result<(), Stop>
    requires sound { IsSound heap.old }
    requires table { IsTable values.old }
    requires wide { 1 ≤ values.old.width }
    requires target { IfSome target (λ v. v.0 < values.old.vars) }
    requires room { length values.old.slots.items + values.old.width ≤
        vec_capacity values.old.slots }
    requires line { length (func_of g.now).name + (func_of g.now).params * 42 + 2 ≤
        vec_capacity host.old.line }
    requires fits { FitsResult (program_of program.now) (func_of g.now) values.old.width }
    requires lists { ListsKeys (program_of program.now) (func_of g.now) (keys_of keys.now) }
    requires sets { AreSets (program_of program.now) (func_of g.now) (func_of g.now).clause }
    requires can { CanCall (program_of program.now) (func_of g.now) target (keys_of keys.now)
        heap.old values.old host.old }
    ensures sound { IsSound heap.new }
    ensures size { IsSameSize heap.old heap.new }
    ensures line { vec_capacity host.old.line ≤ vec_capacity host.new.line }
    ensures same { IsSameBelow values.old values.new }
    ensures long { IfOk result (λ u. length values.new.slots.items +
        (func_of g.now).params * values.old.width ≡ length values.old.slots.items) }
    ensures calls { Calls (program_of program.now) (func_of g.now) target (keys_of keys.now)
        heap.old heap.new values.old values.new host.old host.new
        (record { written = K.written sink.old; faults = K.faults sink.old })
        (record { written = K.written sink.new; faults = K.faults sink.new }) result }
{
    let origin = called_origin(values, heap, g, keys);
    call_instance(values, heap, host, program, g, origin, target, keys, sink)
}
