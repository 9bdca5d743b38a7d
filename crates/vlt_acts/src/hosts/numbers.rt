//! Printing and input.

ghost use Rattle.std.specs.Prelude.{◌≡◌, ◌≤◌, ◌<◌};
ghost use Rattle.vlt_core.specs.View.{expr_of};
ghost use Rattle.vlt_core.specs.Core.{print as a_print, input as an_input};
ghost use Rattle.vlt_heap.specs.declared.heap.Heap.{Heap as AHeap};
ghost use Rattle.vlt_heap.specs.Shown.{IsSound};
ghost use Rattle.vlt_acts.specs.Values.Shown.{IsTable};
ghost use Rattle.vlt_acts.specs.Acts.Acts.{IsSameFrame};
ghost use Rattle.vlt_acts.specs.declared.hosts.host.Host.{Host as AHost};
ghost use Rattle.vlt_acts.specs.Hosts.Hosts.{DoesOut};
ghost use Rattle.vlt_steps.specs.Writing.{Outside};

use crate::hosts::host::{Host, has_more};
use crate::values::{Values, number};
use vlt_base::VarId;
use vlt_core::Expr;
use vlt_heap::{Heap, Slot};
use vlt_io::Sink;
use vlt_steps::{Stop, next, write_number};

/// `print(e);`
///
/// # Errors
///
/// A trap of the expression, and `SinkFault`.
pub fn print<K: Sink>(values: &Values, heap: &Heap, e: &Expr, sink: &mut K) -> Result<(), Stop>
    requires sound { IsSound heap.now }
    requires table { IsTable values.now }
    ensures { (host : AHost) → DoesOut heap.now values.now values.now host host
        (record { written = K.written sink.old; faults = K.faults sink.old })
        (record { written = K.written sink.new; faults = K.faults sink.new })
        result (a_print (expr_of e.now)) }
{
    match number(e, values, heap) {
        Ok(z) => match write_number(sink, z) {
            Ok(()) => Ok(()),
            Err(_) => Err(Stop::SinkFault),
        },
        Err(t) => Err(Stop::Trap(t)),
    }
}

/// `v = input();`, and `v = more();`
///
/// # Errors
///
/// `InputEnd` where there is no more input.
pub fn input(values: &mut Values, host: &mut Host, v: VarId, more: bool) -> Result<(), Stop>
    requires table { IsTable values.old }
    requires wide { 1 ≤ values.old.width }
    requires within { v.0 < values.old.vars }
    ensures same { IsSameFrame values.old values.new }
    ensures line { host.new.line ≡ host.old.line }
    ensures does { (h : AHeap) (b : Outside) →
        DoesOut h values.old values.new host.old host.new b b result (an_input v.0 more) }
{
    if more {
        let to = values.place(v);
        values.put_single(to, Slot::Number(has_more(host.input)));
        return Ok(());
    }
    match next(host.input) {
        Some((z, rest)) => {
            host.input = rest;
            let to = values.place(v);
            values.put_single(to, Slot::Number(z));
            Ok(())
        }
        None => Err(Stop::InputEnd),
    }
}
