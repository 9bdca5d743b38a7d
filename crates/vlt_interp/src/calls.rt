//! Calls of a run under way: the arguments' values in; the callee's frame, or what an external's answer says, out.
//! Read `vlt_meaning_laws/specs/Machine/Machine.antt` (enter) first, then `specs/Calls/Called.antt`: what a call asks and comes to.
//! Used by: the machine.

ghost use Rattle.std.specs.Prelude.{map};
ghost use Rattle.std.specs.Option.{option_map};
ghost use Rattle.vlt_core.specs.Core as core;
ghost use Rattle.vlt_core.specs.View.{func_of, keys_of, operand_of};
ghost use Rattle.vlt_interp.specs.Calls.Called.{going_in, CanGoIn, DoesIn, CanCall, Acts};

mod entering;
mod external;

use crate::calls::entering::enter_body;
use crate::calls::external::call_out;
use crate::tasks::{Rules, Run};
use vlt_acts::push_operands;
use vlt_base::{FnId, KeyId, VarId};
use vlt_core::{Func, Operand};
use vlt_io::Sink;
use vlt_steps::Stop;

/// A function is called, the values of whose arguments stand after the frame.
fn go_in<'a, K: Sink>(
    rules: &Rules<'a>,
    callee: &'a Func,
    target: Option<VarId>,
    keys: &'a [KeyId],
    run: &mut Run<'a, '_>,
    sink: &mut K,
) -> Option<Stop>
    requires can { CanGoIn (going_in (option_map (λ v. v.0) target) (keys_of keys.now)
        (func_of callee.now)) (func_of callee.now) (option_map (λ v. v.0) target)
        (keys_of keys.now) rules.now run.old }
    ensures { DoesIn (going_in (option_map (λ v. v.0) target) (keys_of keys.now)
        (func_of callee.now)) (func_of callee.now) (keys_of keys.now) rules.now run.old run.new
        (record { written = K.written sink.old; faults = K.faults sink.old })
        (record { written = K.written sink.new; faults = K.faults sink.new }) result }
{
    if run.fuel == 0 {
        return Some(Stop::FuelEnd);
    }
    run.fuel -= 1;
    if callee.external {
        call_out(rules, callee, target, keys, run, sink)
    } else {
        enter_body(rules, callee, target, keys, run)
    }
}

/// `target = f(..);`
pub fn call<'a, K: Sink>(
    rules: &Rules<'a>,
    f: FnId,
    target: Option<VarId>,
    keys: &'a [KeyId],
    args: &[Operand],
    run: &mut Run<'a, '_>,
    sink: &mut K,
) -> Option<Stop>
    requires can { CanCall f.0 (option_map (λ v. v.0) target) (keys_of keys.now)
        (map operand_of args.now) rules.now run.old }
    ensures { Acts (core.call f.0 (option_map (λ v. v.0) target) (keys_of keys.now)
        (map operand_of args.now)) rules.now run.old run.new
        (record { written = K.written sink.old; faults = K.faults sink.old })
        (record { written = K.written sink.new; faults = K.faults sink.new }) result }
{
    let Some(callee) = rules.program.fns.get(f.0 as usize) else {
        unreachable!();
    };
    match push_operands(&mut run.values, args, &run.heap) {
        Ok(()) => go_in(rules, callee, target, keys, run, sink),
        Err(trap) => Some(Stop::Trap(trap)),
    }
}
