//! Calls of externals.

ghost use Rattle.std.specs.Prelude.{◌≡◌, true};
ghost use Rattle.std.specs.Option.{option_map};
ghost use Rattle.vlt_core.specs.View.{func_of, keys_of};
ghost use Rattle.vlt_interp.specs.Calls.Called.{calling_out, CanGoIn, DoesIn};

use crate::tasks::{Rules, Run, or_halt};
use vlt_base::{KeyId, VarId};
use vlt_core::Func;
use vlt_externals::call_external;
use vlt_io::Sink;
use vlt_steps::Stop;

/// An external is called, the values of whose arguments stand after the frame.
pub fn call_out<K: Sink>(
    rules: &Rules,
    callee: &Func,
    target: Option<VarId>,
    keys: &[KeyId],
    run: &mut Run,
    sink: &mut K,
) -> Option<Stop>
    requires external { (func_of callee.now).external ≡ true }
    requires can { CanGoIn (calling_out (option_map (λ v. v.0) target) (keys_of keys.now)
        (func_of callee.now)) (func_of callee.now) (option_map (λ v. v.0) target)
        (keys_of keys.now) rules.now run.old }
    ensures { DoesIn (calling_out (option_map (λ v. v.0) target) (keys_of keys.now)
        (func_of callee.now)) (func_of callee.now) (keys_of keys.now) rules.now run.old run.new
        (record { written = K.written sink.old; faults = K.faults sink.old })
        (record { written = K.written sink.new; faults = K.faults sink.new }) result }
{
    or_halt(call_external(
        &mut run.values,
        &mut run.heap,
        &mut run.host,
        rules.program,
        callee,
        target,
        keys,
        sink,
    ))
}
