//! Functions with a body, which are entered.

ghost use Rattle.std.specs.Prelude.{◌≡◌};
ghost use Rattle.std.specs.Option.{option_map};
ghost use Rattle.vlt_core.specs.View.{func_of, keys_of};
ghost use Rattle.vlt_steps.specs.Writing.{Outside};
ghost use Rattle.vlt_interp.specs.Calls.Called.{entering_body, CanGoIn, DoesIn};

use crate::tasks::{Rules, Run, Task};
use vlt_acts::enter;
use vlt_base::{KeyId, VarId};
use vlt_core::Func;
use vlt_steps::{Stop, put};

/// A function with a body is entered where the depth allows; the values of its arguments stand after the frame.
pub fn enter_body<'a>(
    rules: &Rules<'a>,
    callee: &'a Func,
    target: Option<VarId>,
    keys: &'a [KeyId],
    run: &mut Run<'a, '_>,
) -> Option<Stop>
    requires can { CanGoIn (entering_body (option_map (λ v. v.0) target) (keys_of keys.now)
        (func_of callee.now)) (func_of callee.now) (option_map (λ v. v.0) target)
        (keys_of keys.now) rules.now run.old }
    ensures { (b : Outside) → DoesIn (entering_body (option_map (λ v. v.0) target)
        (keys_of keys.now) (func_of callee.now)) (func_of callee.now) (keys_of keys.now)
        rules.now run.old run.new b b result }
{
    if run.depth >= rules.depth {
        return Some(Stop::DepthEnd);
    }
    let waiting = enter(&mut run.values, run.func, callee, target, keys);
    put(&mut run.tasks, Task::Back(waiting));
    put(&mut run.tasks, Task::List(callee.body.as_slice()));
    run.func = callee;
    run.depth += 1;
    None
}
