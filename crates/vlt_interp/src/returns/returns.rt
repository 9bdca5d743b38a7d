//! A function that is left, and its caller, which goes on.

ghost use Rattle.std.specs.Option.{option_map};
ghost use Rattle.std.specs.Prelude.{None};
ghost use Rattle.vlt_core.specs.Core as core;
ghost use Rattle.vlt_core.specs.View.{operand_of};
ghost use Rattle.vlt_heap.specs.Shown.{IsSound};
ghost use Rattle.vlt_meaning.specs.Run.{Setup};
ghost use Rattle.vlt_steps.specs.Writing.{Outside};
ghost use Rattle.vlt_interp.specs.declared.tasks.task.Task.TheVariants.{Back as BackTask};
ghost use Rattle.vlt_interp.specs.Tasks.Moves.{doing, MayDo, Does, IsRightTask, DoesTask};

use crate::tasks::{At, Run};
use vlt_acts::{Waiting, give, leave};
use vlt_core::Operand;
use vlt_steps::Stop;

/// `return o;`
pub fn give_back(value: &Option<Operand>, run: &mut Run) -> Option<Stop>
    requires can { MayDo (core.return (option_map operand_of value.now)) run.old }
    ensures { (s : Setup) (b : Outside) → Does (doing (core.return
        (option_map operand_of value.now))) s run.old run.new b b result }
{
    match give(&mut run.values, run.func, value.as_ref(), &run.heap) {
        Ok(()) => {
            run.at = At::Leaves;
            None
        }
        Err(trap) => Some(Stop::Trap(trap)),
    }
}

/// Back to the caller of a function that was left.
pub fn go_back<'a>(waiting: Waiting<'a>, run: &mut Run<'a, '_>)
    requires sound { IsSound run.old.heap }
    requires right { IsRightTask (BackTask waiting) run.old }
    ensures { (s : Setup) (b : Outside) → DoesTask (BackTask waiting.entry) s run.old run.new b b
        None }
{
    leave(&mut run.values, run.func, &waiting);
    run.func = waiting.func;
    run.depth -= 1;
    run.at = At::Goes;
}
