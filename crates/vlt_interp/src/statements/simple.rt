//! Statements without blocks.

ghost use Rattle.std.specs.Prelude.{◌≡◌, true};
ghost use Rattle.vlt_core.specs.View.{form_of};
ghost use Rattle.vlt_steps.specs.Writing.{Outside};
ghost use Rattle.vlt_interp.specs.Tasks.Moves.{doing, CanDo, DoesFor};
ghost use Rattle.vlt_interp.specs.Statements.Simple.{is_simple, is_quiet};

use crate::tasks::{Rules, Run, or_full, or_halt, or_trap};
use vlt_acts::{
    adopt, become_state, build, drop_value, fill, input, make, open_into, print, put, release, set,
    swap, unpack,
};
use vlt_core::Form;
use vlt_io::Sink;
use vlt_steps::Stop;

/// A statement that neither traps nor ends the run.
fn rearrange(rules: &Rules, form: &Form, run: &mut Run)
    requires quiet { is_quiet (form_of form.now) ≡ true }
    requires can { CanDo (form_of form.now) rules.now run.old }
    ensures { (b : Outside) → DoesFor (doing (form_of form.now)) rules.now run.old run.new b b
        None }
{
    match form {
        Form::Become { x, state } => become_state(&run.values, &mut run.heap, *x, *state),
        Form::Release { x } => release(&run.values, &mut run.heap, *x),
        Form::Drop { v } => drop_value(&run.values, &mut run.heap, *v),
        Form::Unpack { x, v } => unpack(&mut run.values, run.func, *x, *v),
        Form::Swap { x, field, v } => swap(&mut run.values, &mut run.heap, *x, *field, *v),
        Form::Open { x, into } => open_into(
            &mut run.values,
            &mut run.heap,
            rules.program,
            run.func,
            *x,
            into.as_slice(),
        ),
        Form::Adopt { y, x, r } => adopt(&mut run.values, &mut run.heap, *y, *x, *r),
        _ => unreachable!(),
    }
}

/// A statement without blocks that calls nothing.
pub fn do_simple<K: Sink>(rules: &Rules, form: &Form, run: &mut Run, sink: &mut K) -> Option<Stop>
    requires simple { is_simple (form_of form.now) ≡ true }
    requires can { CanDo (form_of form.now) rules.now run.old }
    ensures { DoesFor (doing (form_of form.now)) rules.now run.old run.new
        (record { written = K.written sink.old; faults = K.faults sink.old })
        (record { written = K.written sink.new; faults = K.faults sink.new }) result }
{
    match form {
        Form::Set { v, e } => or_trap(set(&mut run.values, &run.heap, *v, e)),
        Form::Input { v, more } => or_halt(input(&mut run.values, &mut run.host, *v, *more)),
        Form::Print { e } => or_halt(print(&run.values, &run.heap, e, sink)),
        Form::Put { x, field, e } => or_trap(put(&mut run.values, &mut run.heap, *x, *field, e)),
        Form::New { x, args } => or_full(make(
            &mut run.values,
            &mut run.heap,
            run.func,
            *x,
            args.as_slice(),
        )),
        Form::Own { v, value } => or_trap(fill(&mut run.values, &run.heap, *v, value)),
        Form::Build { v, case, args } => or_trap(build(
            &mut run.values,
            &run.heap,
            rules.program,
            run.func,
            *v,
            *case,
            args.as_slice(),
        )),
        _ => {
            rearrange(rules, form, run);
            None
        }
    }
}
