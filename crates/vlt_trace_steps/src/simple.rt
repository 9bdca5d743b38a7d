//! A statement without blocks that calls nothing.

ghost use Rattle.std.specs.Prelude.{◌≡◌, true};
ghost use Rattle.vlt_core.specs.Core.{Simple, simple};
ghost use Rattle.vlt_core.specs.View.{form_of};
ghost use Rattle.vlt_trace_steps.specs.Does.{Does, is_simple};

use crate::objects::{make, open_into, swap};
use crate::owned::{adopt, drop_value, own, release, unpack};
use crate::plain::{become_state, input, print, put, set};
use crate::variants::build;
use std::alloc::Global;
use vlt_core::Form;
use vlt_trace_worlds::{Frame, Halt, Running, World};

/// What the statement does.
pub fn do_simple(
    alloc: Global,
    heap: u32,
    at: &Running<'_>,
    form: &Form,
    frame: &mut Frame,
    world: &mut World,
) -> Result<(), Halt>
    requires { is_simple (form_of form.now) ≡ true }
    ensures { (s : Simple) → form_of form.now ≡ simple s →
        Does at.now heap s frame.old world.old result frame.new world.new }
{
    match form {
        Form::Set { v, e } => set(alloc, at, *v, e, frame, world),
        Form::Input { v, more } => input(*v, *more, frame, world),
        Form::Print { e } => print(at, e, frame, world),
        Form::Put { x, field, e } => put(alloc, at, *x, *field, e, frame, world),
        Form::New { x, args } => make(alloc, heap, at, *x, args.as_slice(), frame, world),
        Form::Become { x, state } => become_state(at, *x, *state, frame, world),
        Form::Release { x } => release(alloc, at, *x, frame, world),
        Form::Drop { v } => drop_value(alloc, at, *v, frame, world),
        Form::Own { v, value } => own(alloc, at, *v, value, frame, world),
        Form::Unpack { x, v } => unpack(at, *x, *v, frame, world),
        Form::Build { v, case, args } => build(alloc, at, *v, *case, args.as_slice(), frame, world),
        Form::Swap { x, field, v } => swap(alloc, at, *x, *field, *v, frame, world),
        Form::Open { x, into } => open_into(alloc, at, *x, into.as_slice(), frame, world),
        Form::Adopt { y, x, r } => adopt(at, *y, *x, *r, frame, world),
        _ => unreachable!(),
    }
}
