//! Statements on variables, numbers and fields.

ghost use Rattle.std.specs.Prelude.{ℕ, ℤ};
ghost use Rattle.vlt_core.specs.Core.{set as set_form, input as input_form, print as print_form, put as put_form, become as become_form};
ghost use Rattle.vlt_core.specs.View.{expr_of};
ghost use Rattle.vlt_meaning.specs.World as w;
ghost use Rattle.vlt_meaning.specs.Step.{Step, with_input};
ghost use Rattle.vlt_trace_worlds.specs.View.{world_view};
ghost use Rattle.vlt_trace_worlds.specs.declared.running.Running as running;
ghost use Rattle.vlt_trace_steps.specs.Hands.{Hands};
ghost use Rattle.vlt_trace_steps.specs.Does.{Does};

use std::alloc::Global;
use vlt_base::VarId;
use vlt_core::Expr;
use vlt_trace_worlds::{
    Event, Frame, Halt, Part, Reason, Running, Stop, Value, Wanted, World, number, object_of,
    touchable_object, truth, value,
};

/// `v = e;`
pub fn set(
    alloc: Global,
    at: &Running<'_>,
    v: VarId,
    e: &Expr,
    frame: &mut Frame,
    world: &World,
) -> Result<(), Halt>
    ensures { (heap : ℕ) → Does at.now heap (set_form v.0 (expr_of e.now))
        frame.old world.now result frame.new world.now }
{
    let a = value(alloc, e, at, frame, &world.objects)?;
    frame.set_var(v, Some(a))?;
    Ok(())
}

/// Whether there is more input, or the next number of it.
#[tactic(auto, unfolding(vlt_meaning::specs::Step::with_input, vlt_meaning::specs::Step::first_input))]
fn read(more: bool, world: &mut World) -> Result<i64, Halt>
    ensures { (go : ℤ → w.World → Step) →
        Hands (with_input more (world_view world.old) go) result
        (λ z. go z (world_view world.new)) (world_view world.new) }
{
    if more {
        return Ok(truth(world.has_input()));
    }
    if !world.has_input() {
        return Err(Halt::Ends(Stop::InputEnd));
    }
    match world.take_input() {
        Some(z) => Ok(z),
        None => unreachable!(),
    }
}

/// `v = input();` and `v = more();`
pub fn input(v: VarId, more: bool, frame: &mut Frame, world: &mut World) -> Result<(), Halt>
    ensures { (at : running.Running) (heap : ℕ) → Does at heap (input_form v.0 more)
        frame.old world.old result frame.new world.new }
{
    let z = read(more, world)?;
    frame.set_var(v, Some(Value::One(Part::Number(z))))?;
    Ok(())
}

/// `print(e);`
pub fn print(at: &Running<'_>, e: &Expr, frame: &Frame, world: &mut World) -> Result<(), Halt>
    ensures { (heap : ℕ) → Does at.now heap (print_form (expr_of e.now))
        frame.now world.old result frame.now world.new }
{
    let z = number(e, at, frame, &world.objects)?;
    world.tell(Event::Printed(z))
}

/// `x.f = e;`
pub fn put(
    alloc: Global,
    at: &Running<'_>,
    x: VarId,
    i: u32,
    e: &Expr,
    frame: &Frame,
    world: &mut World,
) -> Result<(), Halt>
    ensures { (heap : ℕ) → Does at.now heap (put_form x.0 i (expr_of e.now))
        frame.now world.old result frame.now world.new }
{
    let a = value(alloc, e, at, frame, &world.objects)?;
    let m = touchable_object(at, x, i, frame, &world.objects)?;
    let n = m.number;
    if (i as usize) < m.object.cells.len() {
        world.set_cell(n, i, a);
        Ok(())
    } else {
        Err(Halt::Ends(Stop::Fault(Reason::Missing, Some(n))))
    }
}

/// `become x@s;`
pub fn become_state(
    at: &Running<'_>,
    x: VarId,
    state: u8,
    frame: &Frame,
    world: &mut World,
) -> Result<(), Halt>
    ensures { (heap : ℕ) → Does at.now heap (become_form x.0 state)
        frame.now world.old result frame.now world.new }
{
    let m = object_of(at, Wanted::Any, x, frame, &world.objects)?;
    let n = m.number;
    world.set_state(n, state);
    Ok(())
}
