//! Statements that change whose an object is.

ghost use Rattle.std.specs.Prelude.{◌≡◌, ◌∷◌, [], ℕ};
ghost use Rattle.std.specs.Option.{option_map, option_copied};
ghost use Rattle.vlt_base.specs.States.{has_state};
ghost use Rattle.vlt_core.specs.Core.{release as release_form, drop as drop_form, own as own_form, unpack as unpack_form, adopt as adopt_form};
ghost use Rattle.vlt_core.specs.View.{program_of, operand_of};
ghost use Rattle.vlt_meaning.specs.World as w;
ghost use Rattle.vlt_meaning.specs.Step.{Step, with_dropped};
ghost use Rattle.vlt_meaning.specs.Operands.{owned_in};
ghost use Rattle.vlt_trace_worlds.specs.View.{found_of, named_view, value_view, objects_view, world_view};
ghost use Rattle.vlt_trace_steps.specs.Hands.{Hands};
ghost use Rattle.vlt_trace_steps.specs.Does.{Does};
ghost use Rattle.vlt_trace_steps.specs.Cases.{unpacked_object};

use crate::values::{objects_in, operand};
use std::alloc::Global;
use vlt_base::{StateSet, VarId};
use vlt_core::{Operand, Program};
use vlt_trace_worlds::{
    Frame, Halt, Named, Object, Owner, OwnerTest, Part, Reason, Running, Stop, Value, Wanted,
    World, fill, in_states, object_of, owned_at,
};

/// `release x;` of a tracked variable
pub fn release(
    alloc: Global,
    at: &Running<'_>,
    x: VarId,
    frame: &Frame,
    world: &mut World,
) -> Result<(), Halt>
    ensures { (heap : ℕ) → Does at.now heap (release_form x.0)
        frame.now world.old result frame.now world.new }
{
    let m = object_of(at, Wanted::Any, x, frame, &world.objects)?;
    let n = m.number;
    world.release(alloc, at.program, n)
}

/// An object of a value is released.
fn drop_object(alloc: Global, p: &Program, n: usize, world: &mut World) -> Result<(), Halt>
    ensures { (go : w.World → Step) → Hands
        (with_dropped (program_of p.now) (n ∷ []) (world_view world.old) go) result
        (λ u. go (world_view world.new)) (world_view world.new) }
{
    owned_at(OwnerTest::Loose, &world.objects, n)?;
    world.release(alloc, p, n)
}

/// The objects of a value are released, one after another.
fn drop_all(alloc: Global, p: &Program, ns: &[usize], world: &mut World) -> Result<(), Halt>
    ensures { (go : w.World → Step) → Hands
        (with_dropped (program_of p.now) ns.now (world_view world.old) go) result
        (λ u. go (world_view world.new)) (world_view world.new) }
{
    for n in ns {
        drop_object(alloc, p, *n, world)?;
    }
    Ok(())
}

/// `release v;` of an owning variable
#[tactic(auto, unfolding(vlt_meaning::specs::Step::with_found, vlt_meaning::specs::Step::where_so))]
pub fn drop_value(
    alloc: Global,
    at: &Running<'_>,
    v: VarId,
    frame: &mut Frame,
    world: &mut World,
) -> Result<(), Halt>
    ensures { (heap : ℕ) → Does at.now heap (drop_form v.0)
        frame.old world.old result frame.new world.new }
{
    let Some(a) = frame.var(v) else {
        return Err(Halt::Ends(Stop::Fault(Reason::NoValue, None)));
    };
    let ns = objects_in(alloc, a)?;
    drop_all(alloc, at.program, ns.as_slice(), world)?;
    frame.set_var(v, None)?;
    Ok(())
}

/// An owning variable is filled.
pub fn own(
    alloc: Global,
    at: &Running<'_>,
    v: VarId,
    o: &Operand,
    frame: &mut Frame,
    world: &mut World,
) -> Result<(), Halt>
    ensures { (heap : ℕ) → Does at.now heap (own_form v.0 (operand_of o.now))
        frame.old world.old result frame.new world.new }
{
    let a = operand(alloc, at, o, frame, world)?;
    fill(at, v, a, frame)
}

/// The object of an owning variable's value.
fn owned_in(a: Option<&Value>) -> Result<usize, Stop>
    ensures { found_of (λ n. n) result
        ≡ owned_in (option_map value_view (option_copied a.entry)) }
{
    match a {
        None => Err(Stop::Fault(Reason::NoValue, None)),
        Some(Value::One(part)) => match part {
            Part::Owned(n) => Ok(*n),
            Part::Number(_) => Err(Stop::Fault(Reason::Missing, None)),
            Part::Reference(_) => Err(Stop::Fault(Reason::Missing, None)),
        },
        Some(Value::OfCase { .. }) => Err(Stop::Fault(Reason::Missing, None)),
    }
}

/// The object that a value owns, in one of these states.
fn unpacked_object<'a>(states: StateSet, n: usize, objects: &'a [Object]) -> Result<Named<'a>, Stop>
    ensures { found_of named_view result
        ≡ unpacked_object (has_state states) (objects_view objects.now) n }
{
    match owned_at(OwnerTest::Loose, objects, n) {
        Err(stop) => Err(stop),
        Ok(m) => in_states(states.has(m.object.state), m),
    }
}

/// `tracked(K) T x = v;`
#[tactic(auto, unfolding(vlt_meaning::specs::Step::with_found, vlt_meaning::specs::Step::where_so))]
pub fn unpack(
    at: &Running<'_>,
    x: VarId,
    v: VarId,
    frame: &mut Frame,
    world: &mut World,
) -> Result<(), Halt>
    ensures { (heap : ℕ) → Does at.now heap (unpack_form x.0 v.0)
        frame.old world.old result frame.new world.new }
{
    let Some(r) = at.func.reference(x) else {
        return Err(Halt::Ends(Stop::Fault(Reason::Missing, None)));
    };
    let Some(states) = at.func.owning_states(v) else {
        return Err(Halt::Ends(Stop::Fault(Reason::Missing, None)));
    };
    let n = owned_in(frame.var(v))?;
    unpacked_object(states, n, &world.objects)?;
    let owner = Owner::Held {
        depth: frame.depth,
        key: r.key.0,
    };
    world.set_owner(n, owner);
    frame.set_var(v, None)?;
    frame.set_key(r.key, n)?;
    frame.set_var(x, Some(Value::One(Part::Reference(n))))?;
    Ok(())
}

/// `y = adopt x into r;`
#[tactic(auto, unfolding(vlt_meaning::specs::Step::with_found, vlt_meaning::specs::Step::where_so))]
pub fn adopt(
    at: &Running<'_>,
    y: VarId,
    x: VarId,
    r: VarId,
    frame: &mut Frame,
    world: &mut World,
) -> Result<(), Halt>
    ensures { (heap : ℕ) → Does at.now heap (adopt_form y.0 x.0 r.0)
        frame.old world.old result frame.new world.new }
{
    let n = object_of(at, Wanted::Release, x, frame, &world.objects)?.number;
    let a = object_of(at, Wanted::Any, r, frame, &world.objects)?.number;
    if n == a {
        return Err(Halt::Ends(Stop::Fault(Reason::SameObject, Some(n))));
    }
    world.set_owner(n, Owner::AdoptedBy(a));
    frame.set_var(y, Some(Value::One(Part::Reference(n))))?;
    Ok(())
}
