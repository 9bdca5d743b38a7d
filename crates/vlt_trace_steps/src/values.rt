//! What is handed over: the values of operands, and the objects that values own.

ghost use Rattle.std.specs.Prelude.{◌≡◌, IfOk, map};
ghost use Rattle.std.specs.List.{flat_map};
ghost use Rattle.std.specs.Option.{option_to_list};
ghost use Rattle.vlt_core.specs.Core.{move as move_form};
ghost use Rattle.vlt_core.specs.View.{operand_of, vars_of};
ghost use Rattle.vlt_meaning.specs.World as w;
ghost use Rattle.vlt_meaning.specs.World.{objects_in, objects_in_part};
ghost use Rattle.vlt_meaning_laws.specs.Machine.Got.{operand_got, operands_got, filled_got};
ghost use Rattle.vlt_trace_worlds.specs.View.{frame_view, world_view, value_view, part_view};
ghost use Rattle.vlt_trace_worlds.specs.Running.{program_in, func_in};
ghost use Rattle.vlt_trace_worlds.specs.Steps.{Gives};

use std::alloc::{AllocError, Global};
use vlt_base::{Items, VarId};
use vlt_core::Operand;
use vlt_trace_worlds::{
    Frame, Halt, Owner, Part, Reason, Running, Stop, Value, Wanted, World, copy_of, fill,
    object_of, value,
};

/// The value of a variable, which is empty after it.
fn take_var(
    alloc: Global,
    at: &Running<'_>,
    v: VarId,
    frame: &mut Frame,
    world: &World,
) -> Result<Value, Halt>
    ensures { Gives value_view (operand_got (program_in at.now) (func_in at.now) (move_form v.0)
        (frame_view frame.old) (world_view world.now)) result (frame_view frame.new)
        (world_view world.now) }
{
    let a = copy_of(alloc, frame.var(v), Reason::NoValue)?;
    frame.set_var(v, None)?;
    Ok(a)
}

/// The value of an operand.
pub fn operand(
    alloc: Global,
    at: &Running<'_>,
    o: &Operand,
    frame: &mut Frame,
    world: &mut World,
) -> Result<Value, Halt>
    ensures { Gives value_view (operand_got (program_in at.now) (func_in at.now) (operand_of o.now)
        (frame_view frame.old) (world_view world.old)) result (frame_view frame.new)
        (world_view world.new) }
{
    match o {
        Operand::Pure(e) => value(alloc, e, at, frame, &world.objects),
        Operand::Move(v) => take_var(alloc, at, *v, frame, world),
        Operand::Pack(x, states) => {
            let m = object_of(at, Wanted::These(*states), *x, frame, &world.objects)?;
            let n = m.number;
            world.set_owner(n, Owner::Loose);
            Ok(Value::One(Part::Owned(n)))
        }
    }
}

/// The values of operands, from the left.
pub fn operands(
    alloc: Global,
    at: &Running<'_>,
    os: &[Operand],
    frame: &mut Frame,
    world: &mut World,
) -> Result<Items<Value>, Halt>
    ensures { Gives (map value_view) (operands_got (program_in at.now) (func_in at.now)
        (map operand_of os.now) (frame_view frame.old) (world_view world.old)) result
        (frame_view frame.new) (world_view world.new) }
{
    let mut values = Items::new(alloc);
    for o in os {
        let a = operand(alloc, at, o, frame, world)?;
        values.push(a)?;
    }
    Ok(values)
}

/// The object that a part of a value owns.
fn object_in_part(part: Part) -> Option<usize>
    ensures { option_to_list result ≡ objects_in_part (part_view part) }
{
    match part {
        Part::Owned(n) => Some(n),
        Part::Number(_) => None,
        Part::Reference(_) => None,
    }
}

/// The objects that parts of values own.
fn objects_in_parts(alloc: Global, parts: &[Part]) -> Result<Items<usize>, AllocError>
    ensures { IfOk result (λ ns. ns ≡ flat_map objects_in_part (map part_view parts.now)) }
{
    let mut ns = Items::new(alloc);
    for part in parts {
        if let Some(n) = object_in_part(*part) {
            ns.push(n)?;
        }
    }
    Ok(ns)
}

/// The objects that a value owns.
pub fn objects_in(alloc: Global, a: &Value) -> Result<Items<usize>, AllocError>
    ensures { IfOk result (λ ns. ns ≡ objects_in (value_view a.now)) }
{
    match a {
        Value::One(part) => {
            let mut ns = Items::new(alloc);
            if let Some(n) = object_in_part(*part) {
                ns.push(n)?;
            }
            Ok(ns)
        }
        Value::OfCase { parts, keys, .. } => {
            let mut ns = objects_in_parts(alloc, parts.as_slice())?;
            let ks = Items::from_slice(alloc, keys.as_slice())?;
            ns.append(ks)?;
            Ok(ns)
        }
    }
}

/// The objects that values own.
pub fn all_objects_in(alloc: Global, values: &[Value]) -> Result<Items<usize>, AllocError>
    ensures { IfOk result (λ ns. ns ≡ flat_map objects_in (map value_view values.now)) }
{
    let mut ns = Items::new(alloc);
    for a in values {
        let more = objects_in(alloc, a)?;
        ns.append(more)?;
    }
    Ok(ns)
}

/// Variables get as many values.
pub fn fill_all(
    at: &Running<'_>,
    vs: &[VarId],
    values: Items<Value>,
    frame: &mut Frame,
) -> Result<(), Halt>
    ensures { (v : w.World) → Gives (λ u. u) (filled_got (func_in at.now) (vars_of vs.now)
        (map value_view values) (frame_view frame.old) v) result (frame_view frame.new) v }
{
    let mut values = values;
    match vs.split_first() {
        None => {
            if values.is_empty() {
                Ok(())
            } else {
                Err(Halt::Ends(Stop::Fault(Reason::Missing, None)))
            }
        }
        Some((v, rest)) => {
            if values.is_empty() {
                return Err(Halt::Ends(Stop::Fault(Reason::Missing, None)));
            }
            let a = values.remove(0);
            fill(at, *v, a, frame)?;
            fill_all(at, rest, values, frame)
        }
    }
}
