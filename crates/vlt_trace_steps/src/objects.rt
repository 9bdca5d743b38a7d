//! Statements on objects with owning fields.

ghost use Rattle.std.specs.Prelude.{◌≡◌, ◌++◌, ℕ, IfOk, OnOk, map};
ghost use Rattle.std.specs.List.{list_all};
ghost use Rattle.std.specs.Result.{is_ok};
ghost use Rattle.vlt_core.specs.Core.{make as make_form, swap as swap_form, open_into as open_form};
ghost use Rattle.vlt_core.specs.View.{program_of, operand_of, vars_of, field_of};
ghost use Rattle.vlt_core.specs.Lookups.{fields_of};
ghost use Rattle.vlt_core.specs.LookupViews.{reference_view};
ghost use Rattle.vlt_meaning.specs.World as w;
ghost use Rattle.vlt_meaning.specs.World.{is_loose};
ghost use Rattle.vlt_meaning.specs.Objects.{owned_at};
ghost use Rattle.vlt_meaning.specs.Operands.{owning_cells};
ghost use Rattle.vlt_meaning.specs.Run.{Setup, made_in, swap_step, open_step};
ghost use Rattle.vlt_trace_worlds.specs.View.{value_view, objects_view, frame_view, world_view};
ghost use Rattle.vlt_trace_worlds.specs.Running.{func_in, setup_in};
ghost use Rattle.vlt_trace_worlds.specs.Steps.{Goes};
ghost use Rattle.vlt_trace_steps.specs.Does.{Does};

use crate::values::{all_objects_in, fill_all, objects_in, operands};
use std::alloc::{AllocError, Global};
use vlt_base::{Items, TypeId, VarId};
use vlt_core::{FieldDecl, Operand, Program, Reference, TypeDecl};
use vlt_trace_worlds::{
    Frame, Halt, Object, Owner, OwnerTest, Part, Reason, Running, Stop, Value, Wanted, World,
    copy_of, copy_value, object_of, owned_at,
};

/// The fields of a struct; none of any other type.
fn fields<'a>(p: &'a Program, t: TypeId) -> &'a [FieldDecl]
    ensures { map field_of result.now ≡ fields_of (program_of p.now) t.0 }
{
    match p.types.get(t.0 as usize) {
        Some(TypeDecl::Struct { fields, .. }) => fields.as_slice(),
        _ => &[],
    }
}

/// An object in its first state, with its owning values' objects in it.
fn make_from(
    alloc: Global,
    heap: u32,
    q: Reference,
    x: VarId,
    cells: Items<Value>,
    frame: &mut Frame,
    world: &mut World,
) -> Result<(), Halt>
    ensures { (s : Setup) → s.heap ≡ heap → Goes (made_in s (reference_view q) x.0
        (map value_view cells) (frame_view frame.old) (world_view world.old)) result
        (frame_view frame.new) (world_view world.new) }
{
    let ns = all_objects_in(alloc, cells.as_slice())?;
    let owner = Owner::Held {
        depth: frame.depth,
        key: q.key.0,
    };
    let n = world.make(
        heap,
        Object {
            type_id: q.type_id,
            state: 0,
            cells,
            owner,
        },
    )?;
    world.move_all(OwnerTest::Loose, Owner::Inside(n), ns.as_slice())?;
    frame.set_key(q.key, n)?;
    frame.set_var(x, Some(Value::One(Part::Reference(n))))?;
    Ok(())
}

/// `tracked(K) T x = new T { .. };`
#[tactic(auto, unfolding(vlt_meaning::specs::Step::with_found, vlt_meaning::specs::Step::where_so))]
pub fn make(
    alloc: Global,
    heap: u32,
    at: &Running<'_>,
    x: VarId,
    args: &[Operand],
    frame: &mut Frame,
    world: &mut World,
) -> Result<(), Halt>
    ensures { Does at.now heap (make_form x.0 (map operand_of args.now))
        frame.old world.old result frame.new world.new }
{
    let Some(q) = at.func.reference(x) else {
        return Err(Halt::Ends(Stop::Fault(Reason::Missing, None)));
    };
    if args.len() != fields(at.program, q.type_id).len() {
        return Err(Halt::Ends(Stop::Fault(Reason::Missing, None)));
    }
    let cells = operands(alloc, at, args, frame, world)?;
    make_from(alloc, heap, q, x, cells, frame, world)
}

/// Whether values own each of these objects.
fn are_loose(ns: &[usize], objects: &[Object]) -> bool
    ensures { result
        ≡ list_all (λ n. is_ok (owned_at is_loose (objects_view objects.now) n)) ns.now }
{
    for n in ns {
        if owned_at(OwnerTest::Loose, objects, *n).is_err() {
            return false;
        }
    }
    true
}

/// A cell gets a new value, and a variable the old one. The new one's objects are loose before the old one's are.
fn swap_values(
    alloc: Global,
    n: usize,
    i: u32,
    v: VarId,
    old: Value,
    new: Value,
    frame: &mut Frame,
    world: &mut World,
) -> Result<(), Halt>
    ensures { (o : w.Object) → Goes (swap_step i v.0 (record { number = n; object = o })
        (value_view old) (value_view new) (frame_view frame.old) (world_view world.old)) result
        (frame_view frame.new) (world_view world.new) }
{
    let out = objects_in(alloc, &old)?;
    let into = objects_in(alloc, &new)?;
    if !are_loose(into.as_slice(), &world.objects) {
        return Err(Halt::Ends(Stop::Fault(Reason::NotOwned, None)));
    }
    world.move_all(OwnerTest::Inside(n), Owner::Loose, out.as_slice())?;
    world.move_all(OwnerTest::Loose, Owner::Inside(n), into.as_slice())?;
    world.set_cell(n, i, new);
    frame.set_var(v, Some(old))?;
    Ok(())
}

/// `swap x.f, v;`
#[tactic(auto, unfolding(vlt_meaning::specs::Step::with_found, vlt_meaning::specs::Step::where_so))]
pub fn swap(
    alloc: Global,
    at: &Running<'_>,
    x: VarId,
    i: u32,
    v: VarId,
    frame: &mut Frame,
    world: &mut World,
) -> Result<(), Halt>
    ensures { (heap : ℕ) → Does at.now heap (swap_form x.0 i v.0)
        frame.old world.old result frame.new world.new }
{
    let m = object_of(at, Wanted::Field(i), x, frame, &world.objects)?;
    let n = m.number;
    let old = copy_of(alloc, m.object.cells.get(i as usize), Reason::Missing)?;
    let new = copy_of(alloc, frame.var(v), Reason::NoValue)?;
    swap_values(alloc, n, i, v, old, new, frame, world)
}

/// Puts copies of the values of the fields that own something.
fn push_owning(
    alloc: Global,
    fields: &[FieldDecl],
    cells: &[Value],
    values: &mut Items<Value>,
) -> Result<(), AllocError>
    ensures { OnOk result (map value_view values.new ≡ map value_view values.old
        ++ owning_cells (map field_of fields.now) (map value_view cells.now)) }
{
    match fields.split_first() {
        None => Ok(()),
        Some((d, later_fields)) => match cells.split_first() {
            None => Ok(()),
            Some((a, later_cells)) => {
                if d.ty.is_owning() {
                    let copy = copy_value(alloc, a)?;
                    values.push(copy)?;
                    push_owning(alloc, later_fields, later_cells, values)
                } else {
                    push_owning(alloc, later_fields, later_cells, values)
                }
            }
        },
    }
}

/// Copies of the values of the fields that own something.
fn owning_cells(
    alloc: Global,
    fields: &[FieldDecl],
    cells: &[Value],
) -> Result<Items<Value>, AllocError>
    ensures { IfOk result (λ values. map value_view values
        ≡ owning_cells (map field_of fields.now) (map value_view cells.now)) }
{
    let mut values = Items::new(alloc);
    push_owning(alloc, fields, cells, &mut values)?;
    Ok(values)
}

/// The values of an object's owning fields go into the variables; the object ends, and all that it adopted.
fn open_object(
    alloc: Global,
    at: &Running<'_>,
    n: usize,
    cells: Items<Value>,
    vs: &[VarId],
    frame: &mut Frame,
    world: &mut World,
) -> Result<(), Halt>
    ensures { (heap depth : ℕ) → Goes (open_step (setup_in at.now heap depth) n
        (map value_view cells) (func_in at.now) (vars_of vs.now) (frame_view frame.old)
        (world_view world.old)) result (frame_view frame.new) (world_view world.new) }
{
    let ns = all_objects_in(alloc, cells.as_slice())?;
    world.move_all(OwnerTest::Inside(n), Owner::Loose, ns.as_slice())?;
    world.release(alloc, at.program, n)?;
    fill_all(at, vs, cells, frame)
}

/// `open x into (..);`
#[tactic(auto, unfolding(vlt_meaning::specs::Step::with_found, vlt_meaning::specs::Step::where_so))]
pub fn open_into(
    alloc: Global,
    at: &Running<'_>,
    x: VarId,
    vs: &[VarId],
    frame: &mut Frame,
    world: &mut World,
) -> Result<(), Halt>
    ensures { (heap : ℕ) → Does at.now heap (open_form x.0 (vars_of vs.now))
        frame.old world.old result frame.new world.new }
{
    let Some(q) = at.func.reference(x) else {
        return Err(Halt::Ends(Stop::Fault(Reason::Missing, None)));
    };
    let m = object_of(at, Wanted::Any, x, frame, &world.objects)?;
    let n = m.number;
    let cells = owning_cells(
        alloc,
        fields(at.program, q.type_id),
        m.object.cells.as_slice(),
    )?;
    open_object(alloc, at, n, cells, vs, frame, world)
}
