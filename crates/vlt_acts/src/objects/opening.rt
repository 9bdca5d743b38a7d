//! Objects that are opened into variables.

ghost use Rattle.std.specs.Prelude.{◌≡◌, ◌≤◌, ◌<◌, ◌+◌, ◌^◌, length, map, Ok, IfSome};
ghost use Rattle.std.specs.List.{All};
ghost use Rattle.vlt_core.specs.Core.{open_into as an_open};
ghost use Rattle.vlt_core.specs.View.{program_of, func_of, field_of};
ghost use Rattle.vlt_core.specs.Lookups.{reference_of, fields_of};
ghost use Rattle.vlt_heap.specs.Shown.{IsSound, IsSameSize};
ghost use Rattle.vlt_acts.specs.Values.Shown.{IsTable};
ghost use Rattle.vlt_acts.specs.Acts.Acts.{IsSameFrame};
ghost use Rattle.vlt_acts.specs.Objects.Cases.{DoesFor};
ghost use Rattle.vlt_acts.specs.Objects.Taken.{CanTakeOne, TakesOne, CanTake, TakesAll, IsRightIn};

use crate::objects::owned::free_all;
use crate::values::Values;
use vlt_base::{TypeId, VarId};
use vlt_core::{FieldDecl, Func, Program, TypeDecl};
use vlt_heap::{Heap, Obj, Slot};

/// The fields of a struct, none of any other type.
fn fields<'a>(program: &'a Program, t: TypeId) -> &'a [FieldDecl]
    ensures { map field_of result.now ≡ fields_of (program_of program.now) t.0 }
{
    match program.types.get(t.0 as usize) {
        Some(TypeDecl::Struct { fields, .. }) => fields.as_slice(),
        _ => &[],
    }
}

/// The value of a cell goes into a variable, and its objects leave the object.
fn take_cell(values: &mut Values, heap: &mut Heap, o: Obj, number: u64, i: u32, v: VarId)
    requires sound { IsSound heap.old }
    requires table { IsTable values.old }
    requires within { v.0 < values.old.vars }
    requires can { CanTakeOne heap.old values.old number o.0 i }
    ensures sound { IsSound heap.new }
    ensures size { IsSameSize heap.old heap.new }
    ensures same { IsSameFrame values.old values.new }
    ensures takes { TakesOne number o.0 i v.0 heap.old values.old heap.new values.new }
{
    let to = values.place(v);
    values.copy_cell(o, number, i, to, heap);
    let row = values.values_from(to, 1);
    free_all(heap, row);
}

/// The values of the owning fields, from a cell on, go into variables.
fn take_cells(
    values: &mut Values,
    heap: &mut Heap,
    fields: &[FieldDecl],
    i: u32,
    vs: &[VarId],
    o: Obj,
    number: u64,
)
    requires sound { IsSound heap.old }
    requires table { IsTable values.old }
    requires within { All (λ v. v.0 < values.old.vars) vs.now }
    requires short { i + length fields.now < 2 ^ 32 }
    requires can { CanTake heap.old values.old number o.0 (map field_of fields.now) i
        (length vs.now) }
    ensures sound { IsSound heap.new }
    ensures size { IsSameSize heap.old heap.new }
    ensures same { IsSameFrame values.old values.new }
    ensures takes { TakesAll number o.0 (map field_of fields.now) i (map (λ v. v.0) vs.now)
        heap.old values.old heap.new values.new }
{
    match fields.split_first() {
        None => {}
        Some((d, rest)) => {
            if d.ty.is_owning() {
                match vs.split_first() {
                    None => {}
                    Some((v, more)) => {
                        take_cell(values, heap, o, number, i, *v);
                        take_cells(values, heap, rest, i + 1, more, o, number);
                    }
                }
            } else {
                take_cells(values, heap, rest, i + 1, vs, o, number);
            }
        }
    }
}

/// `open x into v, ..;`: the object ends, and the values of its owning fields go into the variables.
pub fn open_into(
    values: &mut Values,
    heap: &mut Heap,
    program: &Program,
    func: &Func,
    x: VarId,
    vs: &[VarId],
)
    requires sound { IsSound heap.old }
    requires table { IsTable values.old }
    requires within { All (λ v. v.0 < values.old.vars) vs.now }
    requires few { IfSome (reference_of (func_of func.now) x.0)
        (λ r. length (fields_of (program_of program.now) r.type) < 2 ^ 32) }
    requires right { IsRightIn (program_of program.now) (func_of func.now) heap.old values.old
        (an_open x.0 (map (λ v. v.0) vs.now)) }
    ensures sound { IsSound heap.new }
    ensures size { IsSameSize heap.old heap.new }
    ensures same { IsSameFrame values.old values.new }
    ensures does { DoesFor (program_of program.now) (func_of func.now) heap.old values.old
        heap.new values.new (Ok tt) (an_open x.0 (map (λ v. v.0) vs.now)) }
{
    match func.reference(x) {
        None => unreachable!(),
        Some(r) => match values.front(x) {
            Slot::Object(o, number) => {
                take_cells(values, heap, fields(program, r.type_id), 0, vs, o, number);
                heap.release(o);
            }
            Slot::Number(_) => unreachable!(),
            Slot::Owned(..) => unreachable!(),
        },
    }
}
