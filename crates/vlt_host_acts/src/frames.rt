//! Frames of functions that a host calls.

ghost use Rattle.std.specs.Prelude.{◌≡◌, ◌≤◌, ◌<◌, ◌+◌, ◌*◌, ◌^◌, ℕ, List, map, length, true, Some, None, slice_get, vec_capacity};
ghost use Rattle.vlt_core.specs.Core.{Ty as ATy};
ghost use Rattle.vlt_core.specs.View.{func_of, ty_of};
ghost use Rattle.vlt_heap.specs.Items.{Items};
ghost use Rattle.vlt_meaning.specs.World.{Object, Part, one, reference};
ghost use Rattle.vlt_acts.specs.Values.Parts.{HasPart, HasPartAt, HaveValue, IsObject};
ghost use Rattle.vlt_acts.specs.Values.Pushed.{HaveValues};
ghost use Rattle.vlt_acts.specs.Values.Shown.{IsGrown, key_at};
ghost use Rattle.vlt_acts.specs.Frames.Frames.{frame_end, IsRunning};
ghost use Rattle.vlt_host_meaning.specs.Calls.{value_of_argument};
ghost use Rattle.vlt_host_meaning.specs.Tables.{argument_of};
ghost use Rattle.vlt_host_meaning.specs.HostFrame.{host_holds};
ghost use Rattle.vlt_host_meaning.specs.Permitted.{argument_fits, arguments_fit, argument_binding, object_of_key};
ghost use Rattle.vlt_host_acts.specs.Permits.Arguments.{types_in, bindings_in};
ghost use Rattle.vlt_host_acts.specs.Permits.Hosted.{ShowsHosted, IsHosted};
ghost use Rattle.vlt_host_acts.specs.Frames.{ShowsCalled, part_of_argument, AreKeysSet};

use crate::permits::{Hosted, parameters, position};
use vlt_acts::Values;
use vlt_core::{Func, Ty, VarDecl};
use vlt_heap::Slot;
use vlt_host_meaning::HostArg;

/// A slot that goes to the object of this number, if the host holds it.
fn object_slot(hosted: &Hosted, number: u64) -> Slot
    requires hosted { IsHosted hosted.now }
    ensures { (objects : List Object) (s : ShowsHosted hosted.now objects) →
        host_holds objects number ≡ true → IsObject s.items number result }
{
    match hosted.find(number) {
        Some(o) => Slot::Object(o, number),
        None => Slot::Number(0),
    }
}

/// The slot of an argument.
fn slot_of(hosted: &Hosted, a: HostArg) -> Slot
    requires hosted { IsHosted hosted.now }
    ensures { (objects : List Object) (s : ShowsHosted hosted.now objects) (ty : ATy) →
        argument_fits objects ty (argument_of a) ≡ true →
        HasPart s.items (part_of_argument (argument_of a)) result }
{
    match a {
        HostArg::Number(z) => Slot::Number(z),
        HostArg::Object(n) => object_slot(hosted, position(n)),
    }
}

/// Puts a value of one part at the end.
fn push_single(values: &mut Values, front: Slot)
    requires wide { 1 ≤ values.old.width }
    requires room { length values.old.slots.items + values.old.width ≤
        vec_capacity values.old.slots }
    ensures grown { IsGrown values.old values.new }
    ensures long { length values.new.slots.items ≡
        length values.old.slots.items + values.old.width }
    ensures room { vec_capacity values.old.slots ≤ vec_capacity values.new.slots }
    ensures value { (items : Items) (p : Part) → HasPart items p front →
        HaveValue items values.new.slots.items (length values.old.slots.items)
        values.old.width (one p) }
{
    let to = values.len();
    values.grow();
    values.put_single(to, front);
}

/// Puts the values of arguments at the end.
fn push_args(values: &mut Values, hosted: &Hosted, args: &[HostArg])
    requires hosted { IsHosted hosted.now }
    requires wide { 1 ≤ values.old.width }
    requires room { length values.old.slots.items + length args.now * values.old.width ≤
        vec_capacity values.old.slots }
    ensures grown { IsGrown values.old values.new }
    ensures long { length values.new.slots.items ≡
        length values.old.slots.items + length args.now * values.old.width }
    ensures room { vec_capacity values.old.slots ≤ vec_capacity values.new.slots }
    ensures given { (objects : List Object) (s : ShowsHosted hosted.now objects)
        (tys : List ATy) → arguments_fit objects tys (map argument_of args.now) ≡ true →
        HaveValues s.items values.new.slots.items (length values.old.slots.items)
        values.old.width (map value_of_argument (map argument_of args.now)) }
{
    match args.split_first() {
        None => {}
        Some((a, rest)) => {
            let front = slot_of(hosted, *a);
            push_single(values, front);
            push_args(values, hosted, rest);
        }
    }
}

/// The key of a parameter names the object that is given for it, if it is one of so many keys.
fn name_key(values: &mut Values, hosted: &Hosted, ty: &Ty, a: HostArg, keys: usize)
    requires hosted { IsHosted hosted.now }
    requires within { key_at values.old 0 + keys ≤ length values.old.slots.items }
    ensures set { AreKeysSet keys values.old values.new }
    ensures named { (objects : List Object) (s : ShowsHosted hosted.now objects) →
        argument_fits objects (ty_of ty.now) (argument_of a) ≡ true → (k n : ℕ) → k < keys →
        object_of_key (argument_binding (ty_of ty.now) (argument_of a)) k ≡ Some n →
        HasPartAt s.items values.new.slots.items (key_at values.old k) (reference n) }
    ensures others { (k : ℕ) →
        object_of_key (argument_binding (ty_of ty.now) (argument_of a)) k ≡ None →
        slice_get values.new.slots.items (key_at values.old k) ≡
        slice_get values.old.slots.items (key_at values.old k) }
{
    if let Ty::Key(k, _, _) = ty {
        if let HostArg::Object(n) = a {
            if (k.0 as usize) < keys {
                let slot = object_slot(hosted, position(n));
                values.put_key(*k, slot);
            }
        }
    }
}

/// The keys of all parameters do, each the first one that is given for it.
fn name_keys(
    values: &mut Values,
    hosted: &Hosted,
    params: &[VarDecl],
    args: &[HostArg],
    keys: usize,
)
    requires hosted { IsHosted hosted.now }
    requires within { key_at values.old 0 + keys ≤ length values.old.slots.items }
    ensures set { AreKeysSet keys values.old values.new }
    ensures named { (objects : List Object) (s : ShowsHosted hosted.now objects) →
        arguments_fit objects (types_in params.now) (map argument_of args.now) ≡ true →
        (k n : ℕ) → k < keys → object_of_key (bindings_in params.now args.now) k ≡ Some n →
        HasPartAt s.items values.new.slots.items (key_at values.old k) (reference n) }
{
    match params.split_first() {
        None => {}
        Some((d, ds)) => match args.split_first() {
            None => {}
            Some((a, rest)) => {
                name_keys(values, hosted, ds, rest, keys);
                name_key(values, hosted, &d.ty, *a, keys);
            }
        },
    }
}

/// The frame of a function that a host calls, whose arguments fit, in a table without frames.
pub fn start_called(values: &mut Values, hosted: &Hosted, f: &Func, args: &[HostArg])
    requires hosted { IsHosted hosted.now }
    requires few { length (func_of f.now).vars < 2 ^ 32 }
    requires count { length args.now ≤ length (func_of f.now).vars }
    requires wide { 1 ≤ values.old.width }
    requires empty { length values.old.slots.items ≡ 0 }
    requires room { frame_end values.old.width 0 (func_of f.now) ≤ vec_capacity values.old.slots }
    ensures running { IsRunning values.new (func_of f.now) 0 }
    ensures base { values.new.base ≡ 0 }
    ensures width { values.new.width ≡ values.old.width }
    ensures room { vec_capacity values.old.slots ≤ vec_capacity values.new.slots }
    ensures shows { ShowsCalled hosted.now (func_of f.now) (map argument_of args.now)
        values.new }
{
    let vars = f.vars.len();
    let keys = f.keys.len();
    push_args(values, hosted, args);
    values.grow_to(vars * values.width() as usize + keys);
    values.run(0, vars as u32);
    name_keys(values, hosted, parameters(f), args, keys);
}
