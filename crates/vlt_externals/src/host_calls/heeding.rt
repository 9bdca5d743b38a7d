//! What an answer says is done: objects come back, states are set, and the value that it gives is put after all others.

ghost use Rattle.std.specs.Prelude.{◌≡◌, ◌≤◌, ◌+◌, length, IfOk, vec_capacity};
ghost use Rattle.vlt_core.specs.View.{program_of, func_of, keys_of};
ghost use Rattle.vlt_core.specs.Lookups.{variant_in};
ghost use Rattle.vlt_core.specs.Instances.{instance};
ghost use Rattle.vlt_heap.specs.Shown.{IsSound, IsSameSize};
ghost use Rattle.vlt_acts.specs.Values.Shown.{IsTable};
ghost use Rattle.vlt_acts.specs.Frames.Naming.{KeysBelow};
ghost use Rattle.vlt_externals.specs.HostAnswers.Read.{AreSets, AreWithin};
ghost use Rattle.vlt_externals.specs.Results.Results.{FitsResult};
ghost use Rattle.vlt_externals.specs.HostCalls.Heeded.{variant_view, ListsKeys, ComesIn, SetsResult, Heeds, IsSameBelow};

use crate::host_answers::{fitting, read_case};
use crate::results::{put_result, set_case, set_entries, take_case};
use crate::take_back;
use vlt_acts::Values;
use vlt_base::{KeyId, TypeId};
use vlt_core::{Func, Program, Ty};
use vlt_heap::Heap;
use vlt_steps::Stop;

/// The variant that a call gives, with the keys of its header.
fn variant_of(g: &Func) -> Option<(TypeId, &[KeyId])>
    ensures { variant_view result ≡ variant_in (func_of g.now).result }
{
    match &g.result {
        Some(Ty::Var(t, args)) => Some((*t, args.as_slice())),
        Some(Ty::OwnVar(t, args)) => Some((*t, args.as_slice())),
        _ => None,
    }
}

/// The objects of the case come back that the result has; false where one of them isn't out.
fn take_result(
    values: &Values,
    heap: &mut Heap,
    program: &Program,
    g: &Func,
    keys: &[KeyId],
    left: &[i64],
) -> bool
    requires sound { IsSound heap.old }
    requires table { IsTable values.now }
    ensures sound { IsSound heap.new }
    ensures size { IsSameSize heap.old heap.new }
    ensures back { ComesIn (program_of program.now) (func_of g.now) (keys_of keys.now) left.now
        values.now heap.old heap.new result }
{
    match variant_of(g) {
        None => true,
        Some((t, args)) => match read_case(program, t, left) {
            None => true,
            Some(read) => take_case(values, heap, read.decl.keys.as_slice(), args, keys),
        },
    }
}

/// Those objects get their states.
fn set_result(
    values: &Values,
    heap: &mut Heap,
    program: &Program,
    g: &Func,
    keys: &[KeyId],
    left: &[i64],
)
    requires sound { IsSound heap.old }
    requires table { IsTable values.now }
    ensures sound { IsSound heap.new }
    ensures size { IsSameSize heap.old heap.new }
    ensures sets { SetsResult (program_of program.now) (func_of g.now) (keys_of keys.now) left.now
        values.now heap.old heap.new }
{
    match variant_of(g) {
        None => {}
        Some((t, args)) => match read_case(program, t, left) {
            None => {}
            Some(read) => {
                let listed = read.decl.keys.as_slice();
                set_case(values, heap, listed, args, keys, read.left);
            }
        },
    }
}

/// What an answer to a call of the instance of this origin says is done; the value that it gives stands at the end then.
pub fn heed(
    values: &mut Values,
    heap: &mut Heap,
    program: &Program,
    g: &Func,
    origin: Option<u8>,
    keys: &[KeyId],
    answer: &[i64],
    position: u32,
) -> Result<(), Stop>
    requires sound { IsSound heap.old }
    requires table { IsTable values.old }
    requires wide { 1 ≤ values.old.width }
    requires fits { FitsResult (program_of program.now) (func_of g.now) values.old.width }
    requires keys { KeysBelow (keys_of keys.now) (length values.old.slots.items) values.old }
    requires room { length values.old.slots.items + values.old.width ≤
        vec_capacity values.old.slots }
    requires within { AreWithin (program_of program.now) (func_of g.now) origin
        (func_of g.now).clause }
    requires lists { ListsKeys (program_of program.now)
        (instance (program_of program.now) (func_of g.now) origin) (keys_of keys.now) }
    requires sets { AreSets (program_of program.now) (func_of g.now)
        (instance (program_of program.now) (func_of g.now) origin).clause }
    ensures sound { IsSound heap.new }
    ensures size { IsSameSize heap.old heap.new }
    ensures same { IsSameBelow values.old values.new }
    ensures long { IfOk result (λ u. length values.new.slots.items ≡
        length values.old.slots.items + values.old.width) }
    ensures heeds { Heeds (program_of program.now)
        (instance (program_of program.now) (func_of g.now) origin) (keys_of keys.now) position
        answer.now values.old values.new heap.old heap.new result }
{
    let Some(left) = fitting(program, g, origin, answer) else {
        return Err(Stop::BadAnswer(position));
    };
    if !take_back(values, heap, g.clause.as_slice(), keys) {
        return Err(Stop::BadAnswer(position));
    }
    if !take_result(values, heap, program, g, keys, left) {
        return Err(Stop::BadAnswer(position));
    }
    set_entries(
        values,
        heap,
        program,
        g,
        origin,
        g.clause.as_slice(),
        keys,
        answer,
    );
    set_result(values, heap, program, g, keys, left);
    let to = values.len();
    values.grow();
    match put_result(values, heap, program, g, origin, keys, answer, left, to) {
        Ok(()) => Ok(()),
        Err(_) => Err(Stop::HeapEnd),
    }
}
