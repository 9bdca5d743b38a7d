//! What a call gives: a number, a new object, or a value of a variant.

ghost use Rattle.std.specs.Prelude.{◌≡◌, ◌≤◌, ◌<◌, ◌+◌, ◌*◌, length, map, pos, IfSome, Some};
ghost use Rattle.vlt_core.specs.View.{program_of, func_of, entry_of, ty_of, keys_of, case_key_of, case_of};
ghost use Rattle.vlt_core.specs.Instances.{instance};
ghost use Rattle.vlt_meaning.specs.Externals.{type_in};
ghost use Rattle.vlt_heap.specs.Shown.{IsSound, IsSameSize};
ghost use Rattle.vlt_acts.specs.Values.Shown.{IsTable, IsRowSet, IsKept, key_at};
ghost use Rattle.vlt_acts.specs.Acts.Acts.{IsSameFrame};
ghost use Rattle.vlt_acts.specs.Frames.Naming.{KeysBelow};
ghost use Rattle.vlt_externals.specs.HostAnswers.Read.{AreSets, entries_in, AreWithin, piece_view};
ghost use Rattle.vlt_externals.specs.Results.Results.{IsListed, binding_of, NamesNew, MakesIn, MakesPart, PutsPieces, PutsKeys, PutsCase, PutsNew, PutsPiece, FitCases, PutsVariant, PutsFresh, FitsResult, PutsResult};

use crate::caller_key;
use crate::host_answers::{
    CaseRead, Piece, entry_state, following_keys, is_held_after, read_case, read_piece,
};
use crate::results::keys::{case_key, is_new};
use vlt_acts::Values;
use vlt_base::{HeapEnd, KeyId, StateSet, TypeId};
use vlt_core::{Entry, Func, Program, Ty};
use vlt_heap::{Heap, Obj, Slot};

/// A key that names a new object, and the object's state.
#[derive(Clone, Copy)]
pub struct NewKey {
    pub key: KeyId,
    pub state: u8,
}

/// The caller's key for the key of a `new` entry, with the state that the answer gives its object, in the instance of this
/// origin.
fn new_key(
    program: &Program,
    g: &Func,
    origin: Option<u8>,
    entries: &[Entry],
    keys: &[KeyId],
    left: &[i64],
) -> Option<NewKey>
    requires within { AreWithin (program_of program.now) (func_of g.now) origin
        (map entry_of entries.now) }
    ensures listed { IfSome result (λ n. IsListed (keys_of keys.now) n.key.0) }
    ensures names { AreSets (program_of program.now) (func_of g.now) (entries_in
        (program_of program.now) (func_of g.now) origin (map entry_of entries.now)) →
        NamesNew (program_of program.now) (func_of g.now) (keys_of keys.now) (entries_in
        (program_of program.now) (func_of g.now) origin (map entry_of entries.now)) left.now
        result }
{
    match entries.split_first() {
        None => None,
        Some((first, rest)) => {
            let e = program.entry_in(g, origin, *first);
            if !is_held_after(&e) {
                return new_key(program, g, origin, rest, keys, left);
            }
            match entry_state(program, g, &e, left) {
                None => None,
                Some((state, left)) => {
                    if !is_new(&e) {
                        return new_key(program, g, origin, rest, keys, left);
                    }
                    match caller_key(keys, e.key) {
                        None => None,
                        Some(key) => Some(NewKey { key, state }),
                    }
                }
            }
        }
    }
}

/// A new object of a type, in a state, with its number.
fn make_in(heap: &mut Heap, t: TypeId, state: u8) -> Result<(Obj, u64), HeapEnd>
    requires sound { IsSound heap.old }
    ensures sound { IsSound heap.new }
    ensures size { IsSameSize heap.old heap.new }
    ensures makes { MakesIn t.0 state heap.old heap.new result }
{
    match heap.new_object(t) {
        Err(e) => Err(e),
        Ok(o) => {
            let number = heap.number(o);
            heap.become_state(o, state);
            Ok((o, number))
        }
    }
}

/// The type of the objects that a type speaks of.
fn type_in(t: &Ty) -> TypeId
    ensures { result.0 ≡ type_in (Some (ty_of t.now)) }
{
    match t {
        Ty::Key(_, t, _) => *t,
        Ty::Own(_, t, _) => *t,
        Ty::Int | Ty::Bool | Ty::Guard(..) | Ty::Var(..) | Ty::OwnVar(..) => TypeId(0),
    }
}

/// The slot of what was read; a new object is made.
fn slot_of(heap: &mut Heap, t: &Ty, piece: Piece) -> Result<Slot, HeapEnd>
    requires sound { IsSound heap.old }
    ensures sound { IsSound heap.new }
    ensures size { IsSameSize heap.old heap.new }
    ensures makes { MakesPart (type_in (Some (ty_of t.now))) (piece_view piece) heap.old heap.new
        result }
{
    match piece {
        Piece::Plain(z) => Ok(Slot::Number(z)),
        Piece::New(state) => match make_in(heap, type_in(t), state) {
            Err(e) => Err(e),
            Ok((o, number)) => Ok(Slot::Owned(o, number)),
        },
    }
}

/// Puts a payload into slots one after another.
fn put_pieces(
    values: &mut Values,
    heap: &mut Heap,
    payload: &[Ty],
    left: &[i64],
    to: usize,
) -> Result<(), HeapEnd>
    requires sound { IsSound heap.old }
    requires there { to + length payload.now ≤ length values.old.slots.items }
    ensures sound { IsSound heap.new }
    ensures size { IsSameSize heap.old heap.new }
    ensures set { IsRowSet to (length payload.now) values.old values.new }
    ensures puts { PutsPieces (map ty_of payload.now) left.now to values.old values.new
        heap.old heap.new result }
{
    match payload.split_first() {
        None => Ok(()),
        Some((t, rest)) => match read_piece(t, left) {
            None => Ok(()),
            Some((p, left)) => match slot_of(heap, t, p) {
                Err(e) => Err(e),
                Ok(a) => {
                    values.set_slot(to, a);
                    put_pieces(values, heap, rest, left, to + 1)
                }
            },
        },
    }
}

/// Puts the objects of a case's keys into slots one after another, as ones that a value owns.
fn put_keys(
    values: &mut Values,
    listed: &[(u32, StateSet)],
    args: &[KeyId],
    keys: &[KeyId],
    to: usize,
)
    requires table { IsTable values.old }
    requires there { to + length listed.now ≤ length values.old.slots.items }
    ensures set { IsRowSet to (length listed.now) values.old values.new }
    ensures puts { PutsKeys (keys_of keys.now) (keys_of args.now) (map case_key_of listed.now) to
        values.old values.new }
{
    match listed.split_first() {
        None => {}
        Some((k, rest)) => match case_key(args, keys, k.0) {
            None => {}
            Some(key) => {
                let a = values.key_slot(key).packed();
                values.set_slot(to, a);
                put_keys(values, rest, args, keys, to + 1);
            }
        },
    }
}

/// Puts a value of a variant into the slots from a position on; this is the number of its case.
fn put_case(
    values: &mut Values,
    heap: &mut Heap,
    number: i64,
    read: CaseRead,
    args: &[KeyId],
    keys: &[KeyId],
    to: usize,
) -> Result<(), HeapEnd>
    requires sound { IsSound heap.old }
    requires table { IsTable values.old }
    requires number { number ≡ pos read.case }
    requires fits { 1 + length (case_of read.decl.now).payload + length (case_of read.decl.now).keys
        ≤ values.old.width }
    requires there { to + values.old.width ≤ length values.old.slots.items }
    ensures sound { IsSound heap.new }
    ensures size { IsSameSize heap.old heap.new }
    ensures kept { IsKept to values.old values.new }
    ensures puts { PutsCase (keys_of keys.now) (keys_of args.now) read.entry.case
        (case_of read.entry.decl.now) read.entry.left.now to
        values.old values.new heap.old heap.new result }
{
    let listed = read.decl.keys.as_slice();
    let payload = read.decl.payload.as_slice();
    values.put_single(to, Slot::Number(number));
    match following_keys(listed, read.left) {
        None => Ok(()),
        Some(left) => match put_pieces(values, heap, payload, left, to + 1) {
            Err(e) => Err(e),
            Ok(()) => {
                put_keys(values, listed, args, keys, to + 1 + payload.len());
                Ok(())
            }
        },
    }
}

/// The object of the `new` key; the result is a reference to it.
fn put_new(
    values: &mut Values,
    heap: &mut Heap,
    t: TypeId,
    new: NewKey,
    to: usize,
) -> Result<(), HeapEnd>
    requires sound { IsSound heap.old }
    requires table { IsTable values.old }
    requires wide { 1 ≤ values.old.width }
    requires key { key_at values.old new.key.0 < to }
    requires following { values.old.base + values.old.vars * values.old.width ≤ to }
    requires there { to + values.old.width ≤ length values.old.slots.items }
    ensures sound { IsSound heap.new }
    ensures size { IsSameSize heap.old heap.new }
    ensures same { IsSameFrame values.old values.new }
    ensures puts { PutsNew t.0 (binding_of new) to values.old values.new heap.old heap.new result }
{
    match make_in(heap, t, new.state) {
        Err(e) => Err(e),
        Ok((o, number)) => {
            let a = Slot::Object(o, number);
            values.put_key(new.key, a);
            values.put_single(to, a);
            Ok(())
        }
    }
}

/// Puts a number, a bool or a new object.
fn put_piece(
    values: &mut Values,
    heap: &mut Heap,
    t: &Ty,
    left: &[i64],
    to: usize,
) -> Result<(), HeapEnd>
    requires sound { IsSound heap.old }
    requires wide { 1 ≤ values.old.width }
    requires there { to + values.old.width ≤ length values.old.slots.items }
    ensures sound { IsSound heap.new }
    ensures size { IsSameSize heap.old heap.new }
    ensures kept { IsKept to values.old values.new }
    ensures puts { PutsPiece (ty_of t.now) left.now to values.old values.new heap.old heap.new
        result }
{
    match read_piece(t, left) {
        None => Ok(()),
        Some((p, _)) => match slot_of(heap, t, p) {
            Err(e) => Err(e),
            Ok(a) => {
                values.put_single(to, a);
                Ok(())
            }
        },
    }
}

/// Puts the value of a variant that is next.
fn put_variant(
    values: &mut Values,
    heap: &mut Heap,
    program: &Program,
    t: TypeId,
    args: &[KeyId],
    keys: &[KeyId],
    left: &[i64],
    to: usize,
) -> Result<(), HeapEnd>
    requires sound { IsSound heap.old }
    requires table { IsTable values.old }
    requires fits { FitCases (program_of program.now) t.0 values.old.width }
    requires there { to + values.old.width ≤ length values.old.slots.items }
    ensures sound { IsSound heap.new }
    ensures size { IsSameSize heap.old heap.new }
    ensures kept { IsKept to values.old values.new }
    ensures puts { PutsVariant (program_of program.now) (keys_of keys.now)
        (record { type = t.0; args = keys_of args.now }) left.now to values.old values.new
        heap.old heap.new result }
{
    match left.split_first() {
        None => Ok(()),
        Some((number, _)) => match read_case(program, t, left) {
            None => Ok(()),
            Some(read) => put_case(values, heap, *number, read, args, keys, to),
        },
    }
}

/// Puts a reference to the object of the clause's `new` key, where it has one.
fn put_fresh(
    values: &mut Values,
    heap: &mut Heap,
    program: &Program,
    g: &Func,
    origin: Option<u8>,
    t: TypeId,
    keys: &[KeyId],
    answer: &[i64],
    to: usize,
) -> Result<(), HeapEnd>
    requires sound { IsSound heap.old }
    requires table { IsTable values.old }
    requires wide { 1 ≤ values.old.width }
    requires keys { KeysBelow (keys_of keys.now) to values.old }
    requires following { values.old.base + values.old.vars * values.old.width ≤ to }
    requires there { to + values.old.width ≤ length values.old.slots.items }
    requires within { AreWithin (program_of program.now) (func_of g.now) origin
        (func_of g.now).clause }
    ensures sound { IsSound heap.new }
    ensures size { IsSameSize heap.old heap.new }
    ensures same { IsSameFrame values.old values.new }
    ensures puts { AreSets (program_of program.now) (func_of g.now)
        (instance (program_of program.now) (func_of g.now) origin).clause →
        PutsFresh (program_of program.now)
        (instance (program_of program.now) (func_of g.now) origin) t.0 (keys_of keys.now)
        answer.now to values.old values.new heap.old heap.new result }
{
    match new_key(program, g, origin, g.clause.as_slice(), keys, answer) {
        None => Ok(()),
        Some(new) => put_new(values, heap, t, new, to),
    }
}

/// Puts what a call gives, which is of this type.
fn put_given(
    values: &mut Values,
    heap: &mut Heap,
    program: &Program,
    g: &Func,
    origin: Option<u8>,
    t: &Ty,
    keys: &[KeyId],
    answer: &[i64],
    left: &[i64],
    to: usize,
) -> Result<(), HeapEnd>
    requires sound { IsSound heap.old }
    requires table { IsTable values.old }
    requires wide { 1 ≤ values.old.width }
    requires result { (func_of g.now).result ≡ Some (ty_of t.now) }
    requires fits { FitsResult (program_of program.now) (func_of g.now) values.old.width }
    requires keys { KeysBelow (keys_of keys.now) to values.old }
    requires following { values.old.base + values.old.vars * values.old.width ≤ to }
    requires there { to + values.old.width ≤ length values.old.slots.items }
    requires within { AreWithin (program_of program.now) (func_of g.now) origin
        (func_of g.now).clause }
    ensures sound { IsSound heap.new }
    ensures size { IsSameSize heap.old heap.new }
    ensures same { IsSameFrame values.old values.new }
    ensures puts { AreSets (program_of program.now) (func_of g.now)
        (instance (program_of program.now) (func_of g.now) origin).clause →
        PutsResult (program_of program.now)
        (instance (program_of program.now) (func_of g.now) origin) (keys_of keys.now) answer.now
        left.now to values.old values.new heap.old heap.new result }
{
    match t {
        Ty::Key(_, u, _) => put_fresh(values, heap, program, g, origin, *u, keys, answer, to),
        Ty::Var(u, args) => {
            put_variant(values, heap, program, *u, args.as_slice(), keys, left, to)
        }
        Ty::OwnVar(u, args) => {
            put_variant(values, heap, program, *u, args.as_slice(), keys, left, to)
        }
        Ty::Int | Ty::Bool | Ty::Own(..) | Ty::Guard(..) => put_piece(values, heap, t, left, to),
    }
}

/// Puts what a call gives into the slots from a position on; new objects are made for it.
pub fn put_result(
    values: &mut Values,
    heap: &mut Heap,
    program: &Program,
    g: &Func,
    origin: Option<u8>,
    keys: &[KeyId],
    answer: &[i64],
    left: &[i64],
    to: usize,
) -> Result<(), HeapEnd>
    requires sound { IsSound heap.old }
    requires table { IsTable values.old }
    requires wide { 1 ≤ values.old.width }
    requires fits { FitsResult (program_of program.now) (func_of g.now) values.old.width }
    requires keys { KeysBelow (keys_of keys.now) to values.old }
    requires following { values.old.base + values.old.vars * values.old.width ≤ to }
    requires there { to + values.old.width ≤ length values.old.slots.items }
    requires within { AreWithin (program_of program.now) (func_of g.now) origin
        (func_of g.now).clause }
    ensures sound { IsSound heap.new }
    ensures size { IsSameSize heap.old heap.new }
    ensures same { IsSameFrame values.old values.new }
    ensures puts { AreSets (program_of program.now) (func_of g.now)
        (instance (program_of program.now) (func_of g.now) origin).clause →
        PutsResult (program_of program.now)
        (instance (program_of program.now) (func_of g.now) origin) (keys_of keys.now) answer.now
        left.now to values.old values.new heap.old heap.new result }
{
    match &g.result {
        None => put_fresh(
            values,
            heap,
            program,
            g,
            origin,
            TypeId(0),
            keys,
            answer,
            to,
        ),
        Some(t) => put_given(values, heap, program, g, origin, t, keys, answer, left, to),
    }
}
