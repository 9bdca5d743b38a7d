//! The states that an answer gives, and the objects of a case's keys.

ghost use Rattle.std.specs.Prelude.{◌≡◌, map};
ghost use Rattle.vlt_core.specs.View.{program_of, func_of, entry_of, keys_of, case_key_of};
ghost use Rattle.vlt_heap.specs.Shown.{IsSound, IsSameSize};
ghost use Rattle.vlt_acts.specs.Values.Shown.{IsTable};
ghost use Rattle.vlt_externals.specs.HostAnswers.Read.{AreSets, entries_in, AreWithin};
ghost use Rattle.vlt_externals.specs.Results.Stated.{SetsEntry, SetsEntries, ComesLoose, ComesOneLoose, SetsCase};

use crate::host_answers::{entry_state, is_held_after, state};
use crate::results::keys::{case_key, is_new};
use crate::{caller_key, set_state};
use vlt_acts::Values;
use vlt_base::{KeyId, StateSet};
use vlt_core::{Entry, Func, Program};
use vlt_heap::{Heap, Slot};

/// Gives the object of an entry its state, unless it is a new one.
fn set_entry(values: &Values, heap: &mut Heap, e: &Entry, keys: &[KeyId], state: u8)
    requires sound { IsSound heap.old }
    requires table { IsTable values.now }
    ensures sound { IsSound heap.new }
    ensures size { IsSameSize heap.old heap.new }
    ensures sets { SetsEntry (keys_of keys.now) (entry_of e.now) state values.now
        heap.old heap.new }
{
    if is_new(e) {
        return;
    }
    match caller_key(keys, e.key) {
        Some(k) => set_state(values, heap, k, state),
        None => {}
    }
}

/// Gives the objects of entries that are held after the call their states, those of new ones aside, in the instance of this
/// origin.
pub fn set_entries(
    values: &Values,
    heap: &mut Heap,
    program: &Program,
    g: &Func,
    origin: Option<u8>,
    entries: &[Entry],
    keys: &[KeyId],
    left: &[i64],
)
    requires sound { IsSound heap.old }
    requires table { IsTable values.now }
    requires within { AreWithin (program_of program.now) (func_of g.now) origin
        (map entry_of entries.now) }
    ensures sound { IsSound heap.new }
    ensures size { IsSameSize heap.old heap.new }
    ensures sets { AreSets (program_of program.now) (func_of g.now) (entries_in
        (program_of program.now) (func_of g.now) origin (map entry_of entries.now)) →
        SetsEntries (program_of program.now) (func_of g.now) (keys_of keys.now) (entries_in
        (program_of program.now) (func_of g.now) origin (map entry_of entries.now)) left.now
        values.now heap.old heap.new }
{
    match entries.split_first() {
        None => {}
        Some((first, rest)) => {
            let e = program.entry_in(g, origin, *first);
            if !is_held_after(&e) {
                set_entries(values, heap, program, g, origin, rest, keys, left);
                return;
            }
            match entry_state(program, g, &e, left) {
                None => {}
                Some((s, left)) => {
                    set_entry(values, heap, &e, keys, s);
                    set_entries(values, heap, program, g, origin, rest, keys, left);
                }
            }
        }
    }
}

/// Takes the object of a key back; false where it isn't out.
fn take_key(values: &Values, heap: &mut Heap, k: KeyId) -> bool
    requires sound { IsSound heap.old }
    requires table { IsTable values.now }
    ensures sound { IsSound heap.new }
    ensures size { IsSameSize heap.old heap.new }
    ensures back { ComesOneLoose k.0 values.now heap.old heap.new result }
{
    match values.key_slot(k) {
        Slot::Object(o, number) => heap.back(o, number),
        Slot::Owned(..) => false,
        Slot::Number(_) => false,
    }
}

/// Takes the objects of a case's keys back; false where one of them isn't out.
pub fn take_case(
    values: &Values,
    heap: &mut Heap,
    listed: &[(u32, StateSet)],
    args: &[KeyId],
    keys: &[KeyId],
) -> bool
    requires sound { IsSound heap.old }
    requires table { IsTable values.now }
    ensures sound { IsSound heap.new }
    ensures size { IsSameSize heap.old heap.new }
    ensures back { ComesLoose (keys_of keys.now) (keys_of args.now)
        (map case_key_of listed.now) values.now heap.old heap.new result }
{
    match listed.split_first() {
        None => true,
        Some((k, rest)) => match case_key(args, keys, k.0) {
            None => false,
            Some(key) => {
                if !take_key(values, heap, key) {
                    return false;
                }
                take_case(values, heap, rest, args, keys)
            }
        },
    }
}

/// Gives the objects of a case's keys their states.
pub fn set_case(
    values: &Values,
    heap: &mut Heap,
    listed: &[(u32, StateSet)],
    args: &[KeyId],
    keys: &[KeyId],
    left: &[i64],
)
    requires sound { IsSound heap.old }
    requires table { IsTable values.now }
    ensures sound { IsSound heap.new }
    ensures size { IsSameSize heap.old heap.new }
    ensures sets { SetsCase (keys_of keys.now) (keys_of args.now) (map case_key_of listed.now)
        left.now values.now heap.old heap.new }
{
    match listed.split_first() {
        None => {}
        Some((k, rest)) => match case_key(args, keys, k.0) {
            None => {}
            Some(key) => match state(k.1, left) {
                None => {}
                Some((s, left)) => {
                    set_state(values, heap, key, s);
                    set_case(values, heap, rest, args, keys, left);
                }
            },
        },
    }
}
