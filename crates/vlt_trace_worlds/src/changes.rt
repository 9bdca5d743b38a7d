//! Changes of objects.

ghost use Rattle.std.specs.Prelude.{◌≡◌, ◌∷◌, [], Ok, Err, Bool, true, OnOk, OnErr, IfOk, IfErr, slice_get, length, not, ◌||◌, if◌then◌else◌};
ghost use Rattle.std.specs.List.{list_all, zip};
ghost use Rattle.vlt_core.specs.Lookups.{release_set};
ghost use Rattle.vlt_meaning.specs.World.{above};
ghost use Rattle.vlt_meaning.specs.World as world;
ghost use Rattle.vlt_meaning.specs.Objects.{with_changed_object, with_owner, with_state, with_cell, owned_at, objects_after_move, parents_of, is_under, is_releasable, objects_after_release};
ghost use Rattle.vlt_base.specs.Parents.{parent_of};
ghost use Rattle.vlt_core.specs.View.{program_of};
ghost use Rattle.vlt_trace_worlds.specs.View.{value_view, owner_view, objects_view, named_view, found_of, outcome_of};
ghost use Rattle.vlt_trace_worlds.specs.Owners.{passes, IsOwned, IsUnderEach, Released, may_go_in, gone_where};
ghost use Rattle.vlt_trace_worlds.specs.Steps.{Finds};

use crate::objects::object_at;
use crate::states::may_release;
use crate::stops::{Halt, Reason, Stop};
use crate::worlds::{Named, Object, Owner, Value};
use sqlite_items::at;
use std::alloc::Global;
use vlt_core::Program;

pub fn set_owner(objects: &mut [Object], n: usize, owner: Owner)
    ensures { objects_view objects.new
        ≡ with_changed_object n (with_owner (owner_view owner)) (objects_view objects.old) }
{
    if n < objects.len() {
        objects[n].owner = owner;
    }
}

pub fn set_state(objects: &mut [Object], n: usize, state: u8)
    ensures { objects_view objects.new
        ≡ with_changed_object n (with_state state) (objects_view objects.old) }
{
    if n < objects.len() {
        objects[n].state = state;
    }
}

pub fn set_cell(objects: &mut [Object], n: usize, i: u32, a: Value)
    ensures { objects_view objects.new
        ≡ with_changed_object n (with_cell i (value_view a)) (objects_view objects.old) }
{
    if n < objects.len() {
        let cells = &mut objects[n].cells;
        if (i as usize) < cells.len() {
            cells.set(i as usize, a);
        }
    }
}

/// Whose objects may be taken.
#[derive(Clone, Copy)]
pub enum OwnerTest {
    Loose,
    Out,
    Inside(usize),
    At(u32),
}

pub fn passes(from: OwnerTest, owner: Owner) -> bool
    ensures { result ≡ passes from (owner_view owner) }
{
    match (from, owner) {
        (OwnerTest::Loose, Owner::Loose) => true,
        (OwnerTest::Out, Owner::Out) => true,
        (OwnerTest::Inside(n), Owner::Inside(m)) => n == m,
        (OwnerTest::At(d), Owner::Held { depth, .. }) => d == depth,
        (OwnerTest::At(d), Owner::Lent { depth, .. }) => d == depth,
        _ => false,
    }
}

/// The object at a position, whose owner passes the test.
pub fn owned_at(from: OwnerTest, objects: &[Object], n: usize) -> Result<Named<'_>, Stop>
    ensures { found_of named_view result
        ≡ owned_at (passes from) (objects_view objects.now) n }
{
    match object_at(objects, n) {
        Err(stop) => Err(stop),
        Ok(m) => {
            if passes(from, m.object.owner) {
                Ok(m)
            } else {
                Err(Stop::Fault(Reason::NotOwned, Some(m.number)))
            }
        }
    }
}

/// The objects get a new owner, one after another. Each has to pass the test when its turn comes.
pub fn move_all(
    from: OwnerTest,
    to: Owner,
    ns: &[usize],
    objects: &mut [Object],
) -> Result<(), Stop>
    ensures ok { OnOk result (objects_after_move (passes from) (owner_view to) ns.now
        (objects_view objects.old) ≡ Ok (objects_view objects.new)) }
    ensures err { IfErr result (λ s. objects_after_move (passes from) (owner_view to) ns.now
        (objects_view objects.old) ≡ Err (outcome_of s)) }
{
    match ns.split_first() {
        None => Ok(()),
        Some((n, rest)) => {
            if let Err(stop) = is_owned(from, objects, *n) {
                return Err(stop);
            }
            set_owner(objects, *n, to);
            move_all(from, to, rest, objects)
        }
    }
}

/// Whether the object's owner passes the test.
fn is_owned(from: OwnerTest, objects: &[Object], n: usize) -> Result<(), Stop>
    ensures { IsOwned (passes from) (objects_view objects.now) n result }
{
    match owned_at(from, objects, n) {
        Ok(_) => Ok(()),
        Err(stop) => Err(stop),
    }
}

/// The object that an object is in or was adopted by.
fn above(owner: Owner) -> Option<usize>
    ensures { result ≡ above (owner_view owner) }
{
    match owner {
        Owner::Inside(n) => Some(n),
        Owner::AdoptedBy(n) => Some(n),
        _ => None,
    }
}

fn parent(objects: &[Object], n: usize) -> Option<usize>
    ensures { result ≡ parent_of (parents_of (objects_view objects.now)) n }
{
    match at(objects, n) {
        None => None,
        Some(o) => above(o.owner),
    }
}

/// Whether the object is the root or below it.
pub fn is_under(objects: &[Object], root: usize, n: usize) -> bool
    ensures { result ≡ is_under (objects_view objects.now) (root ∷ []) n }
{
    let mut at = n;
    for left in 0..objects.len() {
        if root == at {
            return true;
        }
        match parent(objects, at) {
            None => return false,
            Some(m) => at = m,
        }
    }
    root == at
}

/// Which objects are the root or below it.
fn all_under(alloc: Global, objects: &[Object], root: usize) -> Result<Vec<bool>, Halt>
    ensures each { IfOk result (λ under.
        IsUnderEach (objects_view objects.now) (root ∷ []) under.items) }
    ensures long { IfOk result (λ under. length under.items ≡ length objects.now) }
    ensures memory { IfErr result (λ halt. halt ≡ Halt.Memory) }
{
    let mut under = Vec::new(alloc);
    for n in 0..objects.len() {
        let b = is_under(objects, root, n);
        match under.push(b) {
            Ok(()) => {}
            Err(_) => return Err(Halt::Memory),
        }
    }
    Ok(under)
}

/// Whether an object isn't under the released one, or may be released.
fn may_go(p: &Program, o: &Object, under: bool) -> bool
    ensures { result ≡ (not under || release_set (program_of p.now) o.now.type_id.0 o.now.state) }
{
    !under || may_release(p, o.type_id, o.state)
}

/// Whether all that are marked may be released.
fn are_releasable(p: &Program, objects: &[Object], under: &[bool]) -> bool
    requires { length under.now ≡ length objects.now }
    ensures { result ≡
        list_all (may_go_in (program_of p.now)) (zip under.now (objects_view objects.now)) }
{
    for n in 0..objects.len() {
        if !may_go(p, &objects[n], under[n]) {
            return false;
        }
    }
    true
}

/// Those that are marked are gone.
fn set_gone(objects: &mut [Object], under: &[bool])
    requires { length under.now ≡ length objects.old }
    ensures { objects_view objects.new ≡ gone_where under.now (objects_view objects.old) }
{
    for n in 0..objects.len() {
        objects[n].owner = gone_if(under[n], objects[n].owner);
    }
}

fn gone_if(under: bool, owner: Owner) -> Owner
    ensures { owner_view result ≡ (if under then world.gone else owner_view owner) }
{
    if under { Owner::Gone } else { owner }
}

/// What is under the object goes, where it may.
fn go(p: &Program, n: usize, under: &Vec<bool>, objects: &mut [Object]) -> Result<(), Halt>
    requires each { IsUnderEach (objects_view objects.old) (n ∷ []) under.now.items }
    requires long { length under.now.items ≡ length objects.old }
    ensures { Released (program_of p.now) n
        (objects_view objects.old) (objects_view objects.new) result }
{
    if are_releasable(p, objects, under) {
        set_gone(objects, under);
        Ok(())
    } else {
        Err(Halt::Ends(Stop::Fault(Reason::WrongState, Some(n))))
    }
}

/// The object is released, with all below it.
pub fn release(alloc: Global, p: &Program, n: usize, objects: &mut [Object]) -> Result<(), Halt>
    ensures { Released (program_of p.now) n
        (objects_view objects.old) (objects_view objects.new) result }
{
    match all_under(alloc, objects, n) {
        Ok(under) => go(p, n, &under, objects),
        Err(_) => Err(Halt::Memory),
    }
}
