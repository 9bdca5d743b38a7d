//! The objects that a host holds, where they are now.

ghost use Rattle.std.specs.Prelude.{◌≡◌, ◌&&◌, List, true, IfSome, is_some, slice_get};
ghost use Rattle.vlt_core.specs.View.{program_of, func_of, entry_of};
ghost use Rattle.vlt_core.specs.KindedHeads.{has};
ghost use Rattle.vlt_meaning.specs.World.{Object};
ghost use Rattle.vlt_heap.specs.Shown.{IsLive, ForObject};
ghost use Rattle.vlt_host_meaning.specs.HostFrame.{host_holds};
ghost use Rattle.vlt_host_meaning.specs.Permitted.{is_of_type, is_object_in, permitted_states};

use crate::permits::held::Held;
use crate::permits::permitted::permits;
use vlt_base::TypeId;
use vlt_core::{Entry, Func, Program};
use vlt_heap::{Heap, Obj};

/// What a call is tested over: a program, its objects, and what the host holds of them.
#[derive(Clone, Copy)]
pub struct Hosted<'a> {
    pub program: &'a Program,
    pub heap: &'a Heap,
    pub held: &'a Held,
    /// How many places the heap has at most.
    pub places: u32,
}

impl<'a> Hosted<'a> {
    ghost use Rattle.vlt_host_acts.specs.Permits.Held.{numbers_in};
    ghost use Rattle.vlt_host_acts.specs.Permits.Hosted.{ShowsHosted, IsHosted};

    /// The place of an object that the host holds. It is looked for where it was last, then in each place.
    fn place_of(&self, number: u64, last: Obj) -> Obj
        requires hosted { IsHosted self.now }
        requires held { has (numbers_in self.now.held.now) number ≡ true }
        ensures live { IsLive self.now.heap.now result }
        ensures number { ForObject self.now.heap.now result (λ items n x. n ≡ number) }
    {
        if self.heap.is_held(last, number) {
            return last;
        }
        for c in 0..self.places {
            if self.heap.is_held(Obj(c), number) {
                return Obj(c);
            }
        }
        unreachable!()
    }

    /// The object of this number, if the host holds it.
    pub fn find(&self, number: u64) -> Option<Obj>
        requires hosted { IsHosted self.now }
        ensures held { (objects : List Object) → ShowsHosted self.now objects →
            is_some result ≡ host_holds objects number }
        ensures live { IfSome result (IsLive self.now.heap.now) }
        ensures number { IfSome result (λ o. ForObject self.now.heap.now o
            (λ items n x. n ≡ number)) }
    {
        match self.held.find(number) {
            Some(last) => Some(self.place_of(number, last)),
            None => None,
        }
    }

    /// Whether the host holds the object of this number, and it is of the type.
    pub fn is_of_type(&self, number: u64, t: TypeId) -> bool
        requires hosted { IsHosted self.now }
        ensures { (objects : List Object) → ShowsHosted self.now objects →
            result ≡ (host_holds objects number && is_of_type t.0 (slice_get objects number)) }
    {
        match self.find(number) {
            Some(o) => self.heap.type_of(o).0 == t.0,
            None => false,
        }
    }

    /// Whether the host holds the object of this number, and it is in a state that the entry permits.
    pub fn is_in(&self, number: u64, f: &Func, e: Entry) -> bool
        requires hosted { IsHosted self.now }
        ensures { (objects : List Object) → ShowsHosted self.now objects →
            result ≡ (host_holds objects number && is_object_in
            (permitted_states (program_of self.now.program.now) (func_of f.now) (entry_of e)
            (entry_of e).mode) (slice_get objects number)) }
    {
        match self.find(number) {
            Some(o) => permits(self.program, f, e, self.heap.state(o)),
            None => false,
        }
    }
}
