//! Changes of a world.

ghost use Rattle.std.specs.Prelude.{◌≡◌, ◌==◌, ◌-◌, ◌∷◌, [], ◌++◌, ℕ, Ok, Err, true, false, OnOk, OnErr, IfOk, IfErr, MatchOption, MatchResult};
ghost use Rattle.vlt_core.specs.View.{program_of};
ghost use Rattle.vlt_meaning.specs.Objects.{with_owner, with_state, with_cell, objects_after_move};
ghost use Rattle.vlt_meaning.specs.Step.{with_changed, with_objects, with_event, is_more};
ghost use Rattle.vlt_trace_worlds.specs.View.{value_view, owner_view, object_view, objects_view, event_view, world_view, outcome_of};
ghost use Rattle.vlt_trace_worlds.specs.Owners.{passes, Released, MakesObject};
ghost use Rattle.vlt_trace_worlds.specs.declared.stops.Halt.TheVariants.{Memory};
ghost use Rattle.vlt_trace_worlds.specs.declared.stops.Stop.TheVariants.{FuelEnd};

use crate::changes::{OwnerTest, move_all, release, set_cell, set_owner, set_state};
use crate::objects::is_full;
use crate::stops::{Halt, Stop};
use crate::worlds::{Event, Object, Owner, Value, World};
use std::alloc::Global;
use vlt_core::Program;

impl World {
    /// The object at a position, if there is one, gets a new owner.
    pub fn set_owner(&mut self, n: usize, owner: Owner)
        ensures { world_view self.new
            ≡ with_changed (world_view self.old) n (with_owner (owner_view owner)) }
    {
        set_owner(&mut self.objects, n, owner);
    }

    /// The object at a position, if there is one, comes into a state.
    pub fn set_state(&mut self, n: usize, state: u8)
        ensures { world_view self.new ≡ with_changed (world_view self.old) n (with_state state) }
    {
        set_state(&mut self.objects, n, state);
    }

    /// A cell of the object at a position, if there are both, gets a value.
    pub fn set_cell(&mut self, n: usize, i: u32, a: Value)
        ensures { world_view self.new
            ≡ with_changed (world_view self.old) n (with_cell i (value_view a)) }
    {
        set_cell(&mut self.objects, n, i, a);
    }

    /// The objects at these positions get a new owner, one after another. Each has to pass the test when its turn comes.
    pub fn move_all(&mut self, from: OwnerTest, to: Owner, ns: &[usize]) -> Result<(), Stop>
        ensures ok { OnOk result (objects_after_move (passes from) (owner_view to) ns.now
            (objects_view self.old.objects.items) ≡ Ok (objects_view self.new.objects.items)) }
        ensures err { IfErr result (λ s. objects_after_move (passes from) (owner_view to) ns.now
            (objects_view self.old.objects.items) ≡ Err (outcome_of s)) }
        ensures world { world_view self.new
            ≡ with_objects (world_view self.old) (objects_view self.new.objects.items) }
    {
        move_all(from, to, ns, &mut self.objects)
    }

    /// The object is released, with all below it.
    pub fn release(&mut self, alloc: Global, p: &Program, n: usize) -> Result<(), Halt>
        ensures released { Released (program_of p.now) n (objects_view self.old.objects.items)
            (objects_view self.new.objects.items) result }
        ensures world { world_view self.new
            ≡ with_objects (world_view self.old) (objects_view self.new.objects.items) }
    {
        release(alloc, p, n, &mut self.objects)
    }

    /// A new object is the last one. It is made where fewer objects than the budget allows are live.
    pub fn make(&mut self, heap: u32, o: Object) -> Result<usize, Halt>
        ensures { MakesObject heap (object_view o) (world_view self.old) result
            (world_view self.new) }
    {
        if is_full(heap, &self.objects) {
            return Err(Halt::Ends(Stop::HeapEnd));
        }
        let n = self.objects.len();
        match self.objects.push(o) {
            Ok(()) => Ok(n),
            Err(_) => Err(Halt::Memory),
        }
    }

    /// The event is written after the others.
    pub fn tell(&mut self, e: Event) -> Result<(), Halt>
        ensures ok { OnOk result (world_view self.new
            ≡ with_event (world_view self.old) (event_view e)) }
        ensures err { IfErr result (λ halt. halt ≡ Memory) }
    {
        match self.events.push(e) {
            Ok(()) => Ok(()),
            Err(_) => Err(Halt::Memory),
        }
    }

    /// One unit of fuel less, or the end where there is none.
    pub fn spend(&mut self) -> Result<(), Stop>
        ensures some { OnOk result ((self.old.fuel == 0) ≡ false) }
        ensures less { OnOk result (world_view self.new
            ≡ record (world_view self.old) { fuel = self.old.fuel - 1 }) }
        ensures none { OnErr result ((self.old.fuel == 0) ≡ true) }
        ensures is { IfErr result (λ s. s ≡ FuelEnd) }
        ensures kept { OnErr result (self.new ≡ self.old) }
    {
        if self.fuel == 0 {
            return Err(Stop::FuelEnd);
        }
        self.fuel -= 1;
        Ok(())
    }

    /// Whether there is more input.
    #[tactic(auto, using(crate::proofs::Inputs::more_input))]
    pub fn has_input(&self) -> bool
        ensures { result ≡ is_more (world_view self.now).input }
    {
        0 < self.input.len()
    }

    /// The next number of the input.
    pub fn take_input(&mut self) -> Option<i64>
        ensures input { MatchOption result ((world_view self.old).input ≡ [])
            (λ z. (world_view self.old).input ≡ z ∷ (world_view self.new).input) }
        ensures kept { world_view self.new
            ≡ record (world_view self.old) { input = (world_view self.new).input } }
    {
        self.input.pop()
    }
}
