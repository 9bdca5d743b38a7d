//! The end of a focus.

ghost use Rattle.std.specs.Prelude.{◌≡◌, ℕ};
ghost use Rattle.vlt_core.specs.View.{program_of};
ghost use Rattle.vlt_core.specs.LookupViews.{reference_view};
ghost use Rattle.vlt_meaning.specs.Run.{Setup, focus_end_step, focused_object, lent_object};
ghost use Rattle.vlt_trace_worlds.specs.View.{found_of, named_view, objects_view, frame_view, world_view};
ghost use Rattle.vlt_trace_worlds.specs.Steps.{Goes};

use vlt_core::{Program, Reference};
use vlt_trace_worlds::{
    Frame, Halt, Named, Object, Owner, Reason, Stop, World, held_object, in_states, may_release,
    object_at,
};

/// The object of an open focus, which its key names still, in a state in which it may be released.
fn focused_object<'a>(
    p: &Program,
    key: Reference,
    number: usize,
    frame: &Frame,
    objects: &'a [Object],
) -> Result<Named<'a>, Stop>
    ensures { (s : Setup) → s.program ≡ program_of p.now → found_of named_view result
        ≡ focused_object s (reference_view key) number (frame_view frame.now)
        (objects_view objects.now) }
{
    match held_object(key.key, frame, objects) {
        Err(stop) => Err(stop),
        Ok(m) => {
            if m.number == number {
                in_states(may_release(p, key.type_id, m.object.state), m)
            } else {
                Err(Stop::Fault(Reason::OtherObject, Some(m.number)))
            }
        }
    }
}

/// The object that an open focus lent.
fn lent_object<'a>(
    guard: Reference,
    adopter: usize,
    frame: &Frame,
    objects: &'a [Object],
) -> Result<Named<'a>, Stop>
    ensures { found_of named_view result ≡ lent_object guard.key.0 adopter (frame_view frame.now)
        (objects_view objects.now) }
{
    match object_at(objects, adopter) {
        Err(stop) => Err(stop),
        Ok(m) => {
            if m.object.owner.is_lent_under(frame.depth, guard.key) {
                Ok(m)
            } else {
                Err(Stop::Fault(Reason::NotHeld, Some(m.number)))
            }
        }
    }
}

/// At the end of a focus the object goes back to its adopter, which is held again.
pub fn end_focus(
    p: &Program,
    guard: Reference,
    key: Reference,
    adopter: usize,
    number: usize,
    frame: &Frame,
    world: &mut World,
) -> Result<(), Halt>
    ensures { (s : Setup) → s.program ≡ program_of p.now → Goes (focus_end_step s
        (reference_view guard) (reference_view key) adopter number (frame_view frame.now)
        (world_view world.old)) result (frame_view frame.now) (world_view world.new) }
{
    focused_object(p, key, number, frame, &world.objects)?;
    lent_object(guard, adopter, frame, &world.objects)?;
    world.set_owner(number, Owner::AdoptedBy(adopter));
    world.set_owner(
        adopter,
        Owner::Held {
            depth: frame.depth,
            key: guard.key.0,
        },
    );
    Ok(())
}
