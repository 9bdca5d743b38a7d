//! Which objects a step may touch.

ghost use Rattle.std.specs.Prelude.{◌≡◌, ◌==◌, ◌≤◌, Err, None, Some, slice_get, length};
ghost use Rattle.std.specs.Option.{option_map, option_copied};
ghost use Rattle.vlt_core.specs.Core.{States};
ghost use Rattle.vlt_core.specs.LookupViews.{reference_view};
ghost use Rattle.vlt_meaning.specs.World.{is_held_under, is_lent_under, is_adopted_by, is_gone, live_count, is_full, fault};
ghost use Rattle.vlt_meaning.specs.Objects.{object_at, in_states};
ghost use Rattle.vlt_meaning.specs.Values.{held_object, reference_in, tracked_object, guarded_object};
ghost use Rattle.vlt_trace_worlds.specs.View.{object_view, objects_view, owner_view, named_view, found_of, frame_view, var_in, key_in, value_view, outcome_of, reason_view};

use crate::stops::{Reason, Stop};
use crate::worlds::{Frame, Named, Object, Owner, Part, Value};
use vlt_base::{KeyId, VarId};
use vlt_core::Reference;

/// How many objects a run makes at most, so that the numbers of all of them, from 1, are of 64-bit range.
const MAX_MADE: u64 = 9_223_372_036_854_775_807;

impl Owner {
    pub fn is_held_under(self, depth: u32, key: KeyId) -> bool
        ensures { result ≡ is_held_under depth key.0 (owner_view self) }
    {
        match self {
            Owner::Held { depth: d, key: k } => depth == d && key.0 == k,
            _ => false,
        }
    }

    pub fn is_lent_under(self, depth: u32, key: KeyId) -> bool
        ensures { result ≡ is_lent_under depth key.0 (owner_view self) }
    {
        match self {
            Owner::Lent { depth: d, key: k } => depth == d && key.0 == k,
            _ => false,
        }
    }

    pub fn is_gone(self) -> bool
        ensures { result ≡ is_gone (owner_view self) }
    {
        matches!(self, Owner::Gone)
    }

    pub fn is_adopted_by(self, n: usize) -> bool
        ensures { result ≡ is_adopted_by n (owner_view self) }
    {
        match self {
            Owner::AdoptedBy(m) => n == m,
            _ => false,
        }
    }
}

pub fn object_at(objects: &[Object], n: usize) -> Result<Named<'_>, Stop>
    ensures { found_of named_view result ≡ object_at (objects_view objects.now) n }
{
    match objects.get(n) {
        None => Err(Stop::Fault(Reason::Missing, Some(n))),
        Some(object) => Ok(Named { number: n, object }),
    }
}

/// The object where its state is allowed.
pub fn in_states<'a>(allowed: bool, m: Named<'a>) -> Result<Named<'a>, Stop>
    ensures { (states : States) → allowed ≡ states m.entry.object.now.state →
        found_of named_view result ≡ in_states states (named_view m.entry) }
{
    if allowed {
        Ok(m)
    } else {
        Err(Stop::Fault(Reason::WrongState, Some(m.number)))
    }
}

impl Frame {
    /// The object that a key names.
    pub fn key(&self, k: KeyId) -> Option<usize>
        ensures { result ≡ key_in self.now.keys k.0 }
    {
        match self.keys.get(k.0 as usize) {
            None => None,
            Some(n) => *n,
        }
    }

    /// The value of a variable.
    pub fn var(&self, v: VarId) -> Option<&Value>
        ensures { option_map value_view (option_copied result) ≡ var_in self.now.vars v.0 }
    {
        match self.vars.get(v.0 as usize) {
            None => None,
            Some(a) => a.as_ref(),
        }
    }
}

/// The object that the frame holds under a key, which names it.
pub fn held_object<'a>(k: KeyId, frame: &Frame, objects: &'a [Object]) -> Result<Named<'a>, Stop>
    ensures { found_of named_view result
        ≡ held_object k.0 (frame_view frame.now) (objects_view objects.now) }
{
    match frame.key(k) {
        None => Err(Stop::Fault(Reason::NoValue, None)),
        Some(n) => match object_at(objects, n) {
            Err(stop) => Err(stop),
            Ok(m) => {
                if m.object.owner.is_held_under(frame.depth, k) {
                    Ok(m)
                } else {
                    Err(Stop::Fault(Reason::NotHeld, Some(m.number)))
                }
            }
        },
    }
}

/// The object that a variable's value refers to.
pub fn reference_in(a: Option<&Value>) -> Result<usize, Stop>
    ensures { found_of (λ n. n) result
        ≡ reference_in (option_map value_view (option_copied a.entry)) }
{
    match a {
        None => Err(Stop::Fault(Reason::NoValue, None)),
        Some(Value::One(part)) => match part {
            Part::Reference(n) => Ok(*n),
            Part::Number(_) => Err(Stop::Fault(Reason::Missing, None)),
            Part::Owned(_) => Err(Stop::Fault(Reason::Missing, None)),
        },
        Some(Value::OfCase { .. }) => Err(Stop::Fault(Reason::Missing, None)),
    }
}

/// The object of a tracked variable, which the frame holds under the variable's key.
pub fn tracked_object<'a>(
    r: Reference,
    x: VarId,
    frame: &Frame,
    objects: &'a [Object],
) -> Result<Named<'a>, Stop>
    ensures { found_of named_view result
        ≡ tracked_object (reference_view r) x.0 (frame_view frame.now) (objects_view objects.now) }
{
    match held_object(r.key, frame, objects) {
        Err(stop) => Err(stop),
        Ok(m) => match reference_in(frame.var(x)) {
            Err(stop) => Err(stop),
            Ok(n) => {
                if n == m.number {
                    Ok(m)
                } else {
                    Err(Stop::Fault(Reason::OtherObject, Some(m.number)))
                }
            }
        },
    }
}

/// The object of a guarded variable: the object that its guard names adopted it, and the frame holds that one.
pub fn guarded_object<'a>(
    g: Reference,
    y: VarId,
    frame: &Frame,
    objects: &'a [Object],
) -> Result<Named<'a>, Stop>
    ensures { found_of named_view result
        ≡ guarded_object (reference_view g) y.0 (frame_view frame.now) (objects_view objects.now) }
{
    match held_object(g.key, frame, objects) {
        Err(stop) => Err(stop),
        Ok(a) => match reference_in(frame.var(y)) {
            Err(stop) => Err(stop),
            Ok(n) => match object_at(objects, n) {
                Err(stop) => Err(stop),
                Ok(m) => {
                    if m.object.owner.is_adopted_by(a.number) {
                        Ok(m)
                    } else {
                        Err(Stop::Fault(Reason::NotGuarded, Some(m.number)))
                    }
                }
            },
        },
    }
}

/// How many objects aren't released.
fn live_count(objects: &[Object]) -> usize
    ensures count { result ≡ live_count (objects_view objects.now) }
    ensures most { result ≤ length objects.now }
{
    let mut n = 0_usize;
    for o in objects {
        if !o.owner.is_gone() {
            n += 1;
        }
    }
    n
}

/// Whether no object can be made.
pub fn is_full(heap: u32, objects: &[Object]) -> bool
    ensures { result ≡ is_full heap (objects_view objects.now) }
{
    heap as usize <= live_count(objects) || objects.len() as u64 >= MAX_MADE
}
