//! The keys that a variant's case lists, and the objects that its values own under them.

ghost use Rattle.std.specs.Prelude.{◌≡◌, ◌∷◌, [], ℕ, List, IfOk, map};
ghost use Rattle.std.specs.Option.{option_map};
ghost use Rattle.vlt_core.specs.View.{program_of, keys_of, case_key_of};
ghost use Rattle.vlt_core.specs.Lookups.{case_keys, case_at};
ghost use Rattle.vlt_core.specs.LookupViews.{variant_view};
ghost use Rattle.vlt_meaning.specs.World as w;
ghost use Rattle.vlt_meaning.specs.Step.{Step};
ghost use Rattle.vlt_meaning.specs.Operands.{with_case_packed, case_object};
ghost use Rattle.vlt_meaning_laws.specs.Machine.Got.{opened_got};
ghost use Rattle.vlt_trace_worlds.specs.View.{found_of, named_view, objects_view, frame_view, world_view};
ghost use Rattle.vlt_trace_worlds.specs.Steps.{Gives};
ghost use Rattle.vlt_trace_steps.specs.Hands.{Hands};
ghost use Rattle.vlt_trace_steps.specs.Cases.{case_key_view, listed_keys, key_for, keys_for, packed_object};

use std::alloc::{AllocError, Global};
use vlt_base::{Items, KeyId, StateSet};
use vlt_core::{Program, VariantOf};
use vlt_trace_worlds::{
    Frame, Halt, Named, Object, Owner, OwnerTest, Reason, Stop, World, held_object, in_states,
    owned_at,
};

/// A key of the function that a case lists, and the states that the case says.
#[derive(Clone, Copy)]
pub struct CaseKey {
    pub key: KeyId,
    pub states: StateSet,
}

/// The keys that a case lists by their positions in the header; none where there is no such case.
fn listed_keys<'a>(p: &'a Program, v: VariantOf<'_>, case: u8) -> &'a [(u32, StateSet)]
    ensures { map case_key_of result.now
        ≡ listed_keys (case_at (program_of p.now) v.entry.type_id.0 case) }
{
    match p.case_at(v.type_id, case) {
        None => &[],
        Some(d) => d.keys.as_slice(),
    }
}

/// The key of a function that stands for a position of a header.
fn key_for(args: &[KeyId], listed: (u32, StateSet)) -> Option<CaseKey>
    ensures { option_map case_key_view result ≡ key_for (keys_of args.now) (case_key_of listed) }
{
    match args.get(listed.0 as usize) {
        None => None,
        Some(key) => Some(CaseKey {
            key: *key,
            states: listed.1,
        }),
    }
}

/// The keys of a function that stand for positions of a header.
fn keys_for(
    alloc: Global,
    args: &[KeyId],
    listed: &[(u32, StateSet)],
) -> Result<Items<CaseKey>, AllocError>
    ensures { IfOk result (λ ks. map case_key_view ks
        ≡ keys_for (keys_of args.now) (map case_key_of listed.now)) }
{
    let mut keys = Items::new(alloc);
    for k in listed {
        if let Some(key) = key_for(args, *k) {
            keys.push(key)?;
        }
    }
    Ok(keys)
}

/// The keys of a function that a case of a variable's variant lists.
pub fn case_keys(
    alloc: Global,
    p: &Program,
    v: VariantOf<'_>,
    case: u8,
) -> Result<Items<CaseKey>, AllocError>
    ensures { IfOk result (λ ks. map case_key_view ks
        ≡ case_keys (program_of p.now) (variant_view v.entry) case) }
{
    keys_for(alloc, v.args, listed_keys(p, v, case))
}

/// The object that the frame holds under a case's key, in a state that the case says.
fn packed_object<'a>(k: CaseKey, frame: &Frame, objects: &'a [Object]) -> Result<Named<'a>, Stop>
    ensures { found_of named_view result ≡ packed_object (case_key_view k) (frame_view frame.now)
        (objects_view objects.now) }
{
    match held_object(k.key, frame, objects) {
        Err(stop) => Err(stop),
        Ok(m) => in_states(k.states.has(m.object.state), m),
    }
}

/// The object of a case's key leaves the frame.
fn pack_key(k: CaseKey, frame: &Frame, world: &mut World) -> Result<usize, Halt>
    ensures { (go : List ℕ → w.World → Step) →
        Hands (with_case_packed (case_key_view k ∷ []) (frame_view frame.now)
        (world_view world.old) go) result
        (λ n. go (n ∷ []) (world_view world.new)) (world_view world.new) }
{
    let m = packed_object(k, frame, &world.objects)?;
    let n = m.number;
    world.set_owner(n, Owner::Loose);
    Ok(n)
}

/// The objects of a case's keys leave the frame, in order.
pub fn pack_case(
    alloc: Global,
    keys: &[CaseKey],
    frame: &Frame,
    world: &mut World,
) -> Result<Items<usize>, Halt>
    ensures { (go : List ℕ → w.World → Step) →
        Hands (with_case_packed (map case_key_view keys.now) (frame_view frame.now)
        (world_view world.old) go) result
        (λ ns. go ns (world_view world.new)) (world_view world.new) }
{
    let mut ns = Items::new(alloc);
    for k in keys {
        let n = pack_key(*k, frame, world)?;
        ns.push(n)?;
    }
    Ok(ns)
}

/// An object of a value, which the key of its case names.
fn case_object<'a>(
    k: CaseKey,
    n: usize,
    frame: &Frame,
    objects: &'a [Object],
) -> Result<Named<'a>, Stop>
    ensures { found_of named_view result ≡ case_object (case_key_view k) n (frame_view frame.now)
        (objects_view objects.now) }
{
    match frame.key(k.key) {
        None => Err(Stop::Fault(Reason::NoValue, None)),
        Some(m) => match owned_at(OwnerTest::Loose, objects, n) {
            Err(stop) => Err(stop),
            Ok(o) => {
                if m == n {
                    in_states(k.states.has(o.object.state), o)
                } else {
                    Err(Stop::Fault(Reason::OtherObject, Some(o.number)))
                }
            }
        },
    }
}

/// The objects of a case come back to its keys.
#[tactic(auto, unfolding(vlt_meaning_laws::specs::Machine::Got::then_got, vlt_meaning_laws::specs::Machine::Got::found_in))]
pub fn open_case(
    keys: &[CaseKey],
    ns: &[usize],
    frame: &Frame,
    world: &mut World,
) -> Result<(), Halt>
    ensures { Gives (λ u. u) (opened_got (map case_key_view keys.now) ns.now
        (frame_view frame.now) (world_view world.old)) result (frame_view frame.now)
        (world_view world.new) }
{
    match keys.split_first() {
        None => match ns.split_first() {
            None => Ok(()),
            Some(_) => Err(Halt::Ends(Stop::Fault(Reason::Missing, None))),
        },
        Some((k, later_keys)) => match ns.split_first() {
            None => Err(Halt::Ends(Stop::Fault(Reason::Missing, None))),
            Some((n, later_ns)) => {
                case_object(*k, *n, frame, &world.objects)?;
                world.set_owner(
                    *n,
                    Owner::Held {
                        depth: frame.depth,
                        key: k.key.0,
                    },
                );
                open_case(later_keys, later_ns, frame, world)
            }
        },
    }
}
