//! The least annotation of a body as a list of notes: from a function to the maps at its loops and after its choices.
//! Read `vlt_core/specs/Least.antt` first, then `specs/Notes/Listed.antt`.
//! Used by: certificates, which are to come.

ghost use Rattle.std.specs.Prelude.{◌≡◌, ◌⊎◌, map, length, IfOk, None};
ghost use Rattle.vlt_core.specs.View.{program_of, func_of};
ghost use Rattle.vlt_core.specs.Least.{IsLeast};
ghost use Rattle.vlt_core.specs.Local.{Notes, IsLocalBlock, IsLocalIn};
ghost use Rattle.vlt_keyset.specs.Held.{map_of};
ghost use Rattle.vlt_rows.specs.FlowView.{block_view};
ghost use Rattle.vlt_flow.specs.Walks.{IfRefused};
ghost use Rattle.vlt_flow.specs.Notes.Listed.{note_of, AreListed};
ghost use Rattle.vlt_flow.specs.Notes.Noted.{AreNotes, IsUnnoted};
ghost use Rattle.vlt_flow.specs.Unfit.{IfUnfit, IsUnfit};
ghost use Rattle.vlt_core.specs.Bodies.{body_flow};
ghost use Rattle.vlt_core.specs.Instances.{instance};
ghost use Rattle.vlt_core.specs.Derives.{start_map};

mod listing;
mod passing;
mod statuses;

use crate::notes::listing::note_block;
use crate::{Stop, least_maps};
use std::alloc::Global;
use vlt_base::Items;
use vlt_core::{Annotation, Func, Program};
use vlt_flow_maps::start_map_of;
use vlt_keyset::{Held, TokenCounts};
use vlt_rows::{FlowBlock, body_flow};

/// The least annotation of a body that begins with the map, in a function with so many tokens; `Unfit` where it has none
/// that can be listed (`IsUnnoted`).
pub fn annotate_block(
    alloc: Global,
    start: Held,
    flow: &FlowBlock,
    counts: TokenCounts,
) -> Result<Annotation, Stop>
    ensures listed { IfOk result (λ a. AreNotes (block_view flow.now) (map_of start)
        (map note_of a.maps)) }
    ensures order { IfOk result (λ a. AreListed counts.keys counts.vars a.maps) }
    ensures refused { IfRefused result ((a : Notes) →
        IsLocalBlock a None 0 (map_of start) (block_view flow.now) → ⊥) }
    ensures unfit { IfUnfit result (IsUnnoted counts.keys counts.vars
        (block_view flow.now) (map_of start)) }
{
    match least_maps(alloc, start, flow) {
        Ok(kept) => {
            let mut maps = Items::new(alloc);
            let _end = note_block(alloc, &mut maps, &kept, flow, 0, counts)?;
            Ok(Annotation { maps })
        }
        Err(stop) => Err(stop),
    }
}

/// The least annotation of a function's body in the instance of this origin; `Refused` where none holds in it. Statements are
/// counted from 0 in the function, each before those inside it, and each map is listed in ascending order, keys first, without
/// absent tokens. `Unfit` where the body is (`IsUnfit`), or where it has no notes (`IsUnnoted`).
pub fn annotate(
    alloc: Global,
    p: &Program,
    f: &Func,
    origin: Option<u8>,
) -> Result<Annotation, Stop>
    ensures least { IfOk result (λ a. IsLeast (program_of p.now)
        (instance (program_of p.now) (func_of f.now) origin) (map note_of a.maps)) }
    ensures order { IfOk result (λ a. AreListed (length f.now.keys) (length f.now.vars) a.maps) }
    ensures refused { IfRefused result ((a : Notes) →
        IsLocalIn (program_of p.now) (instance (program_of p.now) (func_of f.now) origin) a → ⊥) }
    ensures unfit { IfUnfit result (IsUnfit (program_of p.now)
        (instance (program_of p.now) (func_of f.now) origin) ⊎
        IsUnnoted (length f.now.keys) (length f.now.vars)
        (body_flow (program_of p.now) (instance (program_of p.now) (func_of f.now) origin))
        (start_map (program_of p.now) (instance (program_of p.now) (func_of f.now) origin))) }
{
    let flow = body_flow(alloc, p, f, origin)?;
    let start = start_map_of(alloc, p, f, origin)?;
    match TokenCounts::of(f) {
        Some(counts) => annotate_block(alloc, start, &flow, counts),
        None => Err(Stop::Unfit),
    }
}
