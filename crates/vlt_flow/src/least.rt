//! The decision over a whole body.

ghost use Rattle.std.specs.Prelude.{◌≡◌, ◌<◌, ◌≤◌, ◌^◌, length, IfOk, None};
ghost use Rattle.vlt_core.specs.Flow.{size_block};
ghost use Rattle.vlt_rows.specs.FlowView.{block_view};
ghost use Rattle.vlt_core.specs.Local.{Notes, IsLocalBlock};
ghost use Rattle.vlt_keyset.specs.Held.{map_of};
ghost use Rattle.vlt_flow.specs.Walks.{IfRefused, IsLeastLocal, KeepsBlock};
ghost use Rattle.vlt_flow.specs.Unfit.{IfUnfit};

use crate::count::count_block;
use crate::errors::Stop;
use crate::walking::walk_block;
use std::alloc::Global;
use vlt_flow_maps::{Halt, Kept};
use vlt_keyset::Held;
use vlt_rows::FlowBlock;

/// The least annotation of a body from the start map, or a refusal where none is local.
pub fn least_maps(alloc: Global, start: Held, body: &FlowBlock) -> Result<Kept, Stop>
    ensures ok { IfOk result (λ k. IsLeastLocal (block_view body.now) (map_of start) k) }
    ensures keeps { IfOk result (λ k. KeepsBlock k 0 (block_view body.now)) }
    ensures around { IfOk result (λ k. length k.around ≡ size_block (block_view body.now)) }
    ensures following { IfOk result
        (λ k. length k.following ≡ size_block (block_view body.now)) }
    ensures few { IfOk result (λ k. length k.around < 2 ^ 63) }
    ensures refused { IfRefused result ((a : Notes) →
        IsLocalBlock a None 0 (map_of start) (block_view body.now) → ⊥) }
    ensures unfit { IfUnfit result (2 ^ 62 ≤ size_block (block_view body.now)) }
{
    let count = count_block(body)?;
    if count >= 1 << 62 {
        return Err(Stop::Unfit);
    }
    let mut kept = Kept::open(alloc, count)?;
    match walk_block(alloc, &mut kept, body, None, 0, start) {
        Ok(_) => Ok(kept),
        Err(Halt::Refused) => Err(Stop::Refused),
        Err(Halt::Memory) => Err(Stop::Memory),
    }
}
