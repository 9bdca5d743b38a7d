//! The walk over one body: from its flow to the least annotation, or a refusal.
//! Read `specs/Walks.antt` first, `vlt_core/specs/Local.antt` and `vlt_core/specs/Least.antt`; `notes` lists the maps.
//! Used by: the check, and certificates, which are to come.
#![tactic(auto)]

ghost use Rattle.std.specs.Prelude.{IfOk};
ghost use Rattle.vlt_core.specs.View.{program_of, func_of};
ghost use Rattle.vlt_core.specs.Instances.{instance};
ghost use Rattle.vlt_core.specs.Local.{Notes, IsLocalIn};
ghost use Rattle.vlt_flow.specs.Walks.{IfRefused, IsLeastIn};
ghost use Rattle.vlt_flow.specs.Unfit.{IfUnfit, IsUnfit};

mod count;
mod errors;
mod least;
mod notes;
mod walking;

pub use count::{count_block, count_form};
pub use errors::Stop;
pub use least::least_maps;
pub use notes::{annotate, annotate_block};
use std::alloc::Global;
use vlt_core::{Func, Program};
use vlt_flow_maps::{Kept, start_map_of};
use vlt_rows::body_flow;

/// The least maps of a function's body in the instance of this origin, by statement; `Refused` where no annotation holds in
/// it, `Unfit` where the body is (`IsUnfit`).
pub fn walk(alloc: Global, p: &Program, f: &Func, origin: Option<u8>) -> Result<Kept, Stop>
    ensures ok { IfOk result (IsLeastIn (program_of p.now)
        (instance (program_of p.now) (func_of f.now) origin)) }
    ensures refused { IfRefused result ((a : Notes) →
        IsLocalIn (program_of p.now) (instance (program_of p.now) (func_of f.now) origin) a → ⊥) }
    ensures unfit { IfUnfit result (IsUnfit (program_of p.now)
        (instance (program_of p.now) (func_of f.now) origin)) }
{
    let flow = body_flow(alloc, p, f, origin)?;
    let start = start_map_of(alloc, p, f, origin)?;
    least_maps(alloc, start, &flow)
}
