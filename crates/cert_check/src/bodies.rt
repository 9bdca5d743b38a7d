//! The tests of whole bodies.

ghost use Rattle.std.specs.Prelude.{◌≡◌, ◌≤◌, ◌<◌, ◌^◌, ◌+◌, None, MatchBool, MatchResult};
ghost use Rattle.vlt_core.specs.View.{program_of, func_of};
ghost use Rattle.vlt_core.specs.Instances.{instance};
ghost use Rattle.vlt_core.specs.Bodies as core;
ghost use Rattle.vlt_core.specs.Derives.{start_map};
ghost use Rattle.vlt_core.specs.Flow.{size_block};
ghost use Rattle.vlt_rows.specs.FlowView.{block_view};
ghost use Rattle.vlt_rows.specs.Unfit.{HasNoFlow};
ghost use Rattle.vlt_flow_maps.specs.Unfit.{HasNoStart};
ghost use Rattle.vlt_keyset.specs.Held.{map_of};
ghost use Rattle.cert_check.specs.Tests.{block_tests, body_tests};
ghost use Rattle.cert_check.specs.Notes.{plain_notes, given_by, annotation_of};
ghost use Rattle.cert_check.specs.Outcomes.{AreTestedUnless, IsUnlessMemory};
ghost use Rattle.cert_check.specs.Unfit.{IsUnfitBody};
ghost use Rattle.cert_check.specs.Bodies.{IsUnfitFlow};

use crate::errors::Stop;
use crate::given::Given;
use crate::ordered::are_ordered;
use crate::walking::test_block;
use cert_read_bodies::MapsNote;
use std::alloc::Global;
use vlt_core::{Func, Program};
use vlt_flow::count_block;
use vlt_flow_maps::start_map_of;
use vlt_keyset::Held;
use vlt_rows::{FlowBlock, RowError, body_flow};

fn flow_of(alloc: Global, p: &Program, f: &Func, origin: Option<u8>) -> Result<FlowBlock, Stop>
    ensures { MatchResult result
        (λ x. block_view x ≡ core.body_flow (program_of p.now)
        (instance (program_of p.now) (func_of f.now) origin))
        (IsUnlessMemory (HasNoFlow (program_of p.now)
        (instance (program_of p.now) (func_of f.now) origin))) }
{
    match body_flow(alloc, p, f, origin) {
        Ok(flow) => Ok(flow),
        Err(RowError::Unfit) => Err(Stop::Unfit),
        Err(RowError::Memory) => Err(Stop::Memory),
        Err(RowError::Refused(_)) => unreachable!(),
    }
}

fn start_of(alloc: Global, p: &Program, f: &Func, origin: Option<u8>) -> Result<Held, Stop>
    ensures { MatchResult result
        (λ h. map_of h ≡ start_map (program_of p.now)
        (instance (program_of p.now) (func_of f.now) origin))
        (IsUnlessMemory (HasNoStart (program_of p.now)
        (instance (program_of p.now) (func_of f.now) origin))) }
{
    match start_map_of(alloc, p, f, origin) {
        Ok(held) => Ok(held),
        Err(RowError::Unfit) => Err(Stop::Unfit),
        Err(RowError::Memory) => Err(Stop::Memory),
        Err(RowError::Refused(_)) => unreachable!(),
    }
}

/// How many statements the body has; `Unfit` from 2^62 on.
fn count(flow: &FlowBlock) -> Result<usize, Stop>
    ensures { MatchResult result
        (λ n. (n ≡ size_block (block_view flow.now)) × (n < 2 ^ 62))
        (IsUnlessMemory (2 ^ 62 ≤ size_block (block_view flow.now))) }
{
    match count_block(flow) {
        Ok(count) => {
            if count < 1 << 62 {
                Ok(count)
            } else {
                Err(Stop::Unfit)
            }
        }
        Err(_) => Err(Stop::Unfit),
    }
}

/// Tests notes in a body that begins with the map, and gives how many statements it has.
fn test_flow(given: &Given<'_>, start: Held, flow: &FlowBlock) -> Result<usize, Stop>
    ensures { AreTestedUnless (IsUnfitFlow given.now (map_of start) (block_view flow.now)) result
        (block_tests (annotation_of given.now) None 0 0 (map_of start) (block_view flow.now))
        (λ n. (n ≡ size_block (block_view flow.now)) × (n < 2 ^ 62)) }
{
    if !are_ordered(given.notes, given.instance) {
        return Err(Stop::Unfit);
    }
    let count = count(flow)?;
    let _end = test_block(given, flow, None, 0, 0, start)?;
    Ok(count)
}

/// Tests the notes of a function, each by its map for the instance of this number and origin, in the function's body; and gives
/// how many statements the body has.
pub fn test_body(
    alloc: Global,
    p: &Program,
    f: &Func,
    origin: Option<u8>,
    notes: &[MapsNote],
    number: usize,
) -> Result<usize, Stop>
    ensures { AreTestedUnless
        (IsUnfitBody (program_of p.now) (instance (program_of p.now) (func_of f.now) origin)
        (plain_notes notes.now) number) result
        (body_tests (program_of p.now) (instance (program_of p.now) (func_of f.now) origin)
        (given_by notes.now number))
        (λ n. (n ≡ size_block (core.body_flow (program_of p.now)
        (instance (program_of p.now) (func_of f.now) origin)))
        × (n < 2 ^ 62)) }
{
    let flow = flow_of(alloc, p, f, origin)?;
    let start = start_of(alloc, p, f, origin)?;
    let given = Given {
        alloc,
        notes,
        instance: number,
    };
    test_flow(&given, start, &flow)
}
