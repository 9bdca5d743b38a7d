//! Values of variants that are built.

ghost use Rattle.std.specs.Prelude.{◌≡◌, ℕ, length, map};
ghost use Rattle.vlt_core.specs.Core.{build as build_form};
ghost use Rattle.vlt_core.specs.View.{program_of, operand_of};
ghost use Rattle.vlt_core.specs.Lookups.{case_at};
ghost use Rattle.vlt_meaning.specs.Externals.{payload_in};
ghost use Rattle.vlt_meaning.specs.Operands.{parts_of};
ghost use Rattle.vlt_trace_worlds.specs.View.{value_view, part_view};
ghost use Rattle.vlt_trace_worlds.specs.Steps.{Finds};
ghost use Rattle.vlt_trace_steps.specs.Does.{Does};

use crate::cases::{case_keys, pack_case};
use crate::values::operands;
use std::alloc::Global;
use vlt_base::{Items, TypeId, VarId};
use vlt_core::{Operand, Program};
use vlt_trace_worlds::{Frame, Halt, Part, Reason, Running, Stop, Value, World, fill};

/// The parts that are values of one part.
fn parts_of(alloc: Global, values: &[Value]) -> Result<Items<Part>, Halt>
    ensures { Finds (map part_view) result (parts_of (map value_view values.now)) }
{
    let mut parts = Items::new(alloc);
    for a in values {
        match a {
            Value::One(part) => parts.push(*part)?,
            Value::OfCase { .. } => return Err(Halt::Ends(Stop::Fault(Reason::Missing, None))),
        }
    }
    Ok(parts)
}

/// How many values a case has for payload; 0 where there is no such case.
fn payload_count(p: &Program, t: TypeId, case: u8) -> usize
    ensures { result ≡ length (payload_in (case_at (program_of p.now) t.0 case)) }
{
    match p.case_at(t, case) {
        None => 0,
        Some(d) => d.payload.len(),
    }
}

/// `v = 'Case(..);`
#[tactic(auto, unfolding(vlt_meaning::specs::Step::with_found, vlt_meaning::specs::Step::where_so))]
pub fn build(
    alloc: Global,
    at: &Running<'_>,
    v: VarId,
    case: u8,
    args: &[Operand],
    frame: &mut Frame,
    world: &mut World,
) -> Result<(), Halt>
    ensures { (heap : ℕ) → Does at.now heap (build_form v.0 case (map operand_of args.now))
        frame.old world.old result frame.new world.new }
{
    let Some(t) = at.func.variant(v) else {
        return Err(Halt::Ends(Stop::Fault(Reason::Missing, None)));
    };
    if args.len() != payload_count(at.program, t.type_id, case) {
        return Err(Halt::Ends(Stop::Fault(Reason::Missing, None)));
    }
    let values = operands(alloc, at, args, frame, world)?;
    let parts = parts_of(alloc, values.as_slice())?;
    let listed = case_keys(alloc, at.program, t, case)?;
    let keys = pack_case(alloc, listed.as_slice(), frame, world)?;
    fill(at, v, Value::OfCase { case, parts, keys }, frame)
}
